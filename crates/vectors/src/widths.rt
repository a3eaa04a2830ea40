// What is asked of the restricted numbers, which are not exported: what `max_value`, `new` and `try_from` give of a
// number, each as `as_int` gives it.
use crate::cells::{CELLS, Given, byte, put};
use crate::floats::{low16, low32};
use base::{Refusal, Restricted, u2, u4, u7, u14, u15, u24};
use number::u28;

// A restricted number, as the number that it gives back.
fn wide<T: Restricted>(x: T) -> u64 {
    let int: u32 = x.as_int().into();
    u64::from(int)
}

// What is asked of a number as a restricted one: the largest value; the low bits; 0 and the number tried, or the refusal's
// number and A5.
fn asked<T: Restricted + TryFrom<T::Int, Error = Refusal>>(raw: T::Int) -> [u64; 4]
where
    T::Int: Copy,
{
    let (refused, tried) = match T::try_from(raw) {
        Ok(x) => (0, wide(x)),
        Err(refusal) => (u8::from(refusal), 0xA5),
    };
    [
        wide(T::max_value()),
        wide(T::new(raw)),
        u64::from(refused),
        tried,
    ]
}

// What is asked of a number as one of so many bits.
fn of(bits: u8, raw: u64) -> [u64; 4] {
    match bits {
        2 => asked::<u2>(byte(raw)),
        4 => asked::<u4>(byte(raw)),
        7 => asked::<u7>(byte(raw)),
        14 => asked::<u14>(low16(raw)),
        15 => asked::<u15>(low16(raw)),
        24 => asked::<u24>(low32(raw)),
        _ => asked::<u28>(low32(raw)),
    }
}

// Bits, a number.
pub fn one(given: Given, cells: &mut [u64; CELLS]) -> usize {
    put(cells, 0, &of(given.b1, given.n2 as u64));
    4
}

// A sum of numbers, and the sum of the sums so far, which tells their order.
#[derive(Clone, Copy)]
struct Sums {
    plain: u64,
    ordered: u64,
}

impl Sums {
    // With one number more.
    fn with(self, n: u64) -> Sums {
        let plain = self.plain.wrapping_add(n);
        Sums {
            plain,
            ordered: self.ordered.wrapping_add(plain),
        }
    }
}

// Bits, a number, how many numbers from there on: the two sums of all that is answered to them.
pub fn many(given: Given, cells: &mut [u64; CELLS]) -> usize {
    let mut sums = Sums {
        plain: 0,
        ordered: 0,
    };
    for i in 0..given.n3 {
        let raw = (given.n2 as u64).wrapping_add(i as u64);
        sums = of(given.b1, raw).iter().fold(sums, |sums, n| sums.with(*n));
    }
    put(cells, 0, &[sums.plain, sums.ordered, 0, 0]);
    2
}
