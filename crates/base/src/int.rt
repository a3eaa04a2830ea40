// What the restricted numbers do, in the same functions as in the Rust: `max_value` is the largest; `new` keeps the low bits
// of a number and drops the rest; `try_from` refuses a number above the width by 18; `as_int` gives the number back.
// The field is public, so that a value may be above its width: readers never make such a one, and writers refuse it by 18.
// `low`, `as_int` and `try_from` stand in each impl alike: docs/RULES.md asks for tuple structs one by one, an impl may be
// written by no macro of the repository's own, and a `TryFrom` for all that are `Restricted` would meet the library's.
ghost use Rattle.std.specs.Prelude.{◌≡◌, ◌<◌, ℕ};
ghost use Rattle.std.proofs.Common.{rules, ap};
ghost use Rattle.smf.specs.Width.{low_bits, largest, try_width};
ghost use Rattle.base.specs.Said.{said};
ghost use Rattle.base.specs.Restricted.{tried_u2, tried_u4, tried_u7, tried_u14, tried_u15, tried_u24};

use crate::{Refusal, u2, u4, u7, u14, u15, u24};

// A number of so many bits: what is proved of one is proved of all, over the width.
pub trait Restricted: Sized {
    // The integer that holds it.
    type Int: Into<u32>;

    // How many bits it has.
    ghost BITS: { ℕ };

    const BITS: u32;

    // The number that an integer is, and the one that a restricted number is.
    ghost number: { Self.Int → ℕ };

    ghost value: { Self → ℕ };

    // The number that the low bits make of an integer that holds them all.
    fn low(wide: u32) -> Self
        ensures { value result ≡ low_bits BITS wide };

    fn as_int(self) -> Self::Int
        ensures { number result ≡ value self };

    fn max_value() -> Self
        ensures { value result ≡ largest BITS }
    {
        Self::low((1 << Self::BITS) - 1)
    }

    fn new(raw: Self::Int) -> Self
        ensures { value result ≡ low_bits BITS (number raw) }
    {
        Self::low(raw.into())
    }

    // An integer is the same number in 32 bits, which hold them all.
    ghost widened: { (raw : Self.Int) (n : ℕ) → Self.Int.Into.converts raw n → n ≡ number raw };

    ghost in_32: { BITS < 32 };

    // No two values are one number, so that what is promised of the number permits one value alone.
    ghost apart: { (x y : Self) → value x ≡ value y → x ≡ y };
}

// What `try_from` of each answers.
pub fn tried<T: Restricted>(raw: T::Int) -> Result<T, Refusal>
    ensures { said T.value result ≡ try_width T.BITS (T.number raw) }
{
    let wide: u32 = raw.into();
    if wide < 1 << T::BITS {
        Ok(T::low(wide))
    } else {
        Err(Refusal::AboveWidth)
    }
}

impl Restricted for u2 {
    type Int = u8;

    ghost BITS = { 2 };

    const BITS: u32 = 2;

    ghost number = { λ n. n };

    ghost value = { λ x. x.0 };

    fn low(wide: u32) -> u2 {
        u2((wide & 0x3) as u8)
    }

    fn as_int(self) -> u8 {
        self.0 // an SMPTE rate code
    }

    ghost widened = { λ raw n same. same };

    ghost in_32 = { Prim.search rules };

    ghost apart = { λ x y same. ap (λ n. record { 0 = n }) same };
}

impl TryFrom<u8> for u2 {
    type Error = Refusal;

    ghost try_from_gives = { λ raw r. tried_u2 r ≡ try_width 2 raw };

    fn try_from(raw: u8) -> Result<u2, Refusal> {
        tried::<u2>(raw)
    }
}

impl Restricted for u4 {
    type Int = u8;

    ghost BITS = { 4 };

    const BITS: u32 = 4;

    ghost number = { λ n. n };

    ghost value = { λ x. x.0 };

    fn low(wide: u32) -> u4 {
        u4((wide & 0xF) as u8)
    }

    fn as_int(self) -> u8 {
        self.0 // a channel
    }

    ghost widened = { λ raw n same. same };

    ghost in_32 = { Prim.search rules };

    ghost apart = { λ x y same. ap (λ n. record { 0 = n }) same };
}

impl TryFrom<u8> for u4 {
    type Error = Refusal;

    ghost try_from_gives = { λ raw r. tried_u4 r ≡ try_width 4 raw };

    fn try_from(raw: u8) -> Result<u4, Refusal> {
        tried::<u4>(raw)
    }
}

impl Restricted for u7 {
    type Int = u8;

    ghost BITS = { 7 };

    const BITS: u32 = 7;

    ghost number = { λ n. n };

    ghost value = { λ x. x.0 };

    fn low(wide: u32) -> u7 {
        u7((wide & 0x7F) as u8)
    }

    fn as_int(self) -> u8 {
        self.0 // a data byte
    }

    ghost widened = { λ raw n same. same };

    ghost in_32 = { Prim.search rules };

    ghost apart = { λ x y same. ap (λ n. record { 0 = n }) same };
}

impl TryFrom<u8> for u7 {
    type Error = Refusal;

    ghost try_from_gives = { λ raw r. tried_u7 r ≡ try_width 7 raw };

    fn try_from(raw: u8) -> Result<u7, Refusal> {
        tried::<u7>(raw)
    }
}

impl Restricted for u14 {
    type Int = u16;

    ghost BITS = { 14 };

    const BITS: u32 = 14;

    ghost number = { λ n. n };

    ghost value = { λ x. x.0 };

    fn low(wide: u32) -> u14 {
        u14((wide & 0x3FFF) as u16)
    }

    fn as_int(self) -> u16 {
        self.0 // a bend
    }

    ghost widened = { λ raw n same. same };

    ghost in_32 = { Prim.search rules };

    ghost apart = { λ x y same. ap (λ n. record { 0 = n }) same };
}

impl TryFrom<u16> for u14 {
    type Error = Refusal;

    ghost try_from_gives = { λ raw r. tried_u14 r ≡ try_width 14 raw };

    fn try_from(raw: u16) -> Result<u14, Refusal> {
        tried::<u14>(raw)
    }
}

impl Restricted for u15 {
    type Int = u16;

    ghost BITS = { 15 };

    const BITS: u32 = 15;

    ghost number = { λ n. n };

    ghost value = { λ x. x.0 };

    fn low(wide: u32) -> u15 {
        u15((wide & 0x7FFF) as u16)
    }

    fn as_int(self) -> u16 {
        self.0 // ticks per beat
    }

    ghost widened = { λ raw n same. same };

    ghost in_32 = { Prim.search rules };

    ghost apart = { λ x y same. ap (λ n. record { 0 = n }) same };
}

impl TryFrom<u16> for u15 {
    type Error = Refusal;

    ghost try_from_gives = { λ raw r. tried_u15 r ≡ try_width 15 raw };

    fn try_from(raw: u16) -> Result<u15, Refusal> {
        tried::<u15>(raw)
    }
}

impl Restricted for u24 {
    type Int = u32;

    ghost BITS = { 24 };

    const BITS: u32 = 24;

    ghost number = { λ n. n };

    ghost value = { λ x. x.0 };

    fn low(wide: u32) -> u24 {
        u24(wide & 0xFF_FFFF)
    }

    fn as_int(self) -> u32 {
        self.0 // microseconds per beat
    }

    ghost widened = { λ raw n same. same };

    ghost in_32 = { Prim.search rules };

    ghost apart = { λ x y same. ap (λ n. record { 0 = n }) same };
}

impl TryFrom<u32> for u24 {
    type Error = Refusal;

    ghost try_from_gives = { λ raw r. tried_u24 r ≡ try_width 24 raw };

    fn try_from(raw: u32) -> Result<u24, Refusal> {
        tried::<u24>(raw)
    }
}
