// Variable-length numbers, read and written. Where the Rust shrinks a slice as it reads, a place goes in and the place
// behind what was read comes out.
ghost use Rattle.std.specs.Prelude.{◌≡◌, ◌-◌, ◌^◌, ◌<◌, ◌≤◌, length};
ghost use Rattle.smf.specs.Number.{encode_number};
ghost use Rattle.smf.specs.Place.{number_at};
ghost use Rattle.std.proofs.Common.{rules, ap};
ghost use Rattle.smf.specs.Width.{try_width};
ghost use Rattle.smf.specs.Write.{over, write, number_bytes};
ghost use Rattle.base.specs.Rules.{rules_of};
ghost use Rattle.number.specs.Varlen.{tried_u28, number_read_of, write_left};

use crate::room::end_of;
use crate::u28;
use base::{Refusal, Restricted, Rules, tried};

// The functions of every restricted number, as in the crate `base`.
impl Restricted for u28 {
    type Int = u32;

    ghost BITS = { 28 };

    const BITS: u32 = 28;

    ghost number = { λ n. n };

    ghost value = { λ x. x.0 };

    fn low(wide: u32) -> u28 {
        u28(wide & 0xFFF_FFFF)
    }

    fn as_int(self) -> u32 {
        self.0 // ticks
    }

    ghost widened = { λ raw n same. same };

    ghost in_32 = { Prim.search rules };

    ghost apart = { λ x y same. ap (λ n. record { 0 = n }) same };
}

impl TryFrom<u32> for u28 {
    type Error = Refusal;

    ghost try_from_gives = { λ raw r. tried_u28 r ≡ try_width 28 raw };

    fn try_from(raw: u32) -> Result<u28, Refusal> {
        tried(raw)
    }
}

// A number that was read at a place.
#[derive(Clone, Copy, Debug, PartialEq, Eq)]
pub struct NumberAt {
    // what it stands for
    pub value: u28,
    // the place behind its last byte
    pub next: usize,
    // how many bytes it has beyond the fewest that hold its value
    pub padding: usize,
}

impl u28 {
    // Reads the number at a place: one to four bytes of seven bits each, the highest first. The loop is left with the bits
    // on a last byte, on a fourth byte and at the end of the bytes: docs/RULES.md asks for a loop that is left with its value.
    pub fn read_u7(raw: &[u8], at: usize, rules: Rules) -> Result<NumberAt, Refusal>
        ensures { number_read_of result ≡ number_at (rules_of rules) raw.now at }
    {
        let mut int: u32 = 0;
        let mut place = at;
        let mut left: u8 = 4;
        let bits = loop {
            let Some(&byte) = raw.get(place) else {
                if rules.strict { // unexpected end
                    return Err(Refusal::NumberCutOff);
                }
                break int; // stay with what was read
            };
            int = int * 128 + u32::from(byte % 128);
            place += 1;
            left -= 1;
            if byte < 128 {
                break int;
            }
            if left == 0 {
                if rules.strict { // larger than 4 bytes
                    return Err(Refusal::NumberContinues);
                }
                break int; // use the 4 bytes as they are
            }
        };
        let value = u28(bits);
        let padding = value.padding(place - at);
        Ok(NumberAt {
            value,
            next: place,
            padding,
        })
    }

    // How many of the bytes used for the number are beyond the fewest that hold it; none where no byte was there.
    fn padding(self, used: usize) -> usize
        ensures { result ≡ used - length (encode_number self.0) }
    {
        used.saturating_sub(self.varlen_length())
    }

    // How many bytes the number has in its shortest form, 1 to 4.
    pub fn varlen_length(self) -> usize
        ensures { result ≡ length (encode_number self.0) }
    {
        match self.0 {
            0..=0x7F => 1,
            0x80..=0x3FFF => 2,
            0x4000..=0x1F_FFFF => 3,
            _ => 4,
        }
    }

    // Writes the number in its shortest form at a place of a lent buffer.
    pub fn write_varlen(self, out: &mut [u8], at: usize) -> Result<usize, Refusal>
        ensures { write_left result out.new ≡ write (number_bytes self.0) out.old at }
    {
        if 0xFFF_FFFF < self.0 {
            return Err(Refusal::AboveWidth);
        }
        let end = end_of(out, at, self.varlen_length())?;
        self.put(out, end);
        Ok(end)
    }

    // Puts the number in its shortest form before a place of a buffer, the last byte first. The loop goes on while there are
    // bits left: one over the range of places was proved too, and wrote lists with deltas of two bytes a quarter slower.
    pub(crate) fn put(self, out: &mut [u8], end: usize)
        requires { (self.0 < 2 ^ 28) × (length (encode_number self.0) ≤ end) × (end ≤ length out.old) }
        ensures { out.new ≡ over (encode_number self.0) out.old (end - length (encode_number self.0)) }
    {
        let mut place = end - 1;
        out[place] = (self.0 % 128) as u8;
        let mut high = self.0 / 128;
        while high != 0 {
            place -= 1;
            out[place] = (128 + high % 128) as u8;
            high /= 128;
        }
    }
}
