// The exported entries, which C and Rust link: numbers, byte slices and values lent for what is found. `include/apkarewe.h`
// declares them. Each answers 0 where it accepts, else the refusal's number (document 01, "Refusal numbers"); a refusal
// changes nothing that was lent but what its entry says. One that refuses nothing answers its value itself.
// Those for events and lists stand in the crate `loader_track`. The C interface has one name for each width of an integer or
// a float, plain numbers for structs and enums, and what is found in values lent by `&mut`.
#![tactic(auto)]

pub mod bends;
pub mod fields;
pub mod numbers;
pub mod smpte;

ghost use Rattle.std.specs.Prelude.{◌≡◌};
ghost use Rattle.base.specs.Rules.{rules_of};
ghost use Rattle.base.specs.Said.{said};
ghost use Rattle.loader.specs.Entry.{from_bits, answered, leaves};

use base::{Refusal, Rules};

// The rules that a set of bits says: bit 0 strict. Bits that mean nothing yet are not looked at. A `From` would have to stand
// beside the type, in a crate that knows no bits of C's.
pub fn rules(bits: u8) -> Rules
    ensures { rules_of result ≡ from_bits bits }
{
    Rules {
        strict: bits % 2 == 1,
    }
}

// What C is told of a result: 0 and the value, stored in what was lent, or the refusal's number, and what was lent stays as
// it came. An entry that lends for several parts calls it once for each, with that part of one result.
pub fn told<T: Copy>(found: Result<T, Refusal>, lent: &mut T) -> u8
    ensures answer { result ≡ answered (said (λ x. x) found) }
    ensures lent { lent.new ≡ leaves (λ x. x) (said (λ x. x) found) lent.old }
{
    match found {
        Ok(value) => {
            *lent = value;
            0
        }
        Err(refusal) => u8::from(refusal),
    }
}
