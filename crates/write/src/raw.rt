// What stands behind the delta of an event that may be written: the raw form of SMF, as the code holds it.
ghost use Rattle.std.specs.Prelude.{◌≡◌, List, ℕ, ◌^◌, ltb};
ghost use Rattle.smf.specs.Answer.{pick, gives, refuses, and_then};
ghost use Rattle.smf.specs.Wire.{raw_event};
ghost use Rattle.write.specs.Raw.{made_said, judged_said};

use base::{Range, Refusal};
use number::u28;

// A channel status and its data.
#[derive(Clone, Copy)]
pub struct Channel {
    pub status: u8,
    // whether there are two data bytes: a flag and no option, since an enum that is handed over goes through memory
    // (docs/PERFORMANCE.md)
    pub pair: bool,
    pub a: u8,
    // 0 where there is one alone
    pub b: u8,
}

// A payload that stands in no bytes lent: the first n of five bytes. The bytes stand first, so that n lies where the
// length of a `Range` does: with n first the compiler stores byte by byte what it then loads as one word. They keep their
// number beside them, since a slice could not outlive the function that makes them.
#[derive(Clone, Copy)]
pub struct Own {
    pub bytes: [u8; 5],
    pub n: usize,
}

// What stands behind the delta.
#[derive(Clone, Copy)]
pub enum Raw {
    // a channel message
    Channel(Channel),
    // F0 or F7, and a payload in the bytes lent
    System(u8, Range),
    // FF: a type, and a payload in the bytes lent
    Typed(u8, Range),
    // FF: a type, and a payload of its own
    Fixed(u8, Own),
}

// An event that may be written, in its raw form.
#[derive(Clone, Copy)]
pub struct RawEvent {
    pub delta: u28,
    pub raw: Raw,
}

// The raw form of an event of its delta and what stands behind it. The delta's width is looked at first, since 18 comes
// before all else that forbids an event.
pub fn behind(delta: u28, made: Result<Raw, Refusal>) -> Result<RawEvent, Refusal>
    ensures { (bytes : List ℕ) → judged_said bytes result ≡ pick (ltb delta.0 (2 ^ 28)) (and_then (made_said bytes made) (λ raw. gives (raw_event delta.0 raw))) (refuses 18) }
{
    if 0x1000_0000 <= delta.0 {
        return Err(Refusal::AboveWidth);
    }
    let raw = made?;
    Ok(RawEvent { delta, raw })
}
