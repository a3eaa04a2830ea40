// What stands behind a delta, made of its numbers. Both doors come here, so that each form is judged and made in one place:
// a number above its width is 18, a payload that is not there 19, one too long 22, an `Unknown` that has a name 23.
ghost use Rattle.std.specs.Prelude.{◌≡◌, ◌&&◌, not, List, [], ◌∷◌, ℕ, ◌+◌, ◌*◌, ◌/◌, ◌%◌, ◌≤◌, ◌<◌, ltb, eqb, take};
ghost use Rattle.smf.specs.Place.{bytes_of};
ghost use Rattle.smf.specs.Answer.{pick, gives, refuses, unless, and_then};
ghost use Rattle.smf.specs.Wire as wire;
ghost use Rattle.smf.specs.Kind.{smpte_offset, meta};
ghost use Rattle.smf.specs.Event.{is_named};
ghost use Rattle.base.specs.Rules.{rules_of};
ghost use Rattle.header.specs.Smpte.{smpte_time_of};
ghost use Rattle.meta.specs.Meta.{span_of};
ghost use Rattle.write.specs.Raw.{made_said, looked_said, lent, raw_kind};

use crate::raw::{Channel, Own, Raw};
use base::{Range, Refusal, Rules};
use header::SmpteTime;
use number::payload::is_inside;

// A channel message by its status's upper half, with one data byte, where b is 0, or with two. The `bool` is the flag that
// `raw::Channel` holds, by the reason that stands there.
pub fn channel(upper: u64, channel: u64, pair: bool, a: u64, b: u64) -> Result<Raw, Refusal>
    requires { upper < 15 }
    ensures { (bytes : List ℕ) → made_said bytes result ≡ pick (ltb channel 16 && (ltb a 128 && ltb b 128)) (gives (pick pair (wire.two (upper * 16 + channel) a b) (wire.one (upper * 16 + channel) a))) (refuses 18) }
{
    if 16 <= channel || 128 <= a || 128 <= b {
        return Err(Refusal::AboveWidth);
    }
    Ok(Raw::Channel(Channel {
        status: (upper * 16 + channel) as u8,
        pair,
        a: a as u8,
        b: b as u8,
    }))
}

// FF, a type and the first n of five bytes of its own, with their number beside them as `raw::Own` holds them.
fn fixed(type_byte: u8, own: [u8; 5], n: usize) -> Result<Raw, Refusal>
    requires { n ≤ 5 }
    ensures { (bytes : List ℕ) → made_said bytes result ≡ gives (wire.typed type_byte (take n own)) }
{
    Ok(Raw::Fixed(type_byte, Own { bytes: own, n }))
}

// FF, a type and at most two bytes of its own.
pub fn own_bytes(type_byte: u8, n: usize, a: u8, b: u8) -> Result<Raw, Refusal>
    requires { n ≤ 2 }
    ensures { (bytes : List ℕ) → made_said bytes result ≡ gives (wire.typed type_byte (take n (a ∷ b ∷ []))) }
{
    fixed(type_byte, [a, b, 0, 0, 0], n)
}

// FF, a type and one number of its own, below a limit.
pub fn narrow(type_byte: u8, limit: u64, number: u64) -> Result<Raw, Refusal>
    requires { limit ≤ 256 }
    ensures { (bytes : List ℕ) → made_said bytes result ≡ pick (ltb number limit) (gives (wire.typed type_byte (number ∷ []))) (refuses 18) }
{
    if limit <= number {
        return Err(Refusal::AboveWidth);
    }
    own_bytes(type_byte, 1, number as u8, 0)
}

// A track number.
pub fn track_number(number: u64) -> Result<Raw, Refusal>
    ensures { (bytes : List ℕ) → made_said bytes result ≡ pick (ltb number 65536) (gives (wire.typed 0x00 (number / 256 ∷ number % 256 ∷ []))) (refuses 18) }
{
    if 0x1_0000 <= number {
        return Err(Refusal::AboveWidth);
    }
    own_bytes(0x00, 2, (number / 256) as u8, (number % 256) as u8)
}

// A tempo, the highest byte first.
pub fn tempo(v: u64) -> Result<Raw, Refusal>
    ensures { (bytes : List ℕ) → made_said bytes result ≡ pick (ltb v 16777216) (gives (wire.typed 0x51 (v / 256 / 256 ∷ v / 256 % 256 ∷ v % 256 ∷ []))) (refuses 18) }
{
    if 0x100_0000 <= v {
        return Err(Refusal::AboveWidth);
    }
    let high = (v / 256 / 256) as u8;
    let middle = (v / 256 % 256) as u8;
    let low = (v % 256) as u8;
    fixed(0x51, [high, middle, low, 0, 0], 3)
}

// A time signature.
pub fn signature(a: u8, b: u8, c: u8, d: u8) -> Result<Raw, Refusal>
    ensures { (bytes : List ℕ) → made_said bytes result ≡ gives (wire.typed 0x58 (a ∷ b ∷ c ∷ d ∷ [])) }
{
    fixed(0x58, [a, b, c, d, 0], 4)
}

// A key signature, of its sharps' byte. A minor key is written as 1; its `bool` is the Rust's, as `MetaMessage` holds it.
pub fn key(sharps: u8, minor: bool) -> Result<Raw, Refusal>
    ensures { (bytes : List ℕ) → made_said bytes result ≡ gives (wire.typed 0x59 (sharps ∷ pick minor 1 0 ∷ [])) }
{
    own_bytes(0x59, 2, sharps, u8::from(minor))
}

// An SMPTE time. What it is outside its ranges by is not told apart: 18.
pub fn time(time: SmpteTime, rules: Rules) -> Result<Raw, Refusal>
    ensures { (bytes : List ℕ) → made_said bytes result ≡ raw_kind (rules_of rules) bytes (meta (smpte_offset (smpte_time_of time))) }
{
    let Ok(bytes) = time.encode(rules) else {
        return Err(Refusal::AboveWidth); // whichever range it is outside of
    };
    fixed(0x54, bytes, 5)
}

// Looks whether a payload is there: 19 before 22.
fn look(load: Range, bytes: &[u8]) -> Result<(), Refusal>
    ensures { looked_said result ≡ lent bytes.now (span_of load) tt }
{
    if !is_inside(bytes, load) {
        return Err(Refusal::PayloadOutside);
    }
    if 0x1000_0000 <= load.length {
        return Err(Refusal::PayloadTooLong);
    }
    Ok(())
}

// F0 or F7, and a payload.
pub fn system(status: u8, load: Range, bytes: &[u8]) -> Result<Raw, Refusal>
    ensures { made_said bytes.now result ≡ lent bytes.now (span_of load) (wire.system status (bytes_of bytes.now (span_of load))) }
{
    look(load, bytes)?;
    Ok(Raw::System(status, load))
}

// FF, a type and a payload.
pub fn typed(type_byte: u8, load: Range, bytes: &[u8]) -> Result<Raw, Refusal>
    ensures { made_said bytes.now result ≡ lent bytes.now (span_of load) (wire.typed type_byte (bytes_of bytes.now (span_of load))) }
{
    look(load, bytes)?;
    Ok(Raw::Typed(type_byte, load)) // of whatever type
}

// Whether a meta type with so many bytes reads as a named kind, or is refused as 59.
fn is_named(type_byte: u8, n: usize, rules: Rules) -> bool
    ensures { result ≡ is_named (rules_of rules) type_byte n }
{
    // 00 to 09 share an arm, and each other type has one of its own: with several of those in one the proof did not close.
    match type_byte {
        0x00..=0x09 => true,
        0x2F => true,
        0x59 => true,
        0x7F => true,
        0x20 => 1 <= n,
        0x21 => 1 <= n,
        0x51 => 3 <= n,
        0x54 => 5 <= n,
        0x58 => 4 <= n,
        _ => false,
    }
}

// FF, a type that is to be no named kind's, and a payload. The name is looked for last.
pub fn unknown(type_byte: u8, load: Range, rules: Rules, bytes: &[u8]) -> Result<Raw, Refusal>
    ensures { made_said bytes.now result ≡ and_then (lent bytes.now (span_of load) (wire.typed type_byte (bytes_of bytes.now (span_of load)))) (λ raw. unless (not (is_named (rules_of rules) type_byte load.length)) 23 (gives raw)) }
{
    look(load, bytes)?;
    if is_named(type_byte, load.length, rules) {
        return Err(Refusal::UnknownNamed);
    }
    Ok(Raw::Typed(type_byte, load))
}
