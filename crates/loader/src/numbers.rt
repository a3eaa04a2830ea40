// The entries for numbers and payloads.
ghost use Rattle.std.specs.Prelude.{◌≡◌, ℕ, length};
ghost use Rattle.smf.specs.Number.{encode_number};
ghost use Rattle.smf.specs.Place.{NumberAt, PayloadAt, number_at, payload_at};
ghost use Rattle.smf.specs.Write.{write, number_bytes, payload_bytes};
ghost use Rattle.loader.specs.Entry.{from_bits, answered, leaves};

use crate::{rules, told};
use base::Range;
use number::payload::{read_varlen_slice, write_varlen_slice};
use number::u28;

// The number at a place: its value, the place after it, and its padding.
#[unsafe(no_mangle)]
pub extern "C" fn apk_number_read(
    bytes: &[u8],
    at: usize,
    bits: u8,
    value: &mut u32,
    next: &mut usize,
    padding: &mut usize,
) -> u8
    ensures answer { result ≡ answered (number_at (from_bits bits) bytes.now at) }
    ensures value { value.new ≡ leaves (λ (n : NumberAt). n.value) (number_at (from_bits bits) bytes.now at) value.old }
    ensures next { next.new ≡ leaves (λ (n : NumberAt). n.next) (number_at (from_bits bits) bytes.now at) next.old }
    ensures padding { padding.new ≡ leaves (λ (n : NumberAt). n.padding) (number_at (from_bits bits) bytes.now at) padding.old }
{
    let found = u28::read_u7(bytes, at, rules(bits));
    told(found.map(|number| number.value.0), value);
    told(found.map(|number| number.next), next);
    told(found.map(|number| number.padding), padding)
}

// How many bytes the shortest form of a number has.
#[unsafe(no_mangle)]
pub extern "C" fn apk_number_length(value: u32) -> usize
    ensures { result ≡ length (encode_number value) }
{
    u28(value).varlen_length()
}

// Writes a number in its shortest form at a place of a lent buffer: the place after it.
#[unsafe(no_mangle)]
pub extern "C" fn apk_number_write(value: u32, out: &mut [u8], at: usize, next: &mut usize) -> u8
    ensures answer { result ≡ answered (write (number_bytes value) out.old at).answer }
    ensures buffer { out.new ≡ (write (number_bytes value) out.old at).buffer }
    ensures next { next.new ≡ leaves (λ (n : ℕ). n) (write (number_bytes value) out.old at).answer next.old }
{
    told(u28(value).write_varlen(out, at), next)
}

// The payload at a place: its start, its length, and the padding of its number. The place after it is the sum of the
// first two.
#[unsafe(no_mangle)]
pub extern "C" fn apk_payload_read(
    bytes: &[u8],
    at: usize,
    bits: u8,
    start: &mut usize,
    length: &mut usize,
    padding: &mut usize,
) -> u8
    ensures answer { result ≡ answered (payload_at (from_bits bits) bytes.now at) }
    ensures start { start.new ≡ leaves (λ (n : PayloadAt). n.span.start) (payload_at (from_bits bits) bytes.now at) start.old }
    ensures length { length.new ≡ leaves (λ (n : PayloadAt). n.span.length) (payload_at (from_bits bits) bytes.now at) length.old }
    ensures padding { padding.new ≡ leaves (λ (n : PayloadAt). n.padding) (payload_at (from_bits bits) bytes.now at) padding.old }
{
    let found = read_varlen_slice(bytes, at, rules(bits));
    told(found.map(|payload| payload.range.start), start);
    told(found.map(|payload| payload.range.length), length);
    told(found.map(|payload| payload.padding), padding)
}

// Writes a range of the bytes lent as a payload at a place of a lent buffer: the place after it.
#[unsafe(no_mangle)]
pub extern "C" fn apk_payload_write(
    payload: &[u8],
    start: usize,
    length: usize,
    out: &mut [u8],
    at: usize,
    next: &mut usize,
) -> u8
    ensures answer { result ≡ answered (write (payload_bytes payload.now start length) out.old at).answer }
    ensures buffer { out.new ≡ (write (payload_bytes payload.now start length) out.old at).buffer }
    ensures next { next.new ≡ leaves (λ (n : ℕ). n) (write (payload_bytes payload.now start length) out.old at).answer next.old }
{
    told(
        write_varlen_slice(payload, Range { start, length }, out, at),
        next,
    )
}
