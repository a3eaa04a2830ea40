// Payloads, read and written: a number and that many bytes. What the Rust returns as a slice is a range of the bytes lent.
ghost use Rattle.std.specs.Prelude.{◌≡◌, ◌+◌, ◌-◌, ◌≤◌, length, take, drop};
ghost use Rattle.smf.specs.Place.{inside, payload_at};
ghost use Rattle.smf.specs.Write.{over, write, part, payload_bytes};
ghost use Rattle.base.specs.Rules.{rules_of};
ghost use Rattle.number.specs.Varlen.{write_left};
ghost use Rattle.number.specs.Payload.{slice_read};

use crate::room::end_of;
use crate::u28;
use base::{Range, Refusal, Rules};

// A payload that was read. It is a struct of its own, so that what else is known of a payload can join it.
#[derive(Clone, Copy, Debug, PartialEq, Eq)]
pub struct Payload {
    // where it stands in the bytes lent; its event ends where it ends
    pub range: Range,
    // the padding of its number
    pub padding: usize,
}

// Reads the payload at a place, as a range of the bytes.
pub fn read_varlen_slice(raw: &[u8], at: usize, rules: Rules) -> Result<Payload, Refusal>
    ensures { slice_read result ≡ payload_at (rules_of rules) raw.now at }
{
    let len = u28::read_u7(raw, at, rules)?;
    let n = len.value.0 as usize;
    let start = len.next;
    let padding = len.padding;
    let left = raw.len().saturating_sub(start);
    if n <= left {
        let range = Range { start, length: n };
        return Ok(Payload { range, padding });
    }
    if rules.strict {
        return Err(Refusal::PayloadCutOff);
    }
    let range = Range {
        start,
        length: left,
    };
    Ok(Payload { range, padding })
}

// Whether a range is inside the bytes lent: a start beyond their end is not, even at length 0.
pub fn is_inside(bytes: &[u8], slice: Range) -> bool
    ensures { result ≡ inside bytes.now (record { start = slice.start; length = slice.length }) }
{
    slice.length <= bytes.len() && slice.start <= bytes.len() - slice.length
}

// Copies bytes over as many others, one by one: the library's `copy_from_slice` would call `memmove`, a name that a program in
// C would have to bring along.
fn copy_over(from: &[u8], to: &mut [u8])
    requires { length to.old ≡ length from.now }
    ensures { to.new ≡ from.now }
{
    for i in 0..from.len() {
        to[i] = from[i];
    }
}

// Writes a range of the bytes lent as it stands, at a place of a lent buffer: 19 where it is not inside the bytes, 20
// where there is no room.
pub fn write_slice(bytes: &[u8], slice: Range, out: &mut [u8], at: usize) -> Result<usize, Refusal>
    ensures { write_left result out.new ≡ write (part bytes.now (record { start = slice.start; length = slice.length })) out.old at }
{
    if !is_inside(bytes, slice) {
        return Err(Refusal::PayloadOutside);
    }
    let end = end_of(out, at, slice.length)?;
    copy_over(
        &bytes[slice.start..slice.start + slice.length],
        &mut out[at..end],
    );
    Ok(end) // behind the slice
}

// Writes a range of the bytes lent as a payload, with its number in front, at a place of a lent buffer. All that can be
// refused is looked at before the first byte is written.
pub fn write_varlen_slice(
    bytes: &[u8],
    slice: Range,
    out: &mut [u8],
    at: usize,
) -> Result<usize, Refusal>
    ensures { write_left result out.new ≡ write (payload_bytes bytes.now slice.start slice.length) out.old at }
{
    let start = slice.start;
    let n = slice.length;
    if !is_inside(bytes, slice) {
        return Err(Refusal::PayloadOutside);
    }
    if 0xFFF_FFFF < n {
        return Err(Refusal::PayloadTooLong);
    }
    let len = u28(n as u32);
    let end = end_of(out, at, len.varlen_length() + n)?;
    len.put(out, end - n);
    copy_over(&bytes[start..start + n], &mut out[end - n..end]);
    Ok(end)
}
