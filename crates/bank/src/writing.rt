// A bank, written of ranges of the bytes lent. All that can be refused is looked at before the first byte is written.
ghost use Rattle.std.specs.Prelude.{◌≡◌, true, ◌+◌, ◌≤◌, ◌<◌, leb, length};
ghost use mathlib.Core.List.{flatten};
ghost use Rattle.smf.specs.Answer.{unless, gives};
ghost use Rattle.smf.specs.Write.{over};
ghost use Rattle.bank.specs.Bank.{most_tracks, most_bytes, four_bytes, behind_entries, entries, bank_length};
ghost use Rattle.bank.specs.Write.{all_inside, tracks_of, write_bank};
ghost use Rattle.bank.specs.Answers.{spans_of, bank_wrote, bank_left};

use crate::inside::Inside;
use crate::{ENTRY, HEADER, LARGEST, TRACKS};
use base::{Range, Refusal};
use number::payload::{is_inside, write_slice};

// Whether ranges are inside the bytes lent.
fn are_inside(bytes: &[u8], ranges: &[Range]) -> bool
    ensures { result ≡ all_inside bytes.now (spans_of ranges.now) }
{
    ranges.iter().all(|range| is_inside(bytes, *range))
}

// Puts a number as four bytes, the highest first: `to_be_bytes`, with what it says in the terms of `smf`, for four callers.
fn put_wide(number: usize, out: &mut [u8], at: usize)
    requires { (number ≤ most_bytes) × (at + 4 ≤ length out.old) }
    ensures { out.new ≡ over (four_bytes number) out.old at }
{
    out[at..at + 4].copy_from_slice(&(number as u32).to_be_bytes());
}

impl<'a> Inside<'a> {
    // How many bytes the bank of ranges has: 20 above the most.
    fn total(self) -> Result<usize, Refusal>
        requires { length self.ranges.now ≤ most_tracks }
        ensures { bank_wrote result ≡ unless (leb (bank_length (tracks_of self.entry.bytes.now (spans_of self.entry.ranges.now))) most_bytes) 20 (gives (bank_length (tracks_of self.entry.bytes.now (spans_of self.entry.ranges.now)))) }
    {
        let ranges = self.ranges;
        let mut sum = HEADER + ENTRY * ranges.len();
        for range in ranges {
            if LARGEST - sum < range.length {
                return Err(Refusal::NoRoom); // above the most
            }
            sum += range.length;
        }
        Ok(sum)
    }

    // Puts the entries of tracks behind the count and the total.
    fn put_entries(self, out: &mut [u8])
        requires ranges_bound { bank_length (tracks_of self.bytes.now (spans_of self.ranges.now)) ≤ most_bytes }
        requires count_in_bounds { behind_entries (length self.ranges.now) ≤ length out.old }
        ensures { out.new ≡ over (entries (behind_entries (length self.entry.ranges.now)) (tracks_of self.entry.bytes.now (spans_of self.entry.ranges.now))) out.old 8 }
    {
        let ranges = self.ranges;
        let mut place = HEADER + ENTRY * ranges.len();
        for (index, range) in ranges.iter().enumerate() {
            let entry = HEADER + ENTRY * index;
            put_wide(place, out, entry);
            put_wide(range.length, out, entry + 4);
            place += range.length;
        }
    }

    // Puts tracks behind their entries, one behind the other.
    fn put_tracks(self, out: &mut [u8])
        requires ranges_in_bounds { bank_length (tracks_of self.bytes.now (spans_of self.ranges.now)) ≤ length out.old }
        requires ranges_bound { bank_length (tracks_of self.bytes.now (spans_of self.ranges.now)) ≤ most_bytes }
        ensures { out.new ≡ over (flatten (tracks_of self.entry.bytes.now (spans_of self.entry.ranges.now))) out.old (behind_entries (length self.entry.ranges.now)) }
    {
        let bytes = self.bytes;
        let ranges = self.ranges;
        let mut place = HEADER + ENTRY * ranges.len();
        for range in ranges {
            write_slice(bytes, *range, out, place).unwrap(); // it is inside the bytes, and there is room
            place += range.length;
        }
    }
}

// Writes the bank of so many ranges of the bytes lent from the first byte of a buffer on, and answers its total. Refuses
// 25 where they are above the most, 19 where one is not inside the bytes, then 20 where the bank would be above the
// most bytes, or above the room: then every byte is as it came. Ranges past the count are not looked at.
pub fn write_bank(
    bytes: &[u8],
    // fixed memory, and what may not change: what stands past the count is promised not to matter (`write_bank`)
    ranges: [Range; TRACKS],
    count: usize,
    out: &mut [u8],
) -> Result<usize, Refusal>
    ensures { bank_left result out.new ≡ write_bank most_tracks bytes.now (spans_of ranges) count out.old }
{
    if TRACKS < count {
        return Err(Refusal::TooManyTracks);
    }
    let tracks = &ranges[..count];
    if !are_inside(bytes, tracks) {
        return Err(Refusal::PayloadOutside);
    }
    let inside = Inside {
        bytes,
        ranges: tracks,
    };
    let size = inside.total()?;
    if out.len() < size {
        return Err(Refusal::NoRoom);
    }
    put_wide(count, out, 0);
    put_wide(size, out, 4);
    inside.put_entries(out);
    inside.put_tracks(out);
    Ok(size)
}
