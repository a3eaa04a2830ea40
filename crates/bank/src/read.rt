// A block, read as a bank: where its tracks stand.
ghost use Rattle.std.specs.Prelude.{◌≡◌, ◌+◌, ◌^◌, ◌≤◌, ◌<◌, length};
ghost use Rattle.smf.specs.Answer.{unless, gives};
ghost use Rattle.bank.specs.Bank.{most_tracks, behind_entries};
ghost use Rattle.bank.specs.Read.{wide_from, entry_at, ranges, no_gap, read_bank, track_at};
ghost use Rattle.bank.specs.Answers.{bank_answer, bank_read, bank_track};

use crate::blank::no_tracks;
use crate::{Bank, ENTRY, HEADER, LARGEST, TRACKS};
use base::{Range, Refusal};

// The number of four bytes at a place, the highest first: `from_be_bytes`, with what it says in the terms of `smf` and with
// the bound, which each of its four callers needs.
fn wide_at(block: &[u8], at: usize) -> usize
    requires { at + 4 ≤ length block.now }
    ensures { (result ≡ wide_from block.now at) × (result < 2 ^ 32) }
{
    u32::from_be_bytes([block[at], block[at + 1], block[at + 2], block[at + 3]]) as usize
}

// The tracks of so many entries, which are there: each starts where the one before it ends, and the last ends where the block
// does. The count is the one that the block says, and not how much of the block counts.
fn read_tracks(block: &[u8], count: usize) -> Result<Bank, Refusal>
    requires count_le_most_tracks { count ≤ most_tracks }
    requires count_in_bounds { behind_entries count ≤ length block.now }
    ensures { bank_read result ≡ bank_answer most_tracks (unless (no_gap (behind_entries count) (ranges (entry_at block.now) 0 count) (length block.now)) 26 (gives (ranges (entry_at block.now) 0 count))) }
{
    let mut tracks = no_tracks();
    let mut place = HEADER + ENTRY * count;
    for index in 0..count {
        let entry = HEADER + ENTRY * index;
        if wide_at(block, entry) != place {
            return Err(Refusal::BankDisagrees); // a gap
        }
        let length = wide_at(block, entry + 4);
        tracks[index] = Range {
            start: place,
            length,
        };
        place += length;
    }
    if place != block.len() {
        return Err(Refusal::BankDisagrees); // the last end
    }
    Ok(Bank { tracks, count })
}

// The bank that a block is: where its tracks stand. Refuses 25 where the count is above the most, wherever its four
// bytes are there; 24 where the block is shorter than the header and its entries; 26 any other disagreement.
pub fn read_bank(block: &[u8]) -> Result<Bank, Refusal>
    ensures { bank_read result ≡ bank_answer most_tracks (read_bank most_tracks block.now) }
{
    let size = block.len();
    if size < 4 {
        return Err(Refusal::BankShort); // the count is not there
    }
    let count = wide_at(block, 0);
    if TRACKS < count {
        return Err(Refusal::TooManyTracks);
    }
    if size < HEADER + ENTRY * count {
        return Err(Refusal::BankShort); // an entry is not there
    }
    if LARGEST < size {
        return Err(Refusal::BankDisagrees); // the size
    }
    if wide_at(block, 4) != size {
        return Err(Refusal::BankDisagrees); // the total
    }
    read_tracks(block, count)
}

// Where the track of an index stands in the block of a bank.
pub fn bank_track(block: &[u8], index: usize) -> Result<Range, Refusal>
    ensures { bank_track result ≡ track_at most_tracks block.now index }
{
    let bank = read_bank(block)?;
    if bank.count <= index {
        return Err(Refusal::NoSuchTrack);
    }
    Ok(bank.tracks[index])
}
