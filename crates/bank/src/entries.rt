// The entries for banks, which C and Rust link: a block is bytes, and ranges go over as cells, the start and the length
// of each. The C interface has the cells with a count beside them, and what is found in values lent by `&mut`.
ghost use Rattle.std.specs.Prelude.{◌≡◌, List, ℕ, length};
ghost use Rattle.smf.specs.Place.{Span};
ghost use Rattle.smf.specs.Lists.{ListAt};
ghost use Rattle.loader.specs.Entry.{from_bits, answered, leaves};
ghost use Rattle.track.specs.List.{capacity};
ghost use Rattle.bank.specs.Bank.{most_tracks};
ghost use Rattle.bank.specs.Read.{read_bank, track_at, track_listed};
ghost use Rattle.bank.specs.Write.{write_bank};
ghost use Rattle.bank.specs.Answers.{spans_of, held_tracks};
ghost use Rattle.bank.specs.Entries.{cells_of, ranges_in, stop_answered, list_cells, list_leaves};

use crate::blank::no_tracks;
use crate::read::{bank_track, read_bank};
use crate::writing::write_bank;
use crate::{Bank, TRACKS};
use base::Range;
use loader::told;
use loader_track::list_read::apk_list_read;

// How many cells the ranges of a bank's tracks take.
pub const CELLS: usize = 2 * TRACKS;

// The cells of a bank's ranges.
fn cells_of(bank: Bank) -> [u64; CELLS]
    ensures { result ≡ cells_of (spans_of bank.tracks) }
{
    let mut cells = [0u64; CELLS];
    for (index, range) in bank.tracks.iter().enumerate() {
        cells[2 * index] = range.start as u64;
        cells[2 * index + 1] = range.length as u64;
    }
    cells
}

// The ranges that cells are.
fn ranges_in(cells: [u64; CELLS]) -> [Range; TRACKS]
    ensures { spans_of result ≡ ranges_in most_tracks cells }
{
    let mut ranges = no_tracks();
    for (index, range) in ranges.iter_mut().enumerate() {
        let start = cells[2 * index] as usize;
        let length = cells[2 * index + 1] as usize;
        *range = Range { start, length };
    }
    ranges
}

// The bank that a block is: where each of its tracks stands, and how many they are. Past the count the cells are 0.
#[unsafe(no_mangle)]
pub extern "C" fn apk_bank_read(block: &[u8], ranges: &mut [u64; CELLS], count: &mut usize) -> u8
    ensures answer { result ≡ answered (read_bank most_tracks block.now) }
    ensures ranges { ranges.new ≡ leaves (λ (tracks : List Span). cells_of (held_tracks most_tracks tracks).tracks) (read_bank most_tracks block.now) ranges.old }
    ensures count { count.new ≡ leaves (λ (tracks : List Span). length tracks) (read_bank most_tracks block.now) count.old }
{
    let found = read_bank(block);
    told(found.map(cells_of), ranges);
    told(found.map(|bank| bank.count), count)
}

// Where the track of an index stands in the block of a bank.
#[unsafe(no_mangle)]
pub extern "C" fn apk_bank_track(
    block: &[u8],
    index: usize,
    start: &mut usize,
    length: &mut usize,
) -> u8
    ensures answer { result ≡ answered (track_at most_tracks block.now index) }
    ensures start { start.new ≡ leaves (λ (track : Span). track.start) (track_at most_tracks block.now index) start.old }
    ensures length { length.new ≡ leaves (λ (track : Span). track.length) (track_at most_tracks block.now index) length.old }
{
    let found = bank_track(block, index);
    told(found.map(|range| range.start), start);
    told(found.map(|range| range.length), length)
}

// The track of an index, listed as `apk_list_read` lists its bytes by themselves, from the first on and from no running
// status: starts and places count from the track's first byte. The bank's refusals and 34 come first, and leave
// everything as it came.
#[unsafe(no_mangle)]
pub extern "C" fn apk_bank_list(
    block: &[u8],
    index: usize,
    bits: u8,
    rows: &mut [u64],
    count: &mut usize,
    place: &mut usize,
    after: &mut u8,
    padding: &mut usize,
) -> u8
    ensures answer { result ≡ stop_answered (track_listed (from_bits bits) capacity most_tracks block.now index) rows.old }
    ensures rows { rows.new ≡ list_cells (track_listed (from_bits bits) capacity most_tracks block.now index) rows.old }
    ensures count { count.new ≡ list_leaves (λ (l : ListAt). length l.events) (track_listed (from_bits bits) capacity most_tracks block.now index) rows.old count.old }
    ensures place { place.new ≡ list_leaves (λ (l : ListAt). l.place) (track_listed (from_bits bits) capacity most_tracks block.now index) rows.old place.old }
    ensures after { after.new ≡ list_leaves (λ (l : ListAt). l.running) (track_listed (from_bits bits) capacity most_tracks block.now index) rows.old after.old }
    ensures padding { padding.new ≡ list_leaves (λ (l : ListAt). l.padding) (track_listed (from_bits bits) capacity most_tracks block.now index) rows.old padding.old }
{
    match bank_track(block, index) {
        Err(refusal) => u8::from(refusal), // the C interface: what the reader of lists answers goes on as it is
        Ok(range) => {
            // cut as in `list_track`
            let track = &block[range.start..range.start + range.length];
            apk_list_read(track, 0, 0, bits, rows, count, place, after, padding)
        }
    }
}

// Writes the bank of so many ranges of the bytes lent, from the first byte of a lent buffer on, and hands out its total.
// What the cells past the count hold does not matter. A refusal leaves every byte and the total as they came.
#[unsafe(no_mangle)]
pub extern "C" fn apk_bank_write(
    bytes: &[u8],
    ranges: &[u64; CELLS],
    count: usize,
    out: &mut [u8],
    total: &mut usize,
) -> u8
    ensures answer { result ≡ answered (write_bank most_tracks bytes.now (ranges_in most_tracks ranges.now) count out.old).answer }
    ensures buffer { out.new ≡ (write_bank most_tracks bytes.now (ranges_in most_tracks ranges.now) count out.old).buffer }
    ensures total { total.new ≡ leaves (λ (n : ℕ). n) (write_bank most_tracks bytes.now (ranges_in most_tracks ranges.now) count out.old).answer total.old }
{
    told(write_bank(bytes, ranges_in(*ranges), count, out), total)
}
