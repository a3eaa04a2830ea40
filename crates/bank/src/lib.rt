// A bank of programs: several tracks in one block, read, listed and written. Document 02, Q-3.
#![tactic(auto)]

mod blank;
pub mod entries;
mod inside;
pub mod list;
pub mod read;
pub mod writing;

use base::{Range, Refusal};

// How many tracks a bank may have: the one place in the code that says so.
pub const TRACKS: usize = 16;

// How many bytes a bank may have.
pub const LARGEST: usize = 0x1_0000;

// How many bytes stand before the first entry: the count and the total.
const HEADER: usize = 8;

// How many bytes an entry has: an offset and a length.
const ENTRY: usize = 8;

// A bank that was read.
#[derive(Clone, Copy)]
pub struct Bank {
    // where each track stands in the block; past the count start 0 and length 0, in fixed memory, with no heap
    pub tracks: [Range; TRACKS],
    // how many tracks there are
    pub count: usize,
}
