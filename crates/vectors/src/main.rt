// SMF's printed examples, the documents' rules by example and stored answers of the Rust, run through the exported
// entries; restricted numbers and records, which are not exported, through their own functions.
// What it must write is in the file stdout beside src/: typed from the documents, with the counts that the lines of the
// file stdin have. How those lines are made, oracle/README.md says.
#![tactic(auto)]

mod bends;
mod cells;
mod examples;
mod fields;
mod floats;
mod input;
mod line;
mod lines;
mod reads;
mod records;
mod sheets;
mod text;
mod times;
mod widths;
mod writes;

use crate::cells::CELLS;
use crate::lines::INPUT;
use std::io;

// Runs the examples of the program's own text, then the stored answers of standard input.
fn main(rt: HostRuntime) -> io::Result<()> {
    let mut room = [0u8; INPUT];
    let mut cells = [0u64; CELLS];
    lines::all(&rt, examples::NUMBERS, &mut cells)?;
    lines::all(&rt, examples::TRACKS, &mut cells)?;
    lines::all(&rt, examples::WRONG, &mut cells)?;
    lines::all(&rt, examples::WORKED, &mut cells)?;
    let length = lines::read(&mut rt.stdin(), &mut room)?;
    lines::stored(&rt, &room, length, &mut cells)
}
