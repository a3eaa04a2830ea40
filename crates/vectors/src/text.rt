// What is answered to a question, in words on standard output.
use crate::cells::{ANSWER, CELLS};
use std::io;

// So many bytes of an answer, each behind a blank, with some numbers before them.
fn show(out: &impl Print, cells: &[u64; CELLS], before: usize, n: u64) -> io::Result<()> {
    for byte in cells[ANSWER..].iter().skip(before).take(n as usize) {
        print!(out; " {byte:02x}")?;
    }
    Ok(())
}

// A list that was read and written back.
fn back(out: &impl Print, cells: &[u64; CELLS]) -> io::Result<()> {
    let count = cells[ANSWER + 1];
    let end = cells[ANSWER + 2];
    print!(out; " {count} events, end at {end},")?;
    let refusal = cells[ANSWER + 4];
    if 0 < refusal {
        return print!(out; " refused {refusal}");
    }
    print!(out; " written")?;
    show(out, cells, 8, cells[ANSWER + 5])
}

// What is answered to a letter.
pub fn answer(out: &impl Print, letter: u8, cells: &[u64; CELLS]) -> io::Result<()> {
    let refusal = cells[ANSWER];
    let first = cells[ANSWER + 1];
    let second = cells[ANSWER + 2];
    let third = cells[ANSWER + 3];
    if 0 < refusal {
        return print!(out; " refused {refusal}");
    }
    match letter {
        b'n' => print!(out; " = {first:08x} to {second}"),
        b'N' => show(out, cells, 3, first),
        b't' => print!(out; " rate {second}, {third}"),
        b'B' => back(out, cells),
        _ => print!(out; " read"),
    }
}
