// The cells of a line's numbers and, behind them, of the numbers that the port answers. One array holds all lines in turn,
// and no vector each: a line that gives fewer numbers than its letter asks for is asked with those that the lines before it
// left, and the stored answers rest on that. What a line gives, its bytes and the cells go in side by side: a struct of them
// would hold the cells as a `&mut` that is lent anew at each call, and is no plainer.
use rows::WIDTH;

// The most cells of a line.
pub const LINE: usize = 2048;

// The first number of an answer.
pub const ANSWER: usize = 2048;

pub const CELLS: usize = 4096;

// The rules of a call that a line gives none for: no bit is set, and none would be looked at.
pub const NO_RULES: u8 = 0;

// What a line gives: its letter, its first numbers as bytes and as places, and the cell of the last. Fields stand for them and
// no array: an entry takes bytes and places by turns, and `b2` says which.
#[derive(Clone, Copy)]
pub struct Given {
    pub letter: u8,
    pub b1: u8,
    pub b2: u8,
    pub b3: u8,
    pub b4: u8,
    pub b5: u8,
    pub b6: u8,
    pub n1: usize,
    pub n2: usize,
    pub n3: usize,
    pub n4: usize,
    pub last: usize,
}

// What a line gives, taken out of the cells by the widths that entries ask for.
pub fn numbers(cells: &[u64; CELLS], last: usize) -> Given {
    Given {
        letter: byte(cells[0]),
        b1: byte(cells[1]),
        b2: byte(cells[2]),
        b3: byte(cells[3]),
        b4: byte(cells[4]),
        b5: byte(cells[5]),
        b6: byte(cells[6]),
        n1: cells[1] as usize,
        n2: cells[2] as usize,
        n3: cells[3] as usize,
        n4: cells[4] as usize,
        last,
    }
}

// A number's low byte.
pub fn byte(n: u64) -> u8 {
    (n % 256) as u8
}

// The numbers behind a cell, up to the last; none where they are not all there.
pub fn part(cells: &[u64; CELLS], before: usize, last: usize) -> &[u64] {
    let all: &[u64] = cells;
    all.get(before.saturating_add(1)..last.saturating_add(1))
        .unwrap_or(&[])
}

// Numbers as bytes, in room that is lent and holds those of a line: no line asks for memory, which there might not be.
pub fn narrow<'a>(numbers: &[u64], low: &'a mut [u8; LINE]) -> &'a [u8] {
    for (byte, number) in low.iter_mut().zip(numbers) {
        *byte = crate::cells::byte(*number);
    }
    &low[..numbers.len().min(LINE)]
}

// As many numbers as there is room for, copied to a place.
fn copy(from: &[u64], to: &mut [u64], at: usize) {
    for (cell, number) in to.iter_mut().skip(at).zip(from) {
        *cell = *number;
    }
}

// The first numbers, as a row.
pub fn row(numbers: &[u64]) -> [u64; WIDTH] {
    let mut row = [0u64; WIDTH];
    copy(numbers, &mut row, 0);
    row
}

// Numbers of an answer, with so many before them.
pub fn put(cells: &mut [u64; CELLS], before: usize, numbers: &[u64]) {
    copy(numbers, &mut cells[ANSWER..], before);
}

// Bytes as numbers of an answer, with so many before them. How many numbers there are then.
pub fn put_bytes(bytes: &[u8], cells: &mut [u64; CELLS], before: usize) -> usize {
    for (cell, byte) in cells[ANSWER..].iter_mut().skip(before).zip(bytes) {
        *cell = u64::from(*byte);
    }
    before.saturating_add(bytes.len()).min(CELLS - ANSWER)
}

// Whether the numbers behind a cell, up to the last, are the answer, which has so many.
pub fn same(cells: &[u64; CELLS], before: usize, last: usize, count: usize) -> bool {
    let wanted = part(cells, before, last);
    match cells[ANSWER..].get(..count) {
        Some(answer) => answer == wanted,
        None => false,
    }
}
