// Lines, each of which is asked of the port. A line begins with a letter, with # where it is a remark, with - where it
// names the lines behind it, with , where it is words to write and with . where it ends them. The port's answer is
// compared with the line's, and written where the line has `=` and no number behind it.
use crate::cells::{CELLS, Given, LINE, narrow, numbers, part, same};
use crate::input::read_full;
use crate::line::Line;
use crate::{bends, fields, reads, records, sheets, text, times, widths, writes};
use std::io::Read;
use std::{fmt, io};

// The most bytes of standard input: 1 MiB.
pub const INPUT: usize = 0x10_0000;

// How many answers were compared, and how many of these differ.
#[derive(Clone, Copy)]
struct Count {
    compared: u64,
    differ: u64,
}

impl Count {
    // Nothing was compared yet.
    fn none() -> Count {
        Count {
            compared: 0,
            differ: 0,
        }
    }

    // With so many more.
    fn with(self, more: Count) -> Count {
        Count {
            compared: self.compared.wrapping_add(more.compared),
            differ: self.differ.wrapping_add(more.differ),
        }
    }
}

impl fmt::Display for Count {
    fn fmt<W: fmt::Write>(&self, f: &mut fmt::Formatter<W>) -> fmt::Result {
        let compared = self.compared;
        let differ = self.differ;
        write!(f, "{compared} compared, {differ} differ")
    }
}

// What was compared of a group of lines, and of those before it; the number of the line.
#[derive(Clone, Copy)]
pub struct Tally {
    group: Count,
    all: Count,
    line: u64,
}

impl Tally {
    // A question was answered: what it adds.
    fn add(&mut self, out: &impl Print, outcome: Outcome) -> io::Result<()> {
        let differ = match outcome {
            Outcome::Written => return Ok(()),
            Outcome::Same => 0,
            Outcome::Differs => 1,
        };
        self.group = self.group.with(Count {
            compared: 1,
            differ,
        });
        if 0 < differ {
            let line = self.line;
            print!(out; " line {line} differs,")?;
        }
        Ok(())
    }

    // A group that is over.
    fn end(&mut self, out: &impl Print) -> io::Result<()> {
        let group = self.group;
        if 0 < group.compared {
            println!(out; " {group}")?;
        }
        self.all = self.all.with(group);
        self.group = Count::none();
        Ok(())
    }
}

// What came of a question.
#[derive(Clone, Copy)]
enum Outcome {
    // its answer is written
    Written,
    // it is the line's
    Same,
    // it is not the line's
    Differs,
}

// What the port answers to a letter is put into the cells. How many numbers it has.
fn answered(given: Given, bytes: &[u8], cells: &mut [u64; CELLS]) -> usize {
    let letter = given.letter;
    match letter {
        b'n' => reads::number_read(given.n2, given.b1, bytes, cells),
        b'p' => reads::payload_read(given.n2, given.b1, bytes, cells),
        b'e' => reads::event_read(given.n3, given.b2, given.b1, bytes, cells),
        b'l' => reads::list_read(given.n3, given.b2, given.b1, bytes, cells),
        b'a' => reads::events_same(given.n1, bytes, cells),
        b'f' => fields::format_read(bytes, cells),
        b't' => fields::timing_read(bytes, cells),
        b'g' | b'u' => fields::written(given, cells),
        b'r' => times::rate(given.b1, cells),
        b's' => times::time_read(given, cells),
        b'z' => times::time(given, cells),
        _ => besides(given, bytes, cells),
    }
}

// What the other letters ask: numbers alone, lists, and records.
fn besides(given: Given, bytes: &[u8], cells: &mut [u64; CELLS]) -> usize {
    let letter = given.letter;
    match letter {
        b'c' => sheets::read(given, bytes, cells),
        b'q' => sheets::same(given, bytes, cells),
        b'v' => records::step(given, bytes, cells),
        b'k' => records::record(given, bytes, cells),
        b'w' => widths::one(given, cells),
        b'd' => widths::many(given, cells),
        b'x' => times::frames(given, cells),
        b'y' => times::seconds(given, cells),
        b'm' => bends::ends(cells),
        b'i' => bends::as_int(cells),
        b'h' => bends::as_floats(cells),
        b'b' => bends::made(cells),
        _ => writes::answer(given, bytes, cells),
    }
}

// Asks a line's question.
fn question(rt: &impl Print, text: &[u8], cells: &mut [u64; CELLS]) -> io::Result<Outcome> {
    let line = Line::read(text, cells);
    let mut low = [0u8; LINE];
    let bytes = narrow(part(cells, line.bytes, line.answer), &mut low);
    let given = numbers(cells, line.bytes);
    let count = answered(given, bytes, cells);
    if line.answer == line.last {
        text::answer(rt, given.letter, cells)?;
        return Ok(Outcome::Written);
    }
    if same(cells, line.answer, line.last, count) {
        Ok(Outcome::Same)
    } else {
        Ok(Outcome::Differs)
    }
}

// A line, and what was compared then. A name ends the group before it, and so do words.
fn taken(
    rt: &impl Print,
    text: &[u8],
    cells: &mut [u64; CELLS],
    tally: &mut Tally,
) -> io::Result<()> {
    tally.line = tally.line.wrapping_add(1);
    let Some((first, rest)) = text.split_first() else {
        return Ok(());
    };
    match *first {
        b'#' => Ok(()),
        b'.' => rt.write_all(b"\n"),
        b',' => {
            tally.end(rt)?;
            rt.write_all(rest)
        }
        b'-' => {
            tally.end(rt)?;
            rt.write_all(text)?;
            rt.write_all(b":")
        }
        _ => {
            let outcome = question(rt, text, cells)?;
            tally.add(rt, outcome)
        }
    }
}

// All lines of a text, and what was compared. What stands behind the end of the last line is none.
pub fn all(rt: &impl Print, text: &[u8], cells: &mut [u64; CELLS]) -> io::Result<Tally> {
    let mut tally = Tally {
        group: Count::none(),
        all: Count::none(),
        line: 0,
    };
    for piece in text.split_inclusive(|byte| *byte == b'\n') {
        if let Some(line) = piece.strip_suffix(b"\n") {
            taken(rt, line, cells, &mut tally)?;
        }
    }
    tally.end(rt)?;
    Ok(tally)
}

// Reads standard input: how many bytes it has.
pub fn read(input: &mut impl Read, room: &mut [u8; INPUT]) -> io::Result<usize> {
    read_full(input, room)
}

// The lines of so many bytes of standard input.
pub fn stored(
    rt: &impl Print,
    room: &[u8; INPUT],
    length: usize,
    cells: &mut [u64; CELLS],
) -> io::Result<()> {
    let text: &[u8] = room;
    let Some(text) = text.get(..length) else {
        return Ok(()); // more than the room holds, which is never read
    };
    let tally = all(rt, text, cells)?;
    let count = tally.all;
    println!(rt; "in all: {count}")
}
