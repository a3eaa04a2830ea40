// A line of stored answers: a letter for what is asked, the numbers given, `:` and the bytes given, `=` and the numbers
// answered. Numbers and bytes are hexadecimal, each behind a blank.
use crate::cells::{CELLS, LINE};

// A line in cells, the letter in the first and then a number in each: the last cell, and those before the bytes and
// before the answer. A part whose sign is missing begins behind all cells that a line may have.
#[derive(Clone, Copy)]
pub struct Line {
    pub last: usize,
    pub bytes: usize,
    pub answer: usize,
}

// A number with one digit more. What is no digit spoils it: `char::to_digit` takes small letters too.
fn longer(number: u64, digit: u8) -> u64 {
    let tens = number << 4;
    match digit {
        b'0'..=b'9' => tens | u64::from(digit - b'0'),
        b'A'..=b'F' => tens | u64::from(digit - b'A' + 10),
        _ => u64::MAX,
    }
}

impl Line {
    // One byte more of a line: a number's beginning, a sign, or the number's next digit. What comes behind the most cells
    // is left out.
    fn step(&mut self, byte: u8, cells: &mut [u64; CELLS]) {
        let last = self.last;
        if LINE - 2 <= last {
            return;
        }
        match byte {
            b' ' => {
                self.last = last + 1;
                cells[last + 1] = 0;
            }
            b':' => self.bytes = last,
            b'=' => self.answer = last,
            _ => cells[last] = longer(cells[last], byte),
        }
    }

    // A line put into cells.
    pub fn read(text: &[u8], cells: &mut [u64; CELLS]) -> Line {
        let mut line = Line {
            last: 0,
            bytes: LINE,
            answer: LINE,
        };
        if let Some((letter, rest)) = text.split_first() {
            cells[0] = u64::from(*letter);
            for byte in rest {
                line.step(*byte, cells);
            }
        }
        line
    }
}
