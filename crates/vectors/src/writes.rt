// What is asked of writers, as in reads.rt: into a lent buffer of so many bytes as the first number says, each A5, all
// of which are answered behind the numbers.
use crate::cells::{ANSWER, CELLS, Given, NO_RULES, part, put, put_bytes, row};
use crate::reads::list_read;
use loader::numbers::{apk_number_length, apk_number_write, apk_payload_write};
use loader_track::events::{apk_event_length, apk_event_write};
use loader_track::list_write::{apk_list_length, apk_list_write};
use rows::WIDTH;

// The most bytes that are written.
const ROOM: usize = 1024;

// Room, place, value.
fn number_written(value: u32, at: usize, out: &mut [u8], cells: &mut [u64; CELLS]) -> usize {
    let mut next: usize = 0xA5;
    let answer = apk_number_write(value, out, at, &mut next);
    put(
        cells,
        0,
        &[
            u64::from(answer),
            next as u64,
            apk_number_length(value) as u64,
            0,
        ],
    );
    3
}

// Room, place, start, length.
fn payload_written(given: Given, bytes: &[u8], out: &mut [u8], cells: &mut [u64; CELLS]) -> usize {
    let mut next: usize = 0xA5;
    let answer = apk_payload_write(bytes, given.n3, given.n4, out, given.n2, &mut next);
    put(cells, 0, &[u64::from(answer), next as u64, 0, 0]);
    2
}

// Asks how long a row's event is.
fn event_measured(event: &[u64; WIDTH], running: u8, bytes: &[u8], cells: &mut [u64; CELLS]) {
    let mut length: usize = 0xA5;
    let mut after: u8 = 0xA5;
    let answer = apk_event_length(event, bytes, running, NO_RULES, &mut length, &mut after);
    put(
        cells,
        0,
        &[u64::from(answer), length as u64, u64::from(after), 0],
    );
}

// Room, place, running status, row.
fn event_written(given: Given, bytes: &[u8], out: &mut [u8], cells: &mut [u64; CELLS]) -> usize {
    let event = row(part(cells, 3, 3 + WIDTH));
    let mut next: usize = 0xA5;
    let mut after: u8 = 0xA5;
    event_measured(&event, given.b3, bytes, cells);
    let answer = apk_event_write(
        &event, bytes, given.b3, NO_RULES, out, given.n2, &mut next, &mut after,
    );
    put(
        cells,
        3,
        &[u64::from(answer), next as u64, u64::from(after), 0],
    );
    6
}

// Asks how long a list of rows is.
fn list_measured(last: usize, count: usize, running: u8, bytes: &[u8], cells: &mut [u64; CELLS]) {
    let rows = part(cells, 3, last);
    let mut length: usize = 0xA5;
    let mut after: u8 = 0xA5;
    let mut index: usize = 0xA5;
    let answer = apk_list_length(
        rows,
        count,
        bytes,
        running,
        NO_RULES,
        &mut length,
        &mut after,
        &mut index,
    );
    put(
        cells,
        0,
        &[
            u64::from(answer),
            length as u64,
            u64::from(after),
            index as u64,
        ],
    );
}

// The bytes of a list of so many rows, which stand behind a cell, up to the last.
fn list_written(
    before: usize,
    last: usize,
    count: usize,
    running: u8,
    rules: u8,
    bytes: &[u8],
    out: &mut [u8],
    cells: &mut [u64; CELLS],
) -> usize {
    let rows = part(cells, before, last);
    let mut length: usize = 0xA5;
    let mut after: u8 = 0xA5;
    let mut index: usize = 0xA5;
    let answer = apk_list_write(
        rows,
        count,
        bytes,
        running,
        rules,
        out,
        &mut length,
        &mut after,
        &mut index,
    );
    put(
        cells,
        4,
        &[
            u64::from(answer),
            length as u64,
            u64::from(after),
            index as u64,
        ],
    );
    8
}

// Room, running status, count, cells.
fn list(given: Given, bytes: &[u8], out: &mut [u8], cells: &mut [u64; CELLS]) -> usize {
    list_measured(given.last, given.n3, given.b2, bytes, cells);
    list_written(
        3, given.last, given.n3, given.b2, NO_RULES, bytes, out, cells,
    )
}

// Room, rules: a list is read from no running status, and written back. Its rows stand behind five numbers, of which
// the last, the padding, is not kept.
fn list_back(rules: u8, bytes: &[u8], out: &mut [u8], cells: &mut [u64; CELLS]) -> usize {
    list_read(0, 0, rules, bytes, cells);
    let count = cells[ANSWER + 1] as usize;
    list_written(ANSWER + 4, CELLS - 1, count, 0, rules, bytes, out, cells)
}

// What a letter asks.
fn written(given: Given, bytes: &[u8], out: &mut [u8], cells: &mut [u64; CELLS]) -> usize {
    let letter = given.letter;
    match letter {
        b'N' => number_written((given.n3 % 0x1_0000_0000) as u32, given.n2, out, cells),
        b'P' => payload_written(given, bytes, out, cells),
        b'E' => event_written(given, bytes, out, cells),
        b'L' => list(given, bytes, out, cells),
        _ => list_back(given.b2, bytes, out, cells),
    }
}

// Asks for what a line wants written, into a buffer of the room that it names. The buffer as it is at the end stands behind
// the answers.
pub fn answer(given: Given, bytes: &[u8], cells: &mut [u64; CELLS]) -> usize {
    let mut out = [0xA5u8; ROOM];
    let room = given.n1;
    if ROOM < room {
        return 0;
    }
    let count = written(given, bytes, &mut out[..room], cells);
    put_bytes(&out[..room], cells, count)
}
