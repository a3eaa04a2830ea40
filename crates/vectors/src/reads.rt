// What is asked of the readers of numbers, payloads, events and lists. Each puts the numbers that the port answers into
// the cells, and says how many they are. Values that the port is to set hold A5 before, and still do where it refuses.
use crate::cells::{CELLS, part, put, row};
use loader::numbers::{apk_number_read, apk_payload_read};
use loader_track::events::apk_event_read;
use loader_track::list_read::apk_list_read;
use loader_track::sameness::apk_event_same;
use rows::WIDTH;
use track::list::CAPACITY;

// Rules, place.
pub fn number_read(at: usize, rules: u8, bytes: &[u8], cells: &mut [u64; CELLS]) -> usize {
    let mut value: u32 = 0xA5;
    let mut next: usize = 0xA5;
    let mut padding: usize = 0xA5;
    let answer = apk_number_read(bytes, at, rules, &mut value, &mut next, &mut padding);
    put(
        cells,
        0,
        &[
            u64::from(answer),
            u64::from(value),
            next as u64,
            padding as u64,
        ],
    );
    4
}

// Rules, place.
pub fn payload_read(at: usize, rules: u8, bytes: &[u8], cells: &mut [u64; CELLS]) -> usize {
    let mut start: usize = 0xA5;
    let mut length: usize = 0xA5;
    let mut padding: usize = 0xA5;
    let answer = apk_payload_read(bytes, at, rules, &mut start, &mut length, &mut padding);
    put(
        cells,
        0,
        &[
            u64::from(answer),
            start as u64,
            length as u64,
            padding as u64,
        ],
    );
    4
}

// A row behind four numbers, where it is accepted. How many numbers there are then.
fn put_row(answer: u8, row: &[u64; WIDTH], cells: &mut [u64; CELLS]) -> usize {
    if 0 < answer {
        return 4;
    }
    put(cells, 4, row);
    WIDTH + 4
}

// Rules, running status, place.
pub fn event_read(
    at: usize,
    running: u8,
    rules: u8,
    bytes: &[u8],
    cells: &mut [u64; CELLS],
) -> usize {
    let mut row = [0xA5u64; WIDTH];
    let mut used: usize = 0xA5;
    let mut after: u8 = 0xA5;
    let mut padding: usize = 0xA5;
    let answer = apk_event_read(
        bytes,
        at,
        running,
        rules,
        &mut row,
        &mut used,
        &mut after,
        &mut padding,
    );
    put(
        cells,
        0,
        &[
            u64::from(answer),
            used as u64,
            u64::from(after),
            padding as u64,
        ],
    );
    put_row(answer, &row, cells)
}

// How many numbers the rows of a list are, with five before them; 5 above the most rows.
fn behind(count: usize) -> usize {
    if CAPACITY < count {
        return 5;
    }
    count * WIDTH + 5
}

// Rules, running status, place.
pub fn list_read(
    at: usize,
    running: u8,
    rules: u8,
    bytes: &[u8],
    cells: &mut [u64; CELLS],
) -> usize {
    let mut count: usize = 0xA5;
    let mut end: usize = 0xA5;
    let mut after: u8 = 0xA5;
    let mut padding: usize = 0xA5;
    let mut rows = [0xA5u64; CAPACITY * WIDTH];
    let answer = apk_list_read(
        bytes,
        at,
        running,
        rules,
        &mut rows,
        &mut count,
        &mut end,
        &mut after,
        &mut padding,
    );
    put(
        cells,
        0,
        &[
            u64::from(answer),
            count as u64,
            end as u64,
            u64::from(after),
        ],
    );
    put(cells, 4, &[padding as u64]);
    put(cells, 5, &rows);
    behind(count)
}

// Whether the events of two rows are the same. No other place asks for sameness.
fn same_rows(cells: &[u64; CELLS], first: &[u8], second: &[u8], same: &mut u8) -> u8 {
    let a = row(part(cells, 1, 1 + WIDTH));
    let b = row(part(cells, 1 + WIDTH, 1 + 2 * WIDTH));
    apk_event_same(&a, first, &b, second, same)
}

// How many bytes are the first event's; two rows.
pub fn events_same(middle: usize, bytes: &[u8], cells: &mut [u64; CELLS]) -> usize {
    let mut same: u8 = 0xA5;
    let Some((first, second)) = bytes.split_at_checked(middle) else {
        return 0;
    };
    let answer = same_rows(cells, first, second, &mut same);
    put(cells, 0, &[u64::from(answer), u64::from(same), 0, 0]);
    2
}
