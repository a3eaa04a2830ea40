// What is asked of a header's fields, as in reads.rt.
use crate::cells::{CELLS, Given, put};
use loader::fields::{apk_format_encode, apk_format_read, apk_timing_encode, apk_timing_read};

// Asks for the format that bytes begin with.
pub fn format_read(bytes: &[u8], cells: &mut [u64; CELLS]) -> usize {
    let mut format: u8 = 0xA5;
    let answer = apk_format_read(bytes, &mut format);
    put(cells, 0, &[u64::from(answer), u64::from(format), 0, 0]);
    2
}

// Asks for the timing that bytes begin with.
pub fn timing_read(bytes: &[u8], cells: &mut [u64; CELLS]) -> usize {
    let mut ticks: u16 = 0xA5;
    let mut rate: u8 = 0xA5;
    let mut subframe: u8 = 0xA5;
    let answer = apk_timing_read(bytes, &mut ticks, &mut rate, &mut subframe);
    put(
        cells,
        0,
        &[
            u64::from(answer),
            u64::from(ticks),
            u64::from(rate),
            u64::from(subframe),
        ],
    );
    4
}

// A format; or ticks, rate, subframe.
pub fn written(given: Given, cells: &mut [u64; CELLS]) -> usize {
    let mut two = [0xA5u8; 2];
    let answer = if given.letter == b'g' {
        apk_format_encode(given.b1, &mut two)
    } else {
        apk_timing_encode((given.n1 % 0x1_0000) as u16, given.b2, given.b3, &mut two)
    };
    put(
        cells,
        0,
        &[u64::from(answer), u64::from(two[0]), u64::from(two[1]), 0],
    );
    3
}
