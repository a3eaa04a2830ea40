// What is asked of frame rates and SMPTE times, as in reads.rt.
use crate::cells::{ANSWER, CELLS, Given, NO_RULES, put, put_bytes};
use crate::floats::{low32, single};
use loader::smpte::{
    apk_fps_as_code, apk_fps_as_f32, apk_fps_from_code, apk_fps_from_int, apk_smpte_encode,
    apk_smpte_new, apk_smpte_position, apk_smpte_read, apk_smpte_second_f32,
};

// A byte as a code and as a rate.
pub fn rate(given: u8, cells: &mut [u64; CELLS]) -> usize {
    let mut code: u8 = 0xA5;
    let mut rate: u8 = 0xA5;
    let from = apk_fps_from_code(given);
    let coded = apk_fps_as_code(given, &mut code);
    let rated = apk_fps_from_int(given, &mut rate);
    put_bytes(&[from, coded, code, rated, rate], cells, 0)
}

// Five bytes.
pub fn time_read(t: Given, cells: &mut [u64; CELLS]) -> usize {
    let mut six = [0xA5u8; 6];
    cells[ANSWER] = u64::from(apk_smpte_read(t.b1, t.b2, t.b3, t.b4, t.b5, NO_RULES, &mut six));
    put_bytes(&six, cells, 1) // behind the answer
}

// Hour, minute, second, frame, subframe, rate: whether they are a time, its position, its bytes.
pub fn time(t: Given, cells: &mut [u64; CELLS]) -> usize {
    let mut position: u32 = 0xA5;
    let mut five = [0xA5u8; 5];
    let made = apk_smpte_new(t.b1, t.b2, t.b3, t.b4, t.b5, t.b6, NO_RULES);
    let placed = apk_smpte_position(t.b1, t.b2, t.b3, t.b4, t.b5, t.b6, NO_RULES, &mut position);
    let written = apk_smpte_encode(t.b1, t.b2, t.b3, t.b4, t.b5, t.b6, NO_RULES, &mut five);
    put(
        cells,
        0,
        &[
            u64::from(made),
            u64::from(placed),
            u64::from(position),
            u64::from(written),
        ],
    );
    put_bytes(&five, cells, 4) // behind the answers
}

// A rate, and the bits of its frames in a second: whether it is they, as in bends.rt.
pub fn frames(given: Given, cells: &mut [u64; CELLS]) -> usize {
    let mut frames: f32 = 1.0;
    let answer = apk_fps_as_f32(given.b1, &mut frames);
    let found = u64::from(frames == single(low32(cells[2])));
    put(cells, 0, &[u64::from(answer), found, 0, 0]);
    2
}

// Hour, minute, second, frame, subframe, rate, and the bits of its seconds: likewise.
pub fn seconds(t: Given, cells: &mut [u64; CELLS]) -> usize {
    let mut seconds: f32 = 1.0;
    let answer = apk_smpte_second_f32(t.b1, t.b2, t.b3, t.b4, t.b5, t.b6, NO_RULES, &mut seconds);
    let found = u64::from(seconds == single(low32(cells[7])));
    put(cells, 0, &[u64::from(answer), found, 0, 0]);
    2
}
