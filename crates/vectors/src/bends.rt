// What is asked of bends. A float or a signed number that the port is to find stands in the line, and the answer says
// whether it is found: 1 yes, 0 no. Before a call such a value is 1, which a line may name after a refusal.
use crate::cells::{CELLS, put};
use crate::floats::{double, low16, low32, single};
use loader::bends::{
    apk_bend_as_f32, apk_bend_as_f64, apk_bend_as_int, apk_bend_from_f32, apk_bend_from_f64,
    apk_bend_from_int, apk_bend_max_raw_value, apk_bend_mid_raw_value, apk_bend_min_raw_value,
};

// The raw bends of the lowest, of none and of the highest.
pub fn ends(cells: &mut [u64; CELLS]) -> usize {
    let lowest = u64::from(apk_bend_min_raw_value());
    let middle = u64::from(apk_bend_mid_raw_value());
    let highest = u64::from(apk_bend_max_raw_value());
    put(cells, 0, &[lowest, middle, highest, 0]);
    3
}

// A raw bend, a signed number.
pub fn as_int(cells: &mut [u64; CELLS]) -> usize {
    let mut int: i16 = 1;
    let answer = apk_bend_as_int(low16(cells[1]), &mut int);
    let found = u64::from(int == low16(cells[2]).cast_signed());
    put(cells, 0, &[u64::from(answer), found, 0, 0]);
    2
}

// A raw bend, the bits of an `f32` and of an `f64`.
pub fn as_floats(cells: &mut [u64; CELLS]) -> usize {
    let raw = low16(cells[1]);
    let mut narrow: f32 = 1.0;
    let mut wide: f64 = 1.0;
    let first = apk_bend_as_f32(raw, &mut narrow);
    let second = apk_bend_as_f64(raw, &mut wide);
    let is_narrow = u64::from(narrow == single(low32(cells[2])));
    let is_wide = u64::from(wide == double(cells[3]));
    put(
        cells,
        0,
        &[u64::from(first), is_narrow, u64::from(second), is_wide],
    );
    4
}

// A signed number, the bits of an `f32` and of an `f64`: the raw bend of each.
pub fn made(cells: &mut [u64; CELLS]) -> usize {
    let int = apk_bend_from_int(low16(cells[1]).cast_signed());
    let narrow = apk_bend_from_f32(single(low32(cells[2])));
    let wide = apk_bend_from_f64(double(cells[3]));
    put(
        cells,
        0,
        &[u64::from(int), u64::from(narrow), u64::from(wide), 0],
    );
    3
}
