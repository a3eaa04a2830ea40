// What is asked of lists in lent cells, as in reads.rt.
use crate::cells::{CELLS, Given, part, put};
use loader_track::list_read::apk_list_read;
use loader_track::sameness::apk_list_same;

// The most cells that are lent.
const LENT: usize = 64;

// Rules, running status, place, how many cells are lent, each A5: all of them are answered.
pub fn read(given: Given, bytes: &[u8], cells: &mut [u64; CELLS]) -> usize {
    let n = given.n4;
    let mut lent = [0xA5u64; LENT];
    let mut count: usize = 0xA5;
    let mut end: usize = 0xA5;
    let mut after: u8 = 0xA5;
    let mut padding: usize = 0xA5;
    if LENT < n {
        return 0;
    }
    let answer = apk_list_read(
        bytes,
        given.n3,
        given.b2,
        given.b1,
        &mut lent[..n],
        &mut count,
        &mut end,
        &mut after,
        &mut padding,
    );
    put(
        cells,
        0,
        &[
            u64::from(answer),
            count as u64,
            end as u64,
            u64::from(after),
        ],
    );
    put(cells, 4, &[padding as u64, 0, 0, 0]);
    put(cells, 5, &lent[..n]);
    n + 5
}

// How many bytes are the first list's, how many rows each list has, how many cells are the first's; the cells of both.
pub fn same(given: Given, bytes: &[u8], cells: &mut [u64; CELLS]) -> usize {
    let mut same: u8 = 0xA5;
    let Some((first, second)) = bytes.split_at_checked(given.n1) else {
        return 0;
    };
    if CELLS <= given.n4 {
        return 0;
    }
    let between = 4 + given.n4;
    let answer = apk_list_same(
        part(cells, 4, between),
        given.n2,
        first,
        part(cells, between, given.last),
        given.n3,
        second,
        &mut same,
    );
    put(cells, 0, &[u64::from(answer), u64::from(same), 0, 0]);
    2
}
