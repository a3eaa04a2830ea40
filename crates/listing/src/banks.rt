// Document 02, Q-3: a bank of programs, its tracks a line each, or one of them listed as its bytes by themselves are.
use crate::events::listed;
use bank::list::list_track;
use bank::read::read_bank;
use bank::{Bank, TRACKS};
use base::{Refusal, Rules};
use std::env::FillError;
use std::io;
use std::rt::Env;

// The index with one digit more; none where that is no decimal digit, or where the index is too large.
fn longer(index: usize, digit: u8) -> Option<usize> {
    let ones = char::from(digit).to_digit(10)?;
    index.checked_mul(10)?.checked_add(ones as usize)
}

// The index that decimal digits are; of no digits, 0. `str::parse` takes a plus sign too, and no empty word.
fn index_in(digits: &[u8]) -> Option<usize> {
    digits
        .iter()
        .try_fold(0, |index, digit| longer(index, *digit))
}

// Whether the program was started with that argument, however long it is; the first is number 1.
pub fn is_given(rt: &impl Env, number: usize) -> bool {
    !matches!(rt.arg(number, &mut []), Err(FillError::NotPresent))
}

// The index that is asked for: the second argument. One that is too long for its digits to be held is no bank's, since
// `./list` leaves out zeros in front.
fn asked(rt: &impl Env) -> Option<usize> {
    let mut digits = [0u8; 32];
    let length = rt.arg(2, &mut digits).ok()?;
    index_in(&digits[..length])
}

// What is said of a block that is no bank, or of an index that it does not have.
fn refused(out: &impl Print, refusal: Refusal) -> io::Result<()> {
    println!(out; "refused {}", u8::from(refusal))
}

// The lines of a bank's tracks, each its index and where it stands in the block. No more ranges are there than a bank
// holds, whatever its count says.
fn lines(out: &impl Print, bank: &Bank) -> io::Result<()> {
    for (index, range) in bank.tracks.iter().take(bank.count).enumerate() {
        let start = range.start;
        let length = range.length;
        println!(out; "{index} {start} {length}")?;
    }
    Ok(())
}

// Says where the tracks of a bank stand.
fn list_tracks(out: &impl Print, block: &[u8]) -> io::Result<()> {
    match read_bank(block) {
        Ok(bank) => lines(out, &bank),
        Err(refusal) => refused(out, refusal),
    }
}

// Lists a track of a bank.
fn list_one(out: &impl Print, block: &[u8], index: usize) -> io::Result<()> {
    match list_track(block, index, Rules { strict: false }) {
        Ok(read) => listed(out, &read),
        Err(refusal) => refused(out, refusal),
    }
}

// Says of a block what is asked for: with no index behind the word `bank` where its tracks stand, else the track of that
// index. What is no index is said as the least that no bank has: those of the most tracks are all below it.
pub fn told(rt: &(impl Env + Print), block: &[u8]) -> io::Result<()> {
    if is_given(rt, 2) {
        list_one(rt, block, asked(rt).unwrap_or(TRACKS))
    } else {
        list_tracks(rt, block)
    }
}
