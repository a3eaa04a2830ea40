// Document 02, Q-1: standard input, read leniently from no running status, list after list, and the keys that still sound
// where reading stopped.
#![tactic(auto)]

mod input;

use crate::input::read_full;
use base::{Rules, Running};
use player::notes::after;
use player::table::{CHANNELS, KEYS, counts, fresh};
use std::{fmt, io};
use track::cursor::Stop;
use track::list::EventList;

// The most bytes that are read.
const LONGEST: usize = 65536;

// Why reading stopped, as it is written: a word, or the number of a refusal. `listing` has it too: a `Display` beside `Stop`,
// in a library, would be public and promise nothing, which no public function may.
#[derive(Clone, Copy)]
struct Why(Stop);

impl fmt::Display for Why {
    fn fmt<W: fmt::Write>(&self, f: &mut fmt::Formatter<W>) -> fmt::Result {
        match self.0 {
            Stop::End => f.write_str("end"),
            Stop::Full => f.write_str("full"), // never: behind a full list another is read
            Stop::Refused(refusal) => write!(f, "{}", u8::from(refusal)),
        }
    }
}

// How many keys sound in all.
fn total(sounding: [u8; CHANNELS]) -> u64 {
    sounding.iter().map(|count| u64::from(*count)).sum()
}

// The lines of a channel's sounding keys.
fn keys(out: &impl Print, channel: usize, velocities: &[u8; KEYS]) -> io::Result<()> {
    for (key, velocity) in velocities.iter().enumerate() {
        if *velocity != 0 {
            println!(out; "{channel} {key} {velocity}")?;
        }
    }
    Ok(())
}

// The lines of all sounding keys, by channel, then key.
fn lines(out: &impl Print, table: &[[u8; KEYS]; CHANNELS]) -> io::Result<()> {
    for (channel, velocities) in table.iter().enumerate() {
        keys(out, channel, velocities)?;
    }
    Ok(())
}

// Reads a track list after list, to its end or to a refusal, and says what sounds then. A list that is full has used bytes,
// so that there are no more lists than bytes: counting them only shows that the loop ends, and never ends it.
fn play(out: &impl Print, raw: &[u8]) -> io::Result<()> {
    let mut table = fresh();
    let mut why = Stop::End;
    let mut place: usize = 0;
    let mut running = Running { status: 0 };
    for _ in raw {
        let read = EventList::read(raw, place, running, Rules { strict: false });
        // what was read is within its widths, and so it is taken
        table = after(table, read.list).unwrap_or_else(|untaken| untaken.table);
        why = read.stop;
        place = read.place;
        running = read.running;
        if !matches!(why, Stop::Full) {
            break;
        }
    }
    let sounding = total(counts(table));
    let why = Why(why);
    println!(out; "sounding {sounding} stop {why} at {place}")?;
    lines(out, &table)
}

// Reads standard input and says what sounds at its end.
fn main(rt: HostRuntime) -> io::Result<()> {
    // one byte more than is read, to see that there is more
    let mut room = [0u8; LONGEST + 1];
    let length = read_full(&mut rt.stdin(), &mut room)?;
    if LONGEST < length {
        return println!(&rt; "too long");
    }
    play(&rt, &room[..length])
}
