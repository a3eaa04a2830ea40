// The text of a list that was read: document 01, "Listing program", with the padding of document 02, Q-2.
use crate::kinds::Kind;
use std::{fmt, io};
use track::cursor::Stop;
use track::list::Record;
use track::read::ReadList;

// Why reading stopped, as it is written: a word, or the number of a refusal. `sounding` has it too: a `Display` beside `Stop`,
// in a library, would be public and promise nothing, which no public function may.
#[derive(Clone, Copy)]
struct Why(Stop);

impl fmt::Display for Why {
    fn fmt<W: fmt::Write>(&self, f: &mut fmt::Formatter<W>) -> fmt::Result {
        match self.0 {
            Stop::End => f.write_str("end"),
            Stop::Full => f.write_str("full"),
            Stop::Refused(refusal) => write!(f, "{}", u8::from(refusal)),
        }
    }
}

// The first line: how many events, why reading stopped, where, the running status there, and the padding of the events.
fn summary(out: &impl Print, read: &ReadList) -> io::Result<()> {
    let count = read.list.count;
    let why = Why(read.stop);
    let place = read.place;
    let running = read.running.status;
    let padding = read.padding;
    println!(out; "events {count} stop {why} at {place} running {running} padding {padding}")
}

// The line of one event.
fn line(out: &impl Print, index: usize, record: &Record) -> io::Result<()> {
    let delta = record.event.delta.0;
    let kind = Kind(record.event.kind);
    println!(out; "{index} {delta} {kind}")
}

// The text of a list: the first line, and a line for each event. No more records are there than a list holds, whatever its
// count says.
pub fn listed(out: &impl Print, read: &ReadList) -> io::Result<()> {
    summary(out, read)?;
    let list = &read.list;
    for (index, record) in list.records.iter().take(list.count).enumerate() {
        line(out, index, record)?;
    }
    Ok(())
}
