// Document 01, "Listing program", with the padding of document 02, Q-2: standard input, read leniently as one list from
// no running status, a line for each event. With an argument standard input is a bank, document 02, Q-3.
#![tactic(auto)]

mod banks;
mod events;
mod input;
mod kinds;

use crate::banks::{is_given, told};
use crate::events::listed;
use crate::input::read_full;
use base::{Rules, Running};
use std::io;
use track::list::EventList;

// The most bytes that are listed. They are no fewer than a bank may have, `bank::LARGEST`, so that one byte more shows
// that a bank is too long.
const LONGEST: usize = 65536;

// Reads standard input and lists it. Of a bank that is too long the bytes that are read are too long too, and have its
// count, so that they are refused by its number.
fn main(rt: HostRuntime) -> io::Result<()> {
    // one byte more than is listed, to see that there is more
    let mut room = [0u8; LONGEST + 1];
    let length = read_full(&mut rt.stdin(), &mut room)?;
    let bytes = &room[..length];
    if is_given(&rt, 1) {
        return told(&rt, bytes);
    }
    if LONGEST < bytes.len() {
        return println!(&rt; "too long");
    }
    let read = EventList::read(bytes, 0, Running { status: 0 }, Rules { strict: false });
    listed(&rt, &read)
}
