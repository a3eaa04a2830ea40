// A list of events: an array of records, and how many of them hold an event.
ghost use Rattle.std.specs.Prelude.{◌≡◌, []};
ghost use Rattle.smf.specs.Lists.{filler, holding};
ghost use Rattle.track.specs.List.{capacity, record_of, held_of};

use crate::record::recorded;
use event::{TrackEvent, TrackEventKind};
use meta::MetaMessage;
use number::u28;

// How many events a list holds: the one place in the code that says so.
pub const CAPACITY: usize = 128;

// A record of a list: the event that it holds. Whatever else is told of an event in its list joins it here.
#[derive(Clone, Copy)]
pub struct Record {
    // the event
    pub event: TrackEvent,
}

// A list of events: an array of records and a count, a form that docs/RULES.md names.
#[derive(Clone, Copy)]
pub struct EventList {
    // the events from the first on; past the count the filler, delta 0 and `EndOfTrack`, which writers do not look at
    pub records: [Record; CAPACITY],
    // how many of the records hold an event
    pub count: usize,
}

// What stands past the count: delta 0, `EndOfTrack`.
fn filler() -> Record
    ensures { record_of result ≡ filler }
{
    recorded(TrackEvent {
        delta: u28(0),
        kind: TrackEventKind::Meta(MetaMessage::EndOfTrack),
    })
}

impl EventList {
    // The empty list.
    pub fn new() -> EventList
        ensures { held_of result ≡ holding capacity [] }
    {
        let filler = filler();
        EventList {
            records: [filler; CAPACITY],
            count: 0,
        }
    }
}
