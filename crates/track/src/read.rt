// Reading a list of events into records, step by step. It stops at the end of the bytes, full, or at an event that is
// refused.
ghost use Rattle.std.specs.Prelude.{◌≡◌};
ghost use Rattle.smf.specs.Lists.{list_at, held_as};
ghost use Rattle.base.specs.Rules.{rules_of};
ghost use Rattle.track.specs.List.{capacity};
ghost use Rattle.track.specs.Read.{list_read_of};

use crate::cursor::{Cursor, Stop};
use crate::list::EventList;
use crate::record::recorded;
use base::{Refusal, Rules, Running};

// What reading a list answers.
#[derive(Clone, Copy)]
pub struct ReadList {
    // the events that were read, those before a refusal too
    pub list: EventList,
    // why reading stopped
    pub stop: Stop,
    // the place of the next unread byte; after a refusal, of the refused event
    pub place: usize,
    // the running status there
    pub running: Running,
    // the padding of its events, in all
    pub padding: usize,
}

impl EventList {
    // Reads the list at a place, from a running status. From an invalid one nothing is read: 1 comes before all else.
    pub fn read(raw: &[u8], at: usize, running: Running, rules: Rules) -> ReadList
        ensures { list_read_of result ≡ held_as capacity (list_at (rules_of rules) capacity running.status raw.now at) }
    {
        let mut list = EventList::new();
        let mut cursor = Cursor {
            running,
            place: at,
            count: 0,
        };
        let mut padding: usize = 0;
        let mut stop = Stop::Refused(Refusal::RunningStatus);
        if running.is_valid() {
            // A `for` has nothing to count here, and a `while let Ok(step)` would lose why the loop is left.
            stop = loop {
                match cursor.next(raw, rules) {
                    Err(why) => break why,
                    Ok(step) => {
                        list.records[cursor.count] = recorded(step.event);
                        padding += step.padding;
                        cursor = step.cursor;
                    }
                }
            };
        }
        list.count = cursor.count;
        ReadList {
            list,
            stop,
            place: cursor.place,
            running: cursor.running,
            padding,
        }
    }
}
