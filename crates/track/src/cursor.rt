// Where a reader of a list is, and the one step that takes the next event or says why reading stops.
ghost use Rattle.std.specs.Prelude.{◌≡◌};
ghost use Rattle.smf.specs.Lists.{next_at};
ghost use Rattle.base.specs.Rules.{rules_of};
ghost use Rattle.track.specs.List.{capacity};
ghost use Rattle.track.specs.Cursor.{reader_of, next_of};

use crate::list::CAPACITY;
use base::{Refusal, Rules, Running};
use event::TrackEvent;

// Why reading stopped.
#[derive(Clone, Copy)]
pub enum Stop {
    // at the end of the bytes
    End,
    // as many events were read as a list holds, and bytes are left
    Full,
    // an event was refused, by 1 to 14; those before it stand
    Refused(Refusal),
}

// Where a reader of a list is.
#[derive(Clone, Copy)]
pub struct Cursor {
    // the running status at the place
    pub running: Running,
    // the place of the next unread byte
    pub place: usize,
    // how many events were taken before it
    pub count: usize,
}

// An event that was taken. The cursor's byte stands first, where `Stop` has one too: a compiler then keeps the rest in
// registers.
#[derive(Clone, Copy)]
pub struct NextEvent {
    // where the reader is behind the event
    pub cursor: Cursor,
    // the event's padding
    pub padding: usize,
    // the event
    pub event: TrackEvent,
}

impl Cursor {
    // Takes the next event of the list, or says why reading stops: at the end, else full, else refused. At the end of the
    // bytes the running status is not looked at: that 1 comes before all else is for the readers of lists to see to.
    pub fn next(self, raw: &[u8], rules: Rules) -> Result<NextEvent, Stop>
        ensures { next_of result ≡ next_at (rules_of rules) capacity raw.now (reader_of self) }
    {
        let place = self.place;
        let count = self.count;
        if raw.len() <= place {
            return Err(Stop::End);
        }
        if CAPACITY <= count {
            return Err(Stop::Full);
        }
        let read = TrackEvent::read(raw, place, self.running, rules);
        let e = read.map_err(|n| Stop::Refused(n.refusal))?;
        Ok(NextEvent {
            cursor: Cursor {
                running: e.running,
                place: place + e.used,
                count: count + 1,
            },
            padding: e.padding,
            event: e.event,
        })
    }
}
