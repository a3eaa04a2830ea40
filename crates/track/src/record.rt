// The records of a list are made here and nowhere else, so that what joins a record is filled in at one place.
ghost use Rattle.std.specs.Prelude.{◌≡◌};
ghost use Rattle.event.specs.Event.{event_of};
ghost use Rattle.track.specs.List.{record_of};

use crate::list::Record;
use event::TrackEvent;

// The record of an event.
pub fn recorded(event: TrackEvent) -> Record
    ensures { record_of result ≡ event_of event }
{
    Record { event }
}
