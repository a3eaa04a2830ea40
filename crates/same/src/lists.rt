// Whether two lists are the same over the bytes that each was read from.
ghost use Rattle.std.specs.Prelude.{map};
ghost use Rattle.smf.specs.Lists.{SameList};
ghost use Rattle.smf.specs.Event.{Same};
ghost use Rattle.track.specs.List.{record_of};
ghost use Rattle.same.specs.Same.{Tells};

use crate::same_event;
use track::list::{CAPACITY, EventList, Record};

// Whether two records hold the same event.
fn same_record(a: Record, a_bytes: &[u8], b: Record, b_bytes: &[u8]) -> bool
    ensures { Tells result (Same a_bytes.now (record_of a) b_bytes.now (record_of b)) }
{
    same_event(a.event, a_bytes, b.event, b_bytes)
}

// Two lists are the same when their counts agree and each two events that count are the same. A record has no `==`, since two
// events are the same over the bytes of each; an `all` over two arrays at once would zip and take first, and is no plainer.
pub fn same_list(a: EventList, a_bytes: &[u8], b: EventList, b_bytes: &[u8]) -> bool
    ensures { Tells result (SameList a_bytes.now (map record_of a.records) a.count b_bytes.now (map record_of b.records) b.count) }
{
    if b.count != a.count {
        return false; // another count
    }
    for i in 0..a.count.min(CAPACITY) { // a count may be above what the list holds
        if !same_record(a.records[i], a_bytes, b.records[i], b_bytes) {
            return false;
        }
    }
    true
}
