// A list of records, measured, and written into a lent buffer from its first byte on.
ghost use Rattle.std.specs.Prelude.{◌≡◌, map};
ghost use Rattle.smf.specs.Lists.{records_judged, size_list, write_list};
ghost use Rattle.base.specs.Rules.{rules_of};
ghost use Rattle.track.specs.List.{capacity, record_of};
ghost use Rattle.write.specs.ListAnswers.{size_said, wrote_list};

use crate::answer::{ListRefused, Past, Size};
use crate::event_door::event_raw;
use crate::events::{Events, length_of, write_all};
use crate::step::{measured, written};
use base::{Refusal, Rules, Running};
use track::list::EventList;

// The events of a list's records, over the bytes lent.
#[derive(Clone, Copy)]
struct Records<'a> {
    list: &'a EventList,
    rules: Rules,
    bytes: &'a [u8],
}

impl<'a> Events for Records<'a> {
    ghost judged = { λ s. records_judged (rules_of s.rules) s.bytes.now (map record_of s.list.now.records) };

    fn measure(&self, index: usize, running: Running) -> Result<Size, Refusal> {
        let kept = self.list.records[index];
        measured(
            event_raw(kept.event, self.rules, self.bytes),
            running,
            self.bytes,
        )
    }

    fn put(&self, index: usize, running: Running, out: &mut [u8], place: usize) -> Past {
        let kept = self.list.records[index];
        let judged = event_raw(kept.event, self.rules, self.bytes);
        written(judged, running, self.bytes, out, place).unwrap()
    }
}

// How many bytes a list has from a running status, and the running status after it.
pub fn list_length(
    list: EventList,
    running: Running,
    rules: Rules,
    bytes: &[u8],
) -> Result<Size, ListRefused>
    ensures { size_said result ≡ size_list capacity running.status (records_judged (rules_of rules) bytes.now (map record_of list.records)) list.count }
{
    let records = Records {
        list: &list,
        rules,
        bytes,
    };
    length_of(&records, list.count, running)
}

// Writes a list from a lent buffer's first byte on. It is judged and measured before a byte is put, so that a refusal
// leaves no trace; the room is looked at last.
pub fn write_list(
    list: EventList,
    running: Running,
    rules: Rules,
    bytes: &[u8],
    out: &mut [u8],
) -> Result<Size, ListRefused>
    ensures { wrote_list result out.new ≡ write_list capacity running.status (records_judged (rules_of rules) bytes.now (map record_of list.records)) list.count out.old }
{
    let records = Records {
        list: &list,
        rules,
        bytes,
    };
    write_all(&records, list.count, running, out)
}
