// A list of events, wherever they stand, measured and written: each is judged by its index, so that records and rows go
// through the same loops. A list is judged and measured before a byte is put, so that a refusal leaves no trace; the room
// is looked at last.
ghost use Rattle.std.specs.Prelude.{◌≡◌, List, ℕ, ◌<◌, ◌≤◌, take, length, get_or, IfOk};
ghost use Rattle.smf.specs.Answer.{Answer, refuses};
ghost use Rattle.smf.specs.Event.{Event};
ghost use Rattle.smf.specs.Lists.{check, size_checked, size_list, write_list};
ghost use Rattle.track.specs.List.{capacity};
ghost use Rattle.write.specs.Raw.{raw_judged};
ghost use Rattle.write.specs.Size.{length_said, size_judged, most};
ghost use Rattle.write.specs.Wrote.{wrote_event, write_raw};
ghost use Rattle.write.specs.ListAnswers.{size_said, wrote_list, RoomFor, InFront};
ghost use Rattle.write.specs.Direct.{RoomAt};

use crate::answer::{ListRefused, Past, Size};
use crate::step::refused;
use base::{Refusal, Running};
use track::list::CAPACITY;

// A list whose events are measured and put one by one. That a count is not above what a list holds is asked for by functions
// of several crates, since C gives the count beside the rows: no type of one crate could say it for all.
pub trait Events {
    // its events, each as it was judged
    ghost judged: { Self → List (Answer (Event (List ℕ))) };

    // How long the event at an index is from a running status, or the number of what forbids it.
    fn measure(&self, index: usize, running: Running) -> Result<Size, Refusal>
        requires { (index < capacity) × (index < length (judged self.now)) }
        ensures said { length_said result ≡ size_judged running.status (get_or (judged self.now) index (refuses 0)) }
        ensures short { IfOk result (λ s. s.length ≤ most) };

    // Puts the event at an index, which is legal and has room.
    fn put(&self, index: usize, running: Running, out: &mut [u8], place: usize) -> Past
        requires within { (index < capacity) × (index < length (judged self.now)) }
        requires room { RoomAt running.status (raw_judged (get_or (judged self.now) index (refuses 0))) place (length out.old) }
        ensures { wrote_event (Ok result) out.new ≡ write_raw running.status (raw_judged (get_or (judged self.now) index (refuses 0))) out.old place };
}

// How long so many events are; or the first that is illegal.
fn measure_all<E: Events>(events: &E, count: usize, running: Running) -> Result<Size, ListRefused>
    requires { (count ≤ capacity) × (count ≤ length (E.judged events.now)) }
    ensures { size_said result ≡ size_checked running.status (check 0 (take count (E.judged events.now))) }
{
    let mut length: usize = 0;
    let mut after = running;
    for index in 0..count {
        match events.measure(index, after) {
            Err(refusal) => {
                return Err(ListRefused {
                    refusal,
                    index,
                    running,
                });
            }
            Ok(size) => {
                length += size.length;
                after = size.running;
            }
        }
    }
    Ok(Size {
        length,
        running: after,
    })
}

// How many bytes a list has from a running status, and the running status after it.
pub fn length_of<E: Events>(events: &E, count: usize, running: Running) -> Result<Size, ListRefused>
    requires { count ≤ capacity → count ≤ length (E.judged events.now) }
    ensures { size_said result ≡ size_list capacity running.status (E.judged events.now) count }
{
    if !running.is_valid() {
        return refused(Refusal::RunningStatus, running);
    }
    if CAPACITY < count {
        return refused(Refusal::TooManyEvents, running);
    }
    measure_all(events, count, running)
}

// Puts so many events one behind the other, which are legal and have room.
fn put_all<E: Events>(events: &E, count: usize, running: Running, out: &mut [u8])
    requires count_le_capacity { (count ≤ capacity) × (count ≤ length (E.judged events.now)) }
    requires room_for { RoomFor running.status (take count (E.judged events.now)) (length out.old) }
    ensures { InFront running.status (take count (E.judged events.now)) out.old out.new }
{
    let mut place: usize = 0;
    let mut after = running;
    for index in 0..count {
        let past = events.put(index, after, out, place);
        place = past.next;
        after = past.running;
    }
}

// Writes a list into a lent buffer from its first byte on.
pub fn write_all<E: Events>(
    events: &E,
    count: usize,
    running: Running,
    out: &mut [u8],
) -> Result<Size, ListRefused>
    requires { count ≤ capacity → count ≤ length (E.judged events.now) }
    ensures { wrote_list result out.new ≡ write_list capacity running.status (E.judged events.now) count out.old }
{
    let size = length_of(events, count, running)?;
    if out.len() < size.length {
        return refused(Refusal::NoRoom, running); // nothing is written
    }
    put_all(events, count, running, out);
    Ok(size)
}
