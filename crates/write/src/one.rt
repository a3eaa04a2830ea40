// One event, measured and written: the Rust's `TrackEvent::write`.
ghost use Rattle.std.specs.Prelude.{◌≡◌};
ghost use Rattle.smf.specs.Answer.{pick, gives, refuses, and_then};
ghost use Rattle.smf.specs.Running.{is_running};
ghost use Rattle.smf.specs.Event.{legal, write_event, event_left};
ghost use Rattle.base.specs.Rules.{rules_of};
ghost use Rattle.event.specs.Event.{event_of};
ghost use Rattle.rows.specs.RowEvent.{row_judged};
ghost use Rattle.write.specs.Raw.{judged_said, LetThrough};
ghost use Rattle.write.specs.Size.{length_said, raw_size, size_event};
ghost use Rattle.write.specs.Wrote.{wrote_event, write_raw};

use crate::answer::{Past, Size, WriteRefused};
use crate::event_door::event_raw;
use crate::raw::RawEvent;
use crate::row_door::row_raw;
use crate::step::{measured, written};
use base::{Refusal, Rules, Running};
use event::TrackEvent;
use rows::WIDTH;

// How many bytes what went through its door has. An invalid running status is refused before what the door refused. That it
// was let through over these bytes stands in four contracts: a struct of both would be made anew at each call, of what the
// door answers, and is no plainer.
fn length_from(
    judged: Result<RawEvent, Refusal>,
    running: Running,
    bytes: &[u8],
) -> Result<Size, Refusal>
    requires { LetThrough bytes.now judged }
    ensures { length_said result ≡ pick (is_running running.status) (and_then (judged_said bytes.now judged) (λ raw. gives (raw_size running.status raw))) (refuses 1) }
{
    if !running.is_valid() {
        return Err(Refusal::RunningStatus); // of whatever event
    }
    measured(judged, running, bytes)
}

// Writes what went through its door. An invalid running status is refused before what the door refused.
fn written_from(
    judged: Result<RawEvent, Refusal>,
    running: Running,
    bytes: &[u8],
    out: &mut [u8],
    at: usize,
) -> Result<Past, WriteRefused>
    requires { LetThrough bytes.now judged }
    ensures { wrote_event result out.new ≡ pick (is_running running.status) (write_raw running.status (judged_said bytes.now judged) out.old at) (event_left running.status out.old 1) }
{
    if !running.is_valid() {
        return Err(WriteRefused {
            refusal: Refusal::RunningStatus, // of whatever event
            running, // as it was given
        });
    }
    written(judged, running, bytes, out, at)
}

// How many bytes an event has from a running status, and the running status after it.
pub fn event_length(
    event: TrackEvent,
    running: Running,
    rules: Rules,
    bytes: &[u8],
) -> Result<Size, Refusal>
    ensures { length_said result ≡ size_event running.status (legal (rules_of rules) bytes.now (event_of event)) }
{
    length_from(event_raw(event, rules, bytes), running, bytes)
}

// Writes an event at a place of a lent buffer, from a running status.
pub fn write_event(
    event: TrackEvent,
    running: Running,
    rules: Rules,
    bytes: &[u8],
    out: &mut [u8],
    at: usize,
) -> Result<Past, WriteRefused>
    ensures { wrote_event result out.new ≡ write_event running.status (legal (rules_of rules) bytes.now (event_of event)) out.old at }
{
    written_from(event_raw(event, rules, bytes), running, bytes, out, at)
}

// How many bytes a row's event has from a running status, and the running status after it.
pub fn row_length(
    row: [u64; WIDTH],
    running: Running,
    rules: Rules,
    bytes: &[u8],
) -> Result<Size, Refusal>
    ensures { length_said result ≡ size_event running.status (row_judged (rules_of rules) bytes.now row) }
{
    length_from(row_raw(row, rules, bytes), running, bytes)
}

// Writes a row's event at a place of a lent buffer, from a running status.
pub fn write_row(
    row: [u64; WIDTH],
    running: Running,
    rules: Rules,
    bytes: &[u8],
    out: &mut [u8],
    at: usize,
) -> Result<Past, WriteRefused>
    ensures { wrote_event result out.new ≡ write_event running.status (row_judged (rules_of rules) bytes.now row) out.old at }
{
    written_from(row_raw(row, rules, bytes), running, bytes, out, at)
}
