// Reading with a running status that is lent and updated, as the Rust's reader has it: a thin function over the reader
// by value.
ghost use Rattle.smf.specs.Event.{event_at};
ghost use Rattle.base.specs.Rules.{rules_of};
ghost use Rattle.event.specs.Lent.{Leaves};

use crate::TrackEvent;
use crate::read::{EventAt, EventRefused};
use base::{Rules, Running};

// What the reader answers, with the running status that it leaves taken out of either case. The claims `Literals.left` and
// `Entries` name it, and docs/PROMISES.md does.
#[derive(Clone, Copy)]
pub struct Step {
    // the answer
    pub read: Result<EventAt, EventRefused>,
    // the running status after the event, or that the refusal leaves
    pub running: Running,
}

// Reads the event at a place, by value. All that has to be told apart is told apart here, so that the function below has
// no branch.
pub fn read_step(raw: &[u8], at: usize, running: Running, rules: Rules) -> Step
    ensures { Leaves (event_at (rules_of rules) running.status raw.now at) result.read result.running }
{
    let read = TrackEvent::read(raw, at, running, rules);
    let left = match read {
        Ok(e) => e.running,
        Err(n) => n.running,
    };
    Step {
        read,
        running: left,
    }
}

// Reads the event at a place, and updates the running status that it is lent, also when it refuses. It has no branch.
pub fn read_event<'a, 'b>(
    raw: &'a [u8],
    at: usize,
    running: &'b mut Running,
    rules: Rules,
) -> Result<EventAt, EventRefused>
    ensures { Leaves (event_at (rules_of rules) running.old.status raw.now at) result running.new }
{
    let answer = read_step(raw, at, *running, rules);
    *running = answer.running;
    answer.read
}
