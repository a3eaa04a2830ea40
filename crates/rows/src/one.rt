// One event read into its row: a short one straight from its bytes, as in a list.
ghost use Rattle.std.specs.Prelude.{◌≡◌};
ghost use Rattle.smf.specs.Event.{event_at};
ghost use Rattle.base.specs.Rules.{rules_of};
ghost use Rattle.rows.specs.One.{read_row, beside_row, row_told};

use crate::short::{short_at, short_row};
use crate::{WIDTH, event_row};
use base::{Rules, Running};
use event::TrackEvent;
use event::read::EventRefused;

// What is told of an event beside its row.
#[derive(Clone, Copy)]
pub struct RowRead {
    // how many bytes it has, from its delta on
    pub used: usize,
    // the running status after it
    pub running: Running,
    // its padding
    pub padding: usize,
}

// Reads an event into a row, whatever it is: the general way.
fn read_any(
    raw: &[u8],
    at: usize,
    running: Running,
    rules: Rules,
    row: &mut [u64; WIDTH],
) -> Result<RowRead, EventRefused>
    ensures answer { row_told result ≡ beside_row (event_at (rules_of rules) running.status raw.now at) }
    ensures row { row.new ≡ read_row (event_at (rules_of rules) running.status raw.now at) row.old }
{
    let e = TrackEvent::read(raw, at, running, rules)?;
    let event = e.event;
    *row = event_row(event.delta.0, event.kind);
    Ok(RowRead {
        used: e.used,
        running: e.running,
        padding: e.padding,
    })
}

// The event at a place, from a running status, read into a row: of a short one the row is made straight from its bytes, of
// any other the general way, which also says why one is refused.
pub fn read_row(
    raw: &[u8],
    at: usize,
    running: Running,
    rules: Rules,
    row: &mut [u64; WIDTH],
) -> Result<RowRead, EventRefused>
    ensures answer { row_told result ≡ beside_row (event_at (rules_of rules) running.status raw.now at) }
    ensures row { row.new ≡ read_row (event_at (rules_of rules) running.status raw.now at) row.old }
{
    if running.is_valid() {
        if let Some(short) = short_at(raw, at, running) {
            let status = short.status;
            *row = short_row(raw[at], status, short.a, short.b);
            return Ok(RowRead {
                used: short.used,
                running: Running { status },
                padding: 0,
            });
        }
    }
    read_any(raw, at, running, rules, row)
}
