// Lists read into rows: each event goes straight into its row, from the first cell on.
ghost use Rattle.std.specs.Prelude.{◌≡◌, true, ◌+◌, ◌*◌, ◌≤◌, length, take};
ghost use Rattle.smf.specs.Write.{over};
ghost use Rattle.smf.specs.Lists.{list_at, next_at};
ghost use Rattle.smf.specs.Running.{is_running};
ghost use Rattle.base.specs.Rules.{rules_of};
ghost use Rattle.rows.specs.Rows.{width};
ghost use Rattle.track.specs.List.{capacity};
ghost use Rattle.track.specs.Cursor.{reader_of};
ghost use Rattle.rows.specs.Read.{read_sheet, rows_left, laid_next, laid_of};

use crate::short::{short_at, short_row};
use crate::{WIDTH, event_row};
use base::{Refusal, Rules, Running};
use track::cursor::{Cursor, Stop};
use track::list::CAPACITY;

// How many cells the rows of a full list take.
const CELLS: usize = CAPACITY * WIDTH;

// How many events were read and why reading stopped; the place of the next unread byte, and the running status there;
// the padding of the events, in all.
#[derive(Clone, Copy)]
pub struct RowsRead {
    pub count: usize,
    pub stop: Stop,
    pub place: usize,
    pub running: Running,
    pub padding: usize,
}

// A row that was laid: where the reader is behind its event, and the event's padding.
#[derive(Clone, Copy)]
pub struct RowLaid {
    pub cursor: Cursor,
    pub padding: usize,
}

// Lays a row into cells from a place on.
fn put_row(rows: &mut [u64], at: usize, row: [u64; WIDTH])
    requires { at + width ≤ length rows.old }
    ensures { rows.new ≡ over row rows.old at }
{
    rows[at..at + WIDTH].copy_from_slice(&row);
}

// Copies cells into the first cells of others.
fn copy_cells(cells: &[u64], rows: &mut [u64])
    requires { length cells.now ≤ length rows.old }
    ensures { rows.new ≡ over cells.now rows.old 0 }
{
    rows[..cells.len()].copy_from_slice(cells);
}

// Lays the row of the next event, whatever it is: the general way. That the cells are enough for a full list stands in each
// of the three contracts from here on: a struct for it would hold a `&mut` that is lent anew at each call, and is no plainer.
fn lay_any(raw: &[u8], cursor: Cursor, rules: Rules, rows: &mut [u64]) -> Result<RowLaid, Stop>
    requires { capacity * width ≤ length rows.old }
    ensures { laid_of result rows.new ≡ laid_next (next_at (rules_of rules) capacity raw.now (reader_of cursor)) cursor.count rows.old }
{
    let step = cursor.next(raw, rules)?;
    let event = step.event;
    put_row(
        rows,
        cursor.count * WIDTH,
        event_row(event.delta.0, event.kind),
    );
    Ok(RowLaid {
        cursor: step.cursor,
        padding: step.padding,
    })
}

// Lays the row of the next event: of a short one straight from its bytes, of any other the general way, which also says
// why reading stops.
fn lay_next(raw: &[u8], cursor: Cursor, rules: Rules, rows: &mut [u64]) -> Result<RowLaid, Stop>
    requires { (is_running cursor.running.status ≡ true) × (capacity * width ≤ length rows.old) }
    ensures { laid_of result rows.new ≡ laid_next (next_at (rules_of rules) capacity raw.now (reader_of cursor)) cursor.count rows.old }
{
    let place = cursor.place;
    let running = cursor.running;
    let Some(short) = short_at(raw, place, running) else {
        return lay_any(raw, cursor, rules, rows);
    };
    let count = cursor.count;
    if CAPACITY <= count {
        return Err(Stop::Full);
    }
    let status = short.status;
    put_row(
        rows,
        count * WIDTH,
        short_row(raw[place], status, short.a, short.b),
    );
    let behind = Cursor {
        running: Running { status },
        place: place + short.used,
        count: count + 1,
    };
    Ok(RowLaid {
        cursor: behind,
        padding: 0,
    })
}

// Reads a list and lays one row behind the other, into cells for a full list; from an invalid running status nothing is
// read.
fn lay_rows(raw: &[u8], at: usize, running: Running, rules: Rules, rows: &mut [u64]) -> RowsRead
    requires { capacity * width ≤ length rows.old }
    ensures { rows_left (Ok result) rows.new ≡ read_sheet (list_at (rules_of rules) capacity running.status raw.now at) rows.old }
{
    let mut cursor = Cursor {
        running,
        place: at,
        count: 0,
    };
    let mut padding: usize = 0;
    let mut stop = Stop::Refused(Refusal::RunningStatus);
    if running.is_valid() {
        // A `for` has nothing to count here, and a `while let Ok(next)` would lose why the loop is left.
        stop = loop {
            match lay_next(raw, cursor, rules, rows) {
                Err(why) => break why,
                Ok(next) => {
                    padding += next.padding;
                    cursor = next.cursor;
                }
            }
        };
    }
    RowsRead {
        count: cursor.count,
        stop,
        place: cursor.place,
        running: cursor.running,
        padding,
    }
}

// Where there are fewer cells than a full list needs: the rows are laid into cells of their own, and copied where they fit.
fn fit_rows(
    raw: &[u8],
    at: usize,
    running: Running,
    rules: Rules,
    rows: &mut [u64],
) -> Result<RowsRead, Refusal>
    ensures { rows_left result rows.new ≡ read_sheet (list_at (rules_of rules) capacity running.status raw.now at) rows.old }
{
    let mut cells = [0u64; CELLS];
    let read = lay_rows(raw, at, running, rules, &mut cells);
    let n = read.count * WIDTH;
    if rows.len() < n {
        return Err(Refusal::NoRoom);
    }
    copy_cells(&cells[..n], rows);
    Ok(read)
}

// The list at a place, from a running status: its rows, and where reading stopped. The rows before a refused event
// stand. Where the cells are too few for the events that are read, every cell stays as it came.
pub fn read_rows(
    raw: &[u8],
    at: usize,
    running: Running,
    rules: Rules,
    rows: &mut [u64],
) -> Result<RowsRead, Refusal>
    ensures { rows_left result rows.new ≡ read_sheet (list_at (rules_of rules) capacity running.status raw.now at) rows.old }
{
    if rows.len() < CELLS {
        return fit_rows(raw, at, running, rules, rows);
    }
    Ok(lay_rows(raw, at, running, rules, rows))
}
