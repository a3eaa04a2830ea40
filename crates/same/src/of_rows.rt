// Whether the events of two rows, or the lists of two sets of rows, are the same over the bytes that each was read from.
// Rows that are no events' are not compared, and never the same.
ghost use Rattle.std.specs.Prelude.{◌≡◌, true, ◌≤◌, take, drop};
ghost use Rattle.smf.specs.Event.{Same};
ghost use Rattle.smf.specs.Lists.{SameList};
ghost use Rattle.track.specs.List.{capacity};
ghost use Rattle.rows.specs.Rows.{width};
ghost use Rattle.rows.specs.RowEvent.{called_row, event_of_row};
ghost use Rattle.rows.specs.RowLists.{called_rows, are_rows};
ghost use Rattle.same.specs.Same.{Tells};
ghost use Rattle.same.specs.OfRows.{Says, rows_asked, lists_asked, SameGiven};

use crate::same_event;
use base::Refusal;
use rows::WIDTH;
use rows::back::{row_event, row_event_at};
use track::list::CAPACITY;

// Whether the events of two rows are the same; 18 where one is no event's.
pub fn same_rows(
    a: [u64; WIDTH],
    a_bytes: &[u8],
    b: [u64; WIDTH],
    b_bytes: &[u8],
) -> Result<bool, Refusal>
    ensures { Says result (rows_asked a b) (Same a_bytes.now (called_row a) b_bytes.now (called_row b)) }
{
    let x = row_event(a)?;
    let y = row_event(b)?;
    Ok(same_event(x, a_bytes, y, b_bytes))
}

// Whether the rows that start at a cell of each are events', and the same. The two refusals lead to one answer and give the
// two events: as one condition they would be read twice.
fn same_at(a: &[u64], a_bytes: &[u8], b: &[u64], b_bytes: &[u8], at: usize) -> bool
    ensures { Tells result (SameGiven a_bytes.now (event_of_row (take width (drop at a.now))) b_bytes.now (event_of_row (take width (drop at b.now)))) }
{
    let Ok(x) = row_event_at(a, at) else {
        return false;
    };
    let Ok(y) = row_event_at(b, at) else {
        return false;
    };
    same_event(x, a_bytes, y, b_bytes)
}

// Whether so many rows are events'. The C interface has rows with a count beside them, and their cells need not all be there.
// Tried as an `all` over the indices: what its closure promises is not found unless the look at one row is a function of its
// own, and then it is no plainer than the loop, here and below.
fn are_rows(cells: &[u64], count: usize) -> bool
    requires { count ≤ capacity }
    ensures { result ≡ are_rows count cells.now }
{
    for index in 0..count {
        if row_event_at(cells, index * WIDTH).is_err() {
            return false;
        }
    }
    true
}

// Whether so many rows of each, which are events', are the same.
fn same_all(a: &[u64], a_bytes: &[u8], b: &[u64], b_bytes: &[u8], count: usize) -> bool
    requires count_le_capacity { count ≤ capacity }
    requires a_value { are_rows count a.now ≡ true }
    requires b_value { are_rows count b.now ≡ true }
    ensures { Tells result (SameList a_bytes.now (called_rows count a.now) count b_bytes.now (called_rows count b.now) count) }
{
    for index in 0..count {
        if !same_at(a, a_bytes, b, b_bytes, index * WIDTH) {
            return false;
        }
    }
    true
}

// Whether the lists of two sets of rows are the same; 21 where a count is above what a list holds, then 18 where a row
// is no event's.
pub fn same_row_lists(
    a: &[u64],
    a_count: usize,
    a_bytes: &[u8],
    b: &[u64],
    b_count: usize,
    b_bytes: &[u8],
) -> Result<bool, Refusal>
    ensures { Says result (lists_asked capacity a.now a_count b.now b_count) (SameList a_bytes.now (called_rows a_count a.now) a_count b_bytes.now (called_rows b_count b.now) b_count) }
{
    if CAPACITY < a_count || CAPACITY < b_count {
        return Err(Refusal::TooManyEvents);
    }
    if !are_rows(a, a_count) || !are_rows(b, b_count) {
        return Err(Refusal::AboveWidth);
    }
    if a_count != b_count {
        return Ok(false);
    }
    Ok(same_all(a, a_bytes, b, b_bytes, a_count))
}
