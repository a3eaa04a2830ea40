// The entries for sameness, which C and Rust link: whether the events of two rows, or the lists of two sets of rows, are
// the same over the bytes that each was read from. The yes or no goes out by a pointer, the answer says whether it did.
ghost use Rattle.std.specs.Prelude.{◌≡◌};
ghost use Rattle.smf.specs.Event.{Same};
ghost use Rattle.smf.specs.Lists.{SameList};
ghost use Rattle.track.specs.List.{capacity};
ghost use Rattle.rows.specs.RowEvent.{called_row};
ghost use Rattle.rows.specs.RowLists.{called_rows};
ghost use Rattle.same.specs.OfRows.{rows_asked, lists_asked};
ghost use Rattle.loader_track.specs.Same.{sameness_answered, sameness_left, Handed};

use base::Refusal;
use loader::told;
use rows::WIDTH;
use same::of_rows::{same_row_lists, same_rows};

// What was told is handed out, yes as 1 and no as 0, and the answer is 0; a refusal is answered, and leaves what was lent as
// it came.
fn hand_out(answer: Result<bool, Refusal>, same: &mut u8) -> u8
    ensures answer { result ≡ sameness_answered answer }
    ensures same { same.new ≡ sameness_left answer same.old }
{
    told(answer.map(u8::from), same)
}

// Whether the events of two rows are the same: 1 the same, 0 not. Refuses 18 where a row is no event's.
#[unsafe(no_mangle)]
pub extern "C" fn apk_event_same(
    row_a: &[u64; WIDTH],
    bytes_a: &[u8],
    row_b: &[u64; WIDTH],
    bytes_b: &[u8],
    same: &mut u8,
) -> u8
    ensures { Handed result same.old same.new (rows_asked row_a.now row_b.now) (Same bytes_a.now (called_row row_a.now) bytes_b.now (called_row row_b.now)) }
{
    hand_out(same_rows(*row_a, bytes_a, *row_b, bytes_b), same)
}

// Whether the lists of two sets of rows are the same: 1 the same, 0 not. Refuses 21 where a count is above what a list
// holds, then 18 where a row is no event's, or its cells are not all there.
#[unsafe(no_mangle)]
pub extern "C" fn apk_list_same(
    rows_a: &[u64],
    count_a: usize,
    bytes_a: &[u8],
    rows_b: &[u64],
    count_b: usize,
    bytes_b: &[u8],
    same: &mut u8,
) -> u8
    ensures { Handed result same.old same.new (lists_asked capacity rows_a.now count_a rows_b.now count_b) (SameList bytes_a.now (called_rows count_a rows_a.now) count_a bytes_b.now (called_rows count_b rows_b.now) count_b) }
{
    let answer = same_row_lists(rows_a, count_a, bytes_a, rows_b, count_b, bytes_b);
    hand_out(answer, same)
}
