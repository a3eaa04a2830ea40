// A list of rows, measured, and written into a lent buffer from its first byte on: each row where it stands, with no
// event made. A row that is not all there is no event's, as any other that is none: 18.
ghost use Rattle.std.specs.Prelude.{◌≡◌};
ghost use Rattle.smf.specs.Lists.{size_list, write_list};
ghost use Rattle.base.specs.Rules.{rules_of};
ghost use Rattle.track.specs.List.{capacity};
ghost use Rattle.rows.specs.RowLists.{rows_judged};
ghost use Rattle.write.specs.ListAnswers.{size_said, wrote_list};

use crate::answer::{ListRefused, Past, Size};
use crate::direct::Rows;
use crate::events::{Events, length_of, write_all};
use base::{Refusal, Rules, Running};
use rows::WIDTH;

impl<'a> Events for Rows<'a> {
    ghost judged = { λ s. rows_judged (rules_of s.rules) s.bytes.now s.count s.cells.now };

    fn measure(&self, index: usize, running: Running) -> Result<Size, Refusal> {
        self.measure_at(index * WIDTH, running)
    }

    fn put(&self, index: usize, running: Running, out: &mut [u8], place: usize) -> Past {
        self.write_at(index * WIDTH, running, out, place)
    }
}

// How many bytes a list of rows has from a running status, and the running status after it.
pub fn rows_length(
    rows: &[u64],
    count: usize,
    running: Running,
    rules: Rules,
    bytes: &[u8],
) -> Result<Size, ListRefused>
    ensures { size_said result ≡ size_list capacity running.status (rows_judged (rules_of rules) bytes.now count rows.now) count }
{
    let list = Rows {
        cells: rows,
        count,
        rules,
        bytes,
    };
    length_of(&list, count, running)
}

// Writes a list of rows from a lent buffer's first byte on, judged and measured before a byte is put; the room is looked
// at last.
pub fn write_rows(
    rows: &[u64],
    count: usize,
    running: Running,
    rules: Rules,
    bytes: &[u8],
    out: &mut [u8],
) -> Result<Size, ListRefused>
    ensures { wrote_list result out.new ≡ write_list capacity running.status (rows_judged (rules_of rules) bytes.now count rows.now) count out.old }
{
    let list = Rows {
        cells: rows,
        count,
        rules,
        bytes,
    };
    write_all(&list, count, running, out)
}
