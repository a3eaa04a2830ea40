// The entries for C and Rust: a table is its bytes, channel by channel, and a list is rows of cells. The C interface has the
// rows with a count beside them, and what is found in values lent by `&mut`.
ghost use Rattle.std.specs.Prelude.{◌≡◌, map, ◌+◌, ◌*◌, ◌≤◌, length, take};
ghost use Rattle.smf.specs.Answer.{unless, gives};
ghost use Rattle.smf.specs.Write.{over};
ghost use Rattle.track.specs.List.{capacity, held_of, record_of};
ghost use Rattle.rows.specs.Rows.{width};
ghost use Rattle.rows.specs.RowLists.{are_rows, called_rows};
ghost use Rattle.rows.specs.Sheet.{sheet_of};
ghost use Rattle.player.specs.Sounding.{counts, silence};
ghost use Rattle.player.specs.Answers.{with_number, list_said, list_beside};
ghost use Rattle.player.specs.Entries.{table_in, bytes_in, rows_accepted, bytes_beside, bytes_said, cells_left, cells_said, silence_left};

use crate::notes::{Untaken, after};
use crate::silence::silence;
use crate::table::{CHANNELS, KEYS, PLACES, counts, fresh};
use base::{Refusal, u4, u7};
use loader::told;
use rows::back::row_event_at;
use rows::{WIDTH, event_row};
use track::list::{CAPACITY, EventList};
use track::record::recorded;

// The table that bytes are.
fn table_in(bytes: [u8; PLACES]) -> [[u8; KEYS]; CHANNELS]
    ensures { result ≡ table_in bytes }
{
    let mut table = fresh();
    for (place, velocity) in bytes.iter().enumerate() {
        table[place / KEYS][place % KEYS] = *velocity;
    }
    table
}

// The bytes of a table.
fn bytes_in(table: [[u8; KEYS]; CHANNELS]) -> [u8; PLACES]
    ensures { result ≡ bytes_in table }
{
    let mut bytes = [0u8; PLACES];
    for (place, byte) in bytes.iter_mut().enumerate() {
        *byte = table[place / KEYS][place % KEYS];
    }
    bytes
}

// The list of so many rows, no more than it holds; 18 where a row is no event's.
fn list_in(rows: &[u64], count: usize) -> Result<EventList, Refusal>
    requires { count ≤ capacity }
    ensures { list_said result ≡ list_beside capacity (unless (are_rows count rows.now) 18 (gives (called_rows count rows.now))) }
{
    let mut list = EventList::new();
    for index in 0..count {
        let event = row_event_at(rows, index * WIDTH)?;
        list.records[index] = recorded(event);
    }
    list.count = count;
    Ok(list)
}

// Lays the rows of a list into cells that are enough, from the first on.
fn put_rows(list: EventList, rows: &mut [u64])
    requires count_le_capacity { list.count ≤ capacity }
    requires width_in_bounds { list.count * width ≤ length rows.old }
    ensures { rows.new ≡ over (sheet_of (take list.count (map record_of list.records))) rows.old 0 }
{
    for (index, kept) in list.records[..list.count].iter().enumerate() {
        let event = kept.event;
        let at = index * WIDTH;
        rows[at..at + WIDTH].copy_from_slice(&event_row(event.delta.0, event.kind));
    }
}

// Lays the rows of the silencing list from a channel and key into cells, from the first on, and answers how many they
// are. Refuses 18, then 20 where the cells are too few: then every cell is as it came.
fn put_silence(
    table: [[u8; KEYS]; CHANNELS],
    channel: u4,
    key: u7,
    rows: &mut [u64],
) -> Result<usize, Refusal>
    ensures { cells_said rows.new result ≡ silence_left (silence capacity table channel.0 key.0) rows.old }
{
    let list = silence(table, channel, key)?;
    if rows.len() < list.count * WIDTH {
        return Err(Refusal::NoRoom);
    }
    put_rows(list, rows);
    Ok(list.count)
}

// The bytes of the table after so many rows, where these are accepted.
fn bytes_after(rows: &[u64], count: usize, bytes: [u8; PLACES]) -> Result<[u8; PLACES], Refusal>
    ensures { bytes_said bytes result ≡ bytes_beside bytes (rows_accepted capacity rows.now count) }
{
    if CAPACITY < count {
        return Err(Refusal::TooManyEvents);
    }
    let list = list_in(rows, count)?;
    match after(table_in(bytes), list) {
        Err(Untaken { refusal, table: _ }) => Err(refusal), // a width
        Ok(left) => Ok(bytes_in(left)),
    }
}

// The table after so many rows, in place: each entry is the velocity of the last note message for it, 0 after a
// `NoteOff`, and as before if there was none. Refuses 21 where the rows are more than a list holds, then 18 where one is
// no event's or has a delta or a restricted field above its width, and leaves the table as it came.
#[unsafe(no_mangle)]
pub extern "C" fn apk_sounding_after(rows: &[u64], count: usize, table: &mut [u8; PLACES]) -> u8
    ensures { with_number table.new result ≡ bytes_beside table.old (rows_accepted capacity rows.now count) }
{
    told(bytes_after(rows, count, *table), table)
}

// How many keys of each channel sound.
#[unsafe(no_mangle)]
pub extern "C" fn apk_sounding_counts(table: &[u8; PLACES], sounding: &mut [u8; CHANNELS])
    ensures { sounding.new ≡ counts (table_in table.now) }
{
    *sounding = counts(table_in(*table));
}

// The silencing list from a channel and key, as rows, and how many they are. Refuses 18 where the channel or the key is
// above its width, then 20 where the cells are too few: then there are no rows, and every cell is as it came.
#[unsafe(no_mangle)]
pub extern "C" fn apk_sounding_silence(
    table: &[u8; PLACES],
    channel: u8,
    key: u8,
    rows: &mut [u64],
    count: &mut usize,
) -> u8
    ensures { cells_left rows.new count.new result ≡ silence_left (silence capacity (table_in table.now) channel key) rows.old }
{
    *count = 0;
    told(
        put_silence(table_in(*table), u4(channel), u7(key), rows),
        count,
    )
}
