// The entries of `player::entries` for C.
ghost use Rattle.std.specs.Prelude.{◌≡◌};
ghost use Rattle.track.specs.List.{capacity};
ghost use Rattle.player.specs.Sounding.{counts, silence};
ghost use Rattle.player.specs.Answers.{with_number};
ghost use Rattle.player.specs.Entries.{table_in, rows_accepted, bytes_beside, cells_left, silence_left};

use player::table::{CHANNELS, PLACES};

// The table after so many rows, in place: each entry is the velocity of the last note message for it, 0 after a
// `NoteOff`, and as before if there was none. Refuses 21 where the rows are more than a list holds, then 18 where one is
// no event's or has a delta or a restricted field above its width, and leaves the table as it came.
#[unsafe(no_mangle)]
pub extern "C" fn apk_sounding_after(rows: &[u64], count: usize, table: &mut [u8; PLACES]) -> u8
    ensures { with_number table.new result ≡ bytes_beside table.old (rows_accepted capacity rows.now count) }
{
    player::entries::apk_sounding_after(rows, count, table)
}

// How many keys of each channel sound.
#[unsafe(no_mangle)]
pub extern "C" fn apk_sounding_counts(table: &[u8; PLACES], sounding: &mut [u8; CHANNELS])
    ensures { sounding.new ≡ counts (table_in table.now) }
{
    player::entries::apk_sounding_counts(table, sounding)
}

// The silencing list from a channel and key, as rows, and how many they are. Refuses 18 where the channel or the key is
// above its width, then 20 where the cells are too few: then there are no rows, and every cell is as it came.
#[unsafe(no_mangle)]
pub extern "C" fn apk_sounding_silence(
    table: &[u8; PLACES],
    channel: u8,
    key: u8,
    rows: &mut [u64],
    count: &mut usize,
) -> u8
    ensures { cells_left rows.new count.new result ≡ silence_left (silence capacity (table_in table.now) channel key) rows.old }
{
    player::entries::apk_sounding_silence(table, channel, key, rows, count)
}
