// The table: the velocity of each key of each channel, 0 for a key that does not sound.
ghost use Rattle.std.specs.Prelude.{◌≡◌};
ghost use Rattle.player.specs.Table.{fresh};
ghost use Rattle.player.specs.Sounding.{sounding_count, counts};

use crate::keys::sounds;

// How many channels a table has.
pub const CHANNELS: usize = 16;

// How many keys a channel has.
pub const KEYS: usize = 128;

// How many entries a table has. They have an order, channel by channel and by key, and a place in it.
pub const PLACES: usize = CHANNELS * KEYS;

// A fresh table: no key sounds. Tables are arrays of arrays by value, a form that document 01 names (docs/DECISIONS.md).
pub fn fresh() -> [[u8; KEYS]; CHANNELS]
    ensures { result ≡ fresh }
{
    [[0; KEYS]; CHANNELS]
}

// How many keys of a channel sound.
fn count(channel: [u8; KEYS]) -> u8
    ensures { result ≡ sounding_count channel }
{
    let mut sounding: u8 = 0; // `filter` with `count` would give a usize to be narrowed again, which is no plainer
    for velocity in &channel {
        if sounds(*velocity) {
            sounding += 1;
        }
    }
    sounding
}

// How many keys of each channel sound: those whose entry is not 0.
pub fn counts(table: [[u8; KEYS]; CHANNELS]) -> [u8; CHANNELS]
    ensures { result ≡ counts table }
{
    table.map(count)
}
