// One key of a table: whether it sounds, and its place among the entries.
ghost use Rattle.std.specs.Prelude.{◌≡◌, not, eqb};
ghost use Rattle.player.specs.Table.{key_place};

use crate::table::KEYS;

// Whether a key with this entry sounds.
pub fn sounds(velocity: u8) -> bool
    ensures { result ≡ not (eqb velocity 0) }
{
    velocity != 0
}

// The place of a channel and key.
pub fn key_place(channel: u8, key: u8) -> usize
    ensures { result ≡ key_place channel key }
{
    usize::from(channel) * KEYS + usize::from(key)
}
