// Short events, read straight into their rows. Most of a track is channel messages with a delta of one byte: such a one is
// taken here from its bytes to its cells, with no event and no enum in between, which would be handed over in memory. It
// is what the general way, `TrackEvent::read` and `event_row`, makes of it; all else goes that way.
ghost use Rattle.std.specs.Prelude.{◌≡◌, true, ◌+◌, ◌/◌, ◌≤◌, ◌<◌, length};
ghost use Rattle.smf.specs.Running.{is_running};
ghost use Rattle.rows.specs.Rows.{event_row};
ghost use Rattle.rows.specs.Short.{ShortAt, ShortData, short_event};

use crate::WIDTH;
use base::Running;

// A channel message with a delta of one byte.
#[derive(Clone, Copy)]
pub struct Short {
    // how many bytes it has
    pub used: usize,
    // its status, which is the running status after it
    pub status: u8,
    // its data bytes, the second 0 where it has one alone
    pub a: u8,
    pub b: u8,
}

// The data of a channel message, whose status is 80..EF and whose event began at a place.
fn short_data(raw: &[u8], at: usize, place: usize, status: u8) -> Option<Short>
    requires { (at ≤ place) × (place + 2 ≤ length raw.now) }
    ensures { ShortData raw.now at place status result }
{
    let a = raw[place];
    if 0x80 <= a {
        return None;
    }
    if status / 32 == 6 { // C0..DF have one data byte
        return Some(Short {
            used: place + 1 - at,
            status,
            a,
            b: 0,
        });
    }
    let b = raw[place + 1];
    if 0x80 <= b {
        return None;
    }
    Some(Short {
        used: place + 2 - at,
        status,
        a,
        b,
    })
}

// The short event at a place, from a running status that is valid. Near the end of the bytes none is looked for: four
// bytes are the most that one can have, and then each of them is there.
pub fn short_at(raw: &[u8], at: usize, running: Running) -> Option<Short>
    requires { is_running running.status ≡ true }
    ensures { ShortAt raw.now at running.status result }
{
    if raw.len() < 4 {
        return None;
    }
    if raw.len() - 4 < at {
        return None;
    }
    if 0x80 <= raw[at] {
        return None;
    }
    let byte = raw[at + 1];
    if 0xF0 <= byte {
        return None;
    }
    // With a status byte of its own and without: the two ways meet, so that no branch is taken on which it is.
    let mut status = running.status;
    let mut place = at + 1;
    if 0x80 <= byte {
        status = byte;
        place = at + 2;
    }
    if status == 0 { // none, by the 0 of `base::Running`, the lent running status that docs/RULES.md names
        return None;
    }
    short_data(raw, at, place, status)
}

// The row of a short event. Its status is 80..EF, as in `event`: a type that says so would be public and could not demand it.
pub fn short_row(delta: u8, status: u8, a: u8, b: u8) -> [u64; WIDTH]
    requires { (0x80 ≤ status) × (status < 0xF0) × (status / 32 ≡ 6 → b ≡ 0) }
    ensures { result ≡ event_row (short_event delta status a b) }
{
    let kind = (status / 16) as u64;
    let channel = (status % 16) as u64;
    if kind == 14 { // a bend is one number
        let bend = a as u64 + 128 * (b as u64);
        return [delta as u64, kind, channel, bend, 0, 0, 0, 0, 0, 0];
    }
    [
        delta as u64,
        kind,
        channel,
        a as u64,
        b as u64,
        0,
        0,
        0,
        0,
        0,
    ]
}
