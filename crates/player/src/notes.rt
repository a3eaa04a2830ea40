// What a list of events leaves in a table: one entry is changed by each note message.
ghost use Rattle.std.specs.Prelude.{◌≡◌, map};
ghost use Rattle.event.specs.Event.{kind_of};
ghost use Rattle.track.specs.List.{capacity, record_of};
ghost use Rattle.player.specs.Notes.{note, kind_note};
ghost use Rattle.player.specs.Widths.{accepted};
ghost use Rattle.player.specs.Answers.{table_said, table_beside, note_said};

use crate::table::{CHANNELS, KEYS};
use crate::widths::event_within;
use base::{Refusal, u4, u7};
use event::TrackEventKind;
use midi::MidiMessage;
use track::list::{CAPACITY, EventList};

// A note message: the velocity that it leaves at a channel and key, which is 0 after a `NoteOff`.
#[derive(Clone, Copy)]
pub struct Note {
    pub channel: u8,
    pub key: u8,
    pub velocity: u8,
}

// A table that a list was not taken into, and why.
#[derive(Clone, Copy)]
pub struct Untaken {
    // 21 or 18
    pub refusal: Refusal,
    // the table as it came
    pub table: [[u8; KEYS]; CHANNELS],
}

// The note message that leaves a velocity at a channel and key.
fn leaving(channel: u4, key: u7, velocity: u8) -> Option<Note>
    ensures { note_said result ≡ note channel.0 key.0 velocity }
{
    Some(Note {
        channel: channel.0,
        key: key.0,
        velocity,
    })
}

// The note message that a kind is, if it is one. A `NoteOff` leaves 0, a `NoteOn` its velocity, which may be 0.
fn note_of(kind: TrackEventKind) -> Option<Note>
    ensures { note_said result ≡ kind_note (kind_of kind) }
{
    match kind {
        TrackEventKind::Midi { channel, message } => match message {
            MidiMessage::NoteOff { key, vel: _ } => leaving(channel, key, 0),
            MidiMessage::NoteOn { key, vel } => leaving(channel, key, vel.0),
            _ => None,
        },
        _ => None,
    }
}

// The table after a list: each entry is the velocity of the last note message for it, 0 after a `NoteOff`, and as before
// if there was none. Refuses 21 where the list counts more than it holds, then 18 where a delta or a restricted field of
// an event is above its width, and gives the table back as it came.
pub fn after(
    table: [[u8; KEYS]; CHANNELS],
    list: EventList,
) -> Result<[[u8; KEYS]; CHANNELS], Untaken>
    ensures { table_said result ≡ table_beside table (accepted capacity (map record_of list.records) list.count) }
{
    if CAPACITY < list.count {
        let refusal = Refusal::TooManyEvents;
        return Err(Untaken { refusal, table });
    }
    let mut left = table;
    for kept in &list.records[..list.count] {
        let event = kept.event;
        if !event_within(event) {
            let refusal = Refusal::AboveWidth; // whatever the events before it left
            return Err(Untaken { refusal, table });
        }
        if let Some(note) = note_of(event.kind) {
            left[usize::from(note.channel)][usize::from(note.key)] = note.velocity;
        }
    }
    Ok(left)
}
