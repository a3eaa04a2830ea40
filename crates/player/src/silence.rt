// The list that silences what sounds: a `NoteOff` for each sounding key, by channel, then key.
ghost use Rattle.std.specs.Prelude.{◌≡◌, ◌<◌, ◌/◌, ◌%◌};
ghost use Rattle.smf.specs.Kind.{note_off, midi};
ghost use Rattle.smf.specs.Event.{event};
ghost use Rattle.smf.specs.Lists.{holding};
ghost use Rattle.event.specs.Event.{event_of};
ghost use Rattle.track.specs.List.{capacity, held_of};
ghost use Rattle.player.specs.Table.{keys, places};
ghost use Rattle.player.specs.Sounding.{silence_from, silence};
ghost use Rattle.player.specs.Answers.{list_said, list_beside};

use crate::keys::{key_place, sounds};
use crate::table::{CHANNELS, KEYS, PLACES};
use base::{Refusal, u4, u7};
use event::{TrackEvent, TrackEventKind};
use midi::MidiMessage;
use number::u28;
use track::list::{CAPACITY, EventList};
use track::record::recorded;

// A `NoteOff` of a velocity, with delta 0, for the key at a place.
fn note_off(place: usize, velocity: u8) -> TrackEvent
    requires { place < places }
    ensures { event_of result ≡ event 0 (midi (place / keys) (note_off (place % keys) velocity)) }
{
    TrackEvent {
        delta: u28(0),
        kind: TrackEventKind::Midi {
            channel: u4((place / KEYS) as u8),
            message: MidiMessage::NoteOff {
                key: u7((place % KEYS) as u8),
                vel: u7(velocity),
            },
        },
    }
}

// A `NoteOff` of velocity 0 for each sounding key at or behind a place, as many as a list holds.
fn silence_from(table: [[u8; KEYS]; CHANNELS], from: usize) -> EventList
    ensures { held_of result ≡ holding capacity (silence_from capacity table from) }
{
    let mut list = EventList::new();
    for place in from..PLACES {
        if CAPACITY <= list.count {
            return list;
        }
        let velocity = table[place / KEYS][place % KEYS];
        if sounds(velocity) {
            list.records[list.count] = recorded(note_off(place, 0));
            list.count += 1;
        }
    }
    list
}

// The silencing list from a channel and key: a `NoteOff` with delta 0 and velocity 0 for each sounding key at or behind
// them, by channel, then key, the first so many as a list holds. Refuses 18 where the channel or the key is above its
// width.
pub fn silence(table: [[u8; KEYS]; CHANNELS], channel: u4, key: u7) -> Result<EventList, Refusal>
    ensures { list_said result ≡ list_beside capacity (silence capacity table channel.0 key.0) }
{
    if 0x10 <= channel.0 {
        return Err(Refusal::AboveWidth); // the channel
    }
    if 0x80 <= key.0 {
        return Err(Refusal::AboveWidth); // the key
    }
    Ok(silence_from(table, key_place(channel.0, key.0)))
}
