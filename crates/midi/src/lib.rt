// Channel messages, and the bends that one of them holds.
#![tactic(auto)]

pub mod bend;
mod lengths;

ghost use Rattle.std.specs.Prelude.{◌≡◌};
ghost use Rattle.smf.specs.Wire.{table_length};

use crate::lengths::LENGTH_BY_STATUS;
use base::{u7, u14};

// How far notes are bent, as a file has it, the raw bend: 0x2000 is no bend.
#[derive(Clone, Copy, Debug, PartialEq, Eq)]
pub struct PitchBend(pub u14);

// What a channel is told. The channel stands in the event's kind.
#[derive(Clone, Copy, Debug, PartialEq, Eq)]
pub enum MidiMessage {
    // 8: stop a note, with the speed at which its key is let go
    NoteOff { key: u7, vel: u7 },
    // 9: play a note, as hard as the velocity says. Velocity 0 stops it by custom, and stays a note-on here
    NoteOn { key: u7, vel: u7 },
    // A: how hard the key of one sounding note is pressed now
    Aftertouch { key: u7, vel: u7 },
    // B: set a controller, as the volume or a pedal
    Controller { controller: u7, value: u7 },
    // C: play by another program, that is with another sound
    ProgramChange { program: u7 },
    // D: how hard the keys of all sounding notes are pressed now
    ChannelAftertouch { vel: u7 },
    // E: bend the notes of the channel
    PitchBend { bend: PitchBend },
}

impl MidiMessage {
    // How many data bytes a message has behind its status byte; 0 for what is no channel status.
    pub fn msg_length(status: u8) -> u8
        ensures { result ≡ table_length status }
    {
        LENGTH_BY_STATUS[status as usize]
    }
}
