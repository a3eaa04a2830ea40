// A channel message of its status and its data: the Rust's `MidiMessage::read`, which panics outside 80..EF. It stands
// here and is private, since the reader of events asks for no other status, and a public function could not demand that.
ghost use Rattle.std.specs.Prelude.{◌≡◌, ◌≤◌, ◌<◌};
ghost use Rattle.smf.proofs.Reading.{message_with};
ghost use Rattle.midi.specs.Midi.{message_of};

use base::{u7, u14};
use midi::{MidiMessage, PitchBend};

// The message of a status byte and its data, of which a status with one data byte uses the first alone.
pub fn read(status: u8, first: u7, second: u7) -> MidiMessage
    requires { (0x80 ≤ status) × (status < 0xF0) }
    ensures { message_of result ≡ message_with status first.0 second.0 }
{
    let upper = status / 16;
    match upper {
        0x8 => MidiMessage::NoteOff {
            key: first,
            vel: second,
        },
        0x9 => MidiMessage::NoteOn {
            key: first,
            vel: second,
        },
        0xA => MidiMessage::Aftertouch {
            key: first,
            vel: second,
        },
        0xB => MidiMessage::Controller {
            controller: first,
            value: second,
        },
        0xC => MidiMessage::ProgramChange { program: first },
        0xD => MidiMessage::ChannelAftertouch { vel: first },
        _ => {
            // a bend has its low seven bits first, where all else in a file has the high byte first
            let lsb = u16::from(first.0);
            let msb = u16::from(second.0);
            MidiMessage::PitchBend {
                bend: PitchBend(u14(lsb + 128 * msb)),
            }
        }
    }
}
