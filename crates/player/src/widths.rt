// Whether the delta and the restricted fields of an event are within their widths. Nothing else of it is looked at.
ghost use Rattle.std.specs.Prelude.{◌≡◌, ◌&&◌};
ghost use Rattle.midi.specs.Midi.{message_of};
ghost use Rattle.meta.specs.Meta.{meta_of};
ghost use Rattle.event.specs.Event.{kind_of, event_of};
ghost use Rattle.player.specs.Widths.{within, message_within, meta_within, kind_within, event_within};

use event::{TrackEvent, TrackEventKind};
use meta::MetaMessage;
use midi::MidiMessage;

// Whether two numbers are data bytes.
fn two(a: u8, b: u8) -> bool
    ensures { result ≡ (within 7 a && within 7 b) }
{
    a < 0x80 && b < 0x80
}

// Whether the fields of a channel message are within their widths.
#[tactic(auto, unfolding(crate::specs::Widths::message_within))]
fn message_within(message: MidiMessage) -> bool
    ensures { result ≡ message_within (message_of message) }
{
    match message {
        MidiMessage::NoteOff { key, vel }
        | MidiMessage::NoteOn { key, vel }
        | MidiMessage::Aftertouch { key, vel } => two(key.0, vel.0),
        MidiMessage::Controller { controller, value } => two(controller.0, value.0),
        MidiMessage::ProgramChange { program } => program.0 < 0x80,
        MidiMessage::ChannelAftertouch { vel } => vel.0 < 0x80,
        MidiMessage::PitchBend { bend } => bend.0.0 < 0x4000,
    }
}

// Whether the channel, the port or the tempo of a meta message is; no other has a restricted field.
#[tactic(auto, unfolding(crate::specs::Widths::meta_within))]
fn meta_within(message: MetaMessage) -> bool
    ensures { result ≡ meta_within (meta_of message) }
{
    match message {
        MetaMessage::MidiChannel(channel) => channel.0 < 0x10,
        MetaMessage::MidiPort(port) => port.0 < 0x80,
        MetaMessage::Tempo(tempo) => tempo.0 < 0x100_0000,
        _ => true,
    }
}

// Whether the channel and the other restricted fields of a kind are within their widths.
#[tactic(auto, unfolding(crate::specs::Widths::kind_within))]
fn kind_within(kind: TrackEventKind) -> bool
    ensures { result ≡ kind_within (kind_of kind) }
{
    match kind {
        TrackEventKind::Midi { channel, message } => channel.0 < 0x10 && message_within(message),
        TrackEventKind::Meta(message) => meta_within(message),
        TrackEventKind::SysEx(_) | TrackEventKind::Escape(_) => true,
    }
}

// Whether the delta of an event, its channel and its other restricted fields are within their widths.
#[tactic(auto, unfolding(crate::specs::Widths::event_within))]
pub fn event_within(event: TrackEvent) -> bool
    ensures { result ≡ event_within (event_of event) }
{
    event.delta.0 < 0x1000_0000 && kind_within(event.kind)
}
