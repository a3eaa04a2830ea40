// The door of an event: what stands behind its delta, the Rust's `MidiMessage::write` and `MetaMessage::write` before
// anything is put anywhere, or the number of what forbids it.
ghost use Rattle.std.specs.Prelude.{◌≡◌, List, ◌&&◌, ℕ, ◌+◌, ◌*◌, ◌/◌, ◌%◌, ◌<◌, ltb};
ghost use Rattle.smf.specs.Answer.{pick, gives, refuses};
ghost use Rattle.smf.specs.Wire as wire;
ghost use Rattle.smf.specs.Kind.{midi, meta};
ghost use Rattle.smf.specs.Event.{legal};
ghost use Rattle.base.specs.Rules.{rules_of};
ghost use Rattle.midi.specs.Midi.{message_of};
ghost use Rattle.meta.specs.Meta.{number_meta, meta_of};
ghost use Rattle.event.specs.Event.{kind_of, event_of};
ghost use Rattle.smf.specs.Answer as smf;
ghost use Rattle.write.specs.Raw.{made_said, judged_said, raw_kind, raw_judged};

use crate::make::{
    channel as channel_message, key, narrow, own_bytes, signature, system, tempo, time,
    track_number, typed, unknown,
};
use crate::raw::{Raw, RawEvent, behind};
use base::{Refusal, Rules, u4, u7};
use event::{TrackEvent, TrackEventKind};
use header::signed::to_byte;
use meta::MetaMessage;
use midi::MidiMessage;

// A channel message with two data bytes.
fn two(upper: u64, channel: u64, a: u7, b: u7) -> Result<Raw, Refusal>
    requires { upper < 15 }
    ensures { (bytes : List ℕ) → made_said bytes result ≡ pick (ltb channel 16 && (ltb a.0 128 && ltb b.0 128)) (gives (wire.two (upper * 16 + channel) a.0 b.0)) (refuses 18) }
{
    channel_message(upper, channel, true, u64::from(a.0), u64::from(b.0))
}

// A bend, which has its low seven bits first, where all else has the high byte first.
fn pitch(channel: u64, bend: u64) -> Result<Raw, Refusal>
    ensures { (bytes : List ℕ) → made_said bytes result ≡ pick (ltb channel 16 && ltb bend 16384) (gives (wire.two (0xE0 + channel) (bend % 128) (bend / 128))) (refuses 18) }
{
    channel_message(14, channel, true, bend % 128, bend / 128)
}

// A channel message with its channel.
fn message(channel: u4, message: MidiMessage) -> Result<Raw, Refusal>
    ensures { (rules : smf.Rules) (bytes : List ℕ) → made_said bytes result ≡ raw_kind rules bytes (midi channel.0 (message_of message)) }
{
    let ch = u64::from(channel.0);
    match message {
        MidiMessage::NoteOff { key, vel } => two(8, ch, key, vel),
        MidiMessage::NoteOn { key, vel } => two(9, ch, key, vel),
        MidiMessage::Aftertouch { key, vel } => two(10, ch, key, vel),
        MidiMessage::Controller { controller, value } => two(11, ch, controller, value),
        MidiMessage::ProgramChange { program } => channel_message(
            12,
            ch,
            false,
            u64::from(program.0),
            0,
        ),
        MidiMessage::ChannelAftertouch { vel } => channel_message(
            13,
            ch,
            false,
            u64::from(vel.0),
            0,
        ),
        MidiMessage::PitchBend { bend } => pitch(ch, u64::from(bend.0.0)),
    }
}

// A track number, or a missing one, which is written with no bytes: no conversion, since it makes what stands behind a delta.
fn number(number: Option<u16>) -> Result<Raw, Refusal>
    ensures { (rules : smf.Rules) (bytes : List ℕ) → made_said bytes result ≡ raw_kind rules bytes (meta (number_meta number)) }
{
    match number {
        Some(n) => track_number(u64::from(n)),
        None => own_bytes(0x00, 0, 0, 0),
    }
}

// A meta message.
fn meta(message: MetaMessage, rules: Rules, bytes: &[u8]) -> Result<Raw, Refusal>
    ensures { made_said bytes.now result ≡ raw_kind (rules_of rules) bytes.now (meta (meta_of message)) }
{
    match message {
        MetaMessage::TrackNumber(n) => number(n),
        MetaMessage::Text(load) => typed(0x01, load, bytes),
        MetaMessage::Copyright(load) => typed(0x02, load, bytes),
        MetaMessage::TrackName(load) => typed(0x03, load, bytes),
        MetaMessage::InstrumentName(load) => typed(0x04, load, bytes),
        MetaMessage::Lyric(load) => typed(0x05, load, bytes),
        MetaMessage::Marker(load) => typed(0x06, load, bytes),
        MetaMessage::CuePoint(load) => typed(0x07, load, bytes),
        MetaMessage::ProgramName(load) => typed(0x08, load, bytes),
        MetaMessage::DeviceName(load) => typed(0x09, load, bytes),
        MetaMessage::MidiChannel(channel) => narrow(0x20, 16, u64::from(channel.0)),
        MetaMessage::MidiPort(port) => narrow(0x21, 128, u64::from(port.0)),
        MetaMessage::EndOfTrack => own_bytes(0x2F, 0, 0, 0),
        MetaMessage::Tempo(v) => tempo(u64::from(v.0)),
        MetaMessage::SmpteOffset(t) => time(t, rules),
        MetaMessage::TimeSignature(a, b, c, d) => signature(a, b, c, d),
        MetaMessage::KeySignature(sharps, minor) => key(to_byte(sharps), minor),
        MetaMessage::SequencerSpecific(load) => typed(0x7F, load, bytes),
        MetaMessage::Unknown(type_byte, load) => unknown(type_byte, load, rules, bytes),
    }
}

// What stands behind the delta, of every kind.
fn kind(kind: TrackEventKind, rules: Rules, bytes: &[u8]) -> Result<Raw, Refusal>
    ensures { made_said bytes.now result ≡ raw_kind (rules_of rules) bytes.now (kind_of kind) }
{
    match kind {
        TrackEventKind::Midi { channel, message } => crate::event_door::message(channel, message),
        TrackEventKind::SysEx(load) => system(0xF0, load, bytes),
        TrackEventKind::Escape(load) => system(0xF7, load, bytes),
        TrackEventKind::Meta(message) => meta(message, rules, bytes),
    }
}

// An event through its door: its raw form, or the number of what forbids it.
pub fn event_raw(event: TrackEvent, rules: Rules, bytes: &[u8]) -> Result<RawEvent, Refusal>
    ensures { judged_said bytes.now result ≡ raw_judged (legal (rules_of rules) bytes.now (event_of event)) }
{
    behind(event.delta, kind(event.kind, rules, bytes))
}
