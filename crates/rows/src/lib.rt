// An event as a row of numbers: the delta, the kind's number, six fields, the payload's start and length.
// Rows are what the entries hand to C and take from it, and what sameness compares. Bytes, a place in them, a running status
// and rules go in side by side, and no struct holds them: public functions take them so (docs/RULES.md, "What must change
// shape": a place goes in), and those below hand them on.
#![tactic(auto)]

pub mod back;
pub mod lists;
pub mod one;
mod short;

ghost use Rattle.std.specs.Prelude.{◌≡◌, [], ◌∷◌};
ghost use Rattle.smf.specs.Kind.{smpte_offset, key_signature};
ghost use Rattle.header.specs.Smpte.{smpte_time_of};
ghost use Rattle.midi.specs.Midi.{message_of};
ghost use Rattle.meta.specs.Meta.{number_meta, meta_of};
ghost use Rattle.event.specs.Event.{kind_of};
ghost use Rattle.rows.specs.Rows.{row_numbers, midi_row, meta_row, kind_row};

use base::Range;
use event::TrackEventKind;
use header::SmpteTime;
use header::signed::to_byte;
use meta::MetaMessage;
use midi::MidiMessage;

// How many cells a row has.
pub const WIDTH: usize = 10;

// A row without its delta, each number in the integer that it needs.
#[derive(Clone, Copy)]
pub struct Row {
    pub kind: u16,
    pub a: u32,
    pub b: u16,
    pub c: u8,
    pub d: u8,
    pub e: u8,
    pub f: u8,
    pub start: usize,
    pub length: usize,
}

// The row of a kind with up to four fields and no payload.
fn fields(kind: u16, a: u32, b: u16, c: u8, d: u8) -> Row
    ensures { row_numbers result ≡ kind ∷ a ∷ b ∷ c ∷ d ∷ 0 ∷ 0 ∷ 0 ∷ 0 ∷ [] }
{
    Row {
        kind,
        a,
        b,
        c,
        d,
        e: 0,
        f: 0,
        start: 0,
        length: 0,
    }
}

// The row of a kind whose fields are bytes, with no payload. Numbers are widened by `as` in this file: `From` would do for
// some of them alone, since none goes from a `usize` to a `u64`, and is no plainer for the others beside them.
fn bytes(kind: u16, a: u8, b: u8, c: u8, d: u8) -> Row
    ensures { row_numbers result ≡ kind ∷ a ∷ b ∷ c ∷ d ∷ 0 ∷ 0 ∷ 0 ∷ 0 ∷ [] }
{
    fields(kind, a as u32, b as u16, c, d)
}

// The row of a kind that carries a payload, and of `Unknown` its type.
fn loaded(kind: u16, a: u8, load: Range) -> Row
    ensures { row_numbers result ≡ kind ∷ a ∷ 0 ∷ 0 ∷ 0 ∷ 0 ∷ 0 ∷ load.start ∷ load.length ∷ [] }
{
    Row {
        kind,
        a: a as u32,
        b: 0,
        c: 0,
        d: 0,
        e: 0,
        f: 0,
        start: load.start,
        length: load.length,
    }
}

// The row of a channel message: the upper half of its status is its number, and the channel its first field.
fn midi_row(channel: u8, message: MidiMessage) -> Row
    ensures { row_numbers result ≡ midi_row channel (message_of message) }
{
    match message {
        MidiMessage::NoteOff { key, vel } => bytes(8, channel, key.0, vel.0, 0),
        MidiMessage::NoteOn { key, vel } => bytes(9, channel, key.0, vel.0, 0),
        MidiMessage::Aftertouch { key, vel } => bytes(10, channel, key.0, vel.0, 0),
        MidiMessage::Controller { controller, value } => {
            bytes(11, channel, controller.0, value.0, 0)
        }
        MidiMessage::ProgramChange { program } => bytes(12, channel, program.0, 0, 0),
        MidiMessage::ChannelAftertouch { vel } => bytes(13, channel, vel.0, 0, 0),
        MidiMessage::PitchBend { bend } => {
            let raw = bend.0;
            fields(14, channel as u32, raw.0, 0, 0)
        }
    }
}

// The row of a track number: 1 and the number where it is there, 0 and 0 where it is missing.
fn number_row(n: Option<u16>) -> Row
    ensures { row_numbers result ≡ meta_row (number_meta n) }
{
    match n {
        Some(x) => fields(0x100, 1, x, 0, 0),
        None => bytes(0x100, 0, 0, 0, 0),
    }
}

// The row of an SMPTE time, with its rate last.
fn time_row(t: SmpteTime) -> Row
    ensures { row_numbers result ≡ meta_row (smpte_offset (smpte_time_of t)) }
{
    let fps = t.fps;
    Row {
        kind: 0x154,
        a: t.hour as u32,
        b: t.minute as u16,
        c: t.second,
        d: t.frame,
        e: t.subframe,
        f: fps.as_int(),
        start: 0,
        length: 0,
    }
}

// The row of a key signature: the byte of its sharps, then 1 for minor and 0 for major. What may not change: the `bool` is
// the Rust's, as `MetaMessage::KeySignature` holds it.
fn key_row(sharps: i8, minor: bool) -> Row
    ensures { row_numbers result ≡ meta_row (key_signature sharps minor) }
{
    bytes(0x159, to_byte(sharps), u8::from(minor), 0, 0)
}

// The row of a meta message: its number is 0x100 and its type, and 0x200 for `Unknown`.
fn meta_row(message: MetaMessage) -> Row
    ensures { row_numbers result ≡ meta_row (meta_of message) }
{
    match message {
        MetaMessage::TrackNumber(n) => number_row(n),
        MetaMessage::Text(load) => loaded(0x101, 0, load),
        MetaMessage::Copyright(load) => loaded(0x102, 0, load),
        MetaMessage::TrackName(load) => loaded(0x103, 0, load),
        MetaMessage::InstrumentName(load) => loaded(0x104, 0, load),
        MetaMessage::Lyric(load) => loaded(0x105, 0, load),
        MetaMessage::Marker(load) => loaded(0x106, 0, load),
        MetaMessage::CuePoint(load) => loaded(0x107, 0, load),
        MetaMessage::ProgramName(load) => loaded(0x108, 0, load),
        MetaMessage::DeviceName(load) => loaded(0x109, 0, load),
        MetaMessage::MidiChannel(c) => bytes(0x120, c.0, 0, 0, 0),
        MetaMessage::MidiPort(c) => bytes(0x121, c.0, 0, 0, 0),
        MetaMessage::EndOfTrack => bytes(0x12F, 0, 0, 0, 0),
        MetaMessage::Tempo(v) => fields(0x151, v.0, 0, 0, 0),
        MetaMessage::SmpteOffset(t) => time_row(t),
        MetaMessage::TimeSignature(a, b, c, d) => bytes(0x158, a, b, c, d),
        MetaMessage::KeySignature(sharps, minor) => key_row(sharps, minor),
        MetaMessage::SequencerSpecific(load) => loaded(0x17F, 0, load),
        MetaMessage::Unknown(t, load) => loaded(0x200, t, load),
    }
}

// The row of a kind, which sameness compares: the delta stands beside it.
pub fn kind_row(kind: TrackEventKind) -> Row
    ensures { row_numbers result ≡ kind_row (kind_of kind) }
{
    match kind {
        TrackEventKind::Midi { channel, message } => midi_row(channel.0, message),
        TrackEventKind::SysEx(load) => loaded(0xF0, 0, load),
        TrackEventKind::Escape(load) => loaded(0xF7, 0, load),
        TrackEventKind::Meta(message) => meta_row(message),
    }
}

// The row of an event, as cells for the caller.
pub fn event_row(delta: u32, kind: TrackEventKind) -> [u64; WIDTH]
    ensures { result ≡ delta ∷ kind_row (kind_of kind) }
{
    let row = kind_row(kind);
    [
        delta as u64,
        row.kind as u64,
        row.a as u64,
        row.b as u64,
        row.c as u64,
        row.d as u64,
        row.e as u64,
        row.f as u64,
        row.start as u64,
        row.length as u64,
    ]
}
