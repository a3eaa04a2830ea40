// A kind as it is listed: the Rust's variant name, then its fields in the Rust's order.
use base::Range;
use event::TrackEventKind;
use header::SmpteTime;
use meta::MetaMessage;
use midi::MidiMessage;
use std::fmt;

// The kind of an event, as it is listed.
#[derive(Clone, Copy)]
pub struct Kind(pub TrackEventKind);

impl fmt::Display for Kind {
    fn fmt<W: fmt::Write>(&self, f: &mut fmt::Formatter<W>) -> fmt::Result {
        match self.0 {
            TrackEventKind::Midi { channel, message } => midi(f, channel.0, message),
            TrackEventKind::SysEx(range) => loaded(f, "SysEx", range),
            TrackEventKind::Escape(range) => loaded(f, "Escape", range),
            TrackEventKind::Meta(message) => meta(f, message),
        }
    }
}

// A kind that is its payload alone: its start and its length in the input.
fn loaded<W: fmt::Write>(f: &mut fmt::Formatter<W>, name: &str, range: Range) -> fmt::Result {
    let start = range.start;
    let length = range.length;
    write!(f, "{name} {start} {length}")
}

// A channel message with one data byte.
fn one<W: fmt::Write>(f: &mut fmt::Formatter<W>, name: &str, channel: u8, a: u8) -> fmt::Result {
    write!(f, "{name} {channel} {a}")
}

// A channel message with two data bytes.
fn two<W: fmt::Write>(
    f: &mut fmt::Formatter<W>,
    name: &str,
    channel: u8,
    a: u8,
    b: u8,
) -> fmt::Result {
    write!(f, "{name} {channel} {a} {b}")
}

// A channel message; a bend is signed.
fn midi<W: fmt::Write>(
    f: &mut fmt::Formatter<W>,
    channel: u8,
    message: MidiMessage,
) -> fmt::Result {
    match message {
        MidiMessage::NoteOff { key, vel } => two(f, "NoteOff", channel, key.0, vel.0),
        MidiMessage::NoteOn { key, vel } => two(f, "NoteOn", channel, key.0, vel.0),
        MidiMessage::Aftertouch { key, vel } => two(f, "Aftertouch", channel, key.0, vel.0),
        MidiMessage::Controller { controller, value } => {
            two(f, "Controller", channel, controller.0, value.0)
        }
        MidiMessage::ProgramChange { program } => one(f, "ProgramChange", channel, program.0),
        MidiMessage::ChannelAftertouch { vel } => one(f, "ChannelAftertouch", channel, vel.0),
        MidiMessage::PitchBend { bend } => {
            let signed = i32::from(bend.0.0) - 0x2000;
            write!(f, "PitchBend {channel} {signed}")
        }
    }
}

// A track number, or `none` where it is missing.
fn track_number<W: fmt::Write>(f: &mut fmt::Formatter<W>, number: Option<u16>) -> fmt::Result {
    match number {
        Some(n) => write!(f, "TrackNumber {n}"),
        None => f.write_str("TrackNumber none"),
    }
}

// An SMPTE time, its rate last.
fn smpte_offset<W: fmt::Write>(f: &mut fmt::Formatter<W>, time: SmpteTime) -> fmt::Result {
    let hour = time.hour;
    let minute = time.minute;
    let second = time.second;
    let frame = time.frame;
    let subframe = time.subframe;
    let rate = time.fps.as_int();
    write!(
        f,
        "SmpteOffset {hour} {minute} {second} {frame} {subframe} {rate}"
    )
}

// A key signature: the sharps with their sign, then 1 for minor and 0 for major.
fn key_signature<W: fmt::Write>(f: &mut fmt::Formatter<W>, sharps: i8, minor: bool) -> fmt::Result {
    let minor = u8::from(minor);
    write!(f, "KeySignature {sharps} {minor}")
}

// A meta message.
fn meta<W: fmt::Write>(f: &mut fmt::Formatter<W>, message: MetaMessage) -> fmt::Result {
    match message {
        MetaMessage::TrackNumber(number) => track_number(f, number),
        MetaMessage::Text(range) => loaded(f, "Text", range),
        MetaMessage::Copyright(range) => loaded(f, "Copyright", range),
        MetaMessage::TrackName(range) => loaded(f, "TrackName", range),
        MetaMessage::InstrumentName(range) => loaded(f, "InstrumentName", range),
        MetaMessage::Lyric(range) => loaded(f, "Lyric", range),
        MetaMessage::Marker(range) => loaded(f, "Marker", range),
        MetaMessage::CuePoint(range) => loaded(f, "CuePoint", range),
        MetaMessage::ProgramName(range) => loaded(f, "ProgramName", range),
        MetaMessage::DeviceName(range) => loaded(f, "DeviceName", range),
        MetaMessage::MidiChannel(channel) => write!(f, "MidiChannel {}", channel.0),
        MetaMessage::MidiPort(port) => write!(f, "MidiPort {}", port.0),
        MetaMessage::EndOfTrack => f.write_str("EndOfTrack"),
        MetaMessage::Tempo(tempo) => write!(f, "Tempo {}", tempo.0),
        MetaMessage::SmpteOffset(time) => smpte_offset(f, time),
        MetaMessage::TimeSignature(a, b, c, d) => write!(f, "TimeSignature {a} {b} {c} {d}"),
        MetaMessage::KeySignature(sharps, minor) => key_signature(f, sharps, minor),
        MetaMessage::SequencerSpecific(range) => loaded(f, "SequencerSpecific", range),
        MetaMessage::Unknown(kind, range) => {
            let start = range.start;
            let length = range.length;
            write!(f, "Unknown {kind} {start} {length}")
        }
    }
}
