// Module 5 of document 01: meta messages, read. A payload is its range of the bytes lent.
#![tactic(auto)]

ghost use Rattle.std.specs.Prelude.{◌≡◌, ◌≤◌, ◌<◌, eqb, Ok};
ghost use Rattle.smf.specs.Place.{Span};
ghost use Rattle.smf.specs.Answer.{pick};
ghost use Rattle.smf.specs.Answer as smf;
ghost use Rattle.smf.specs.Kind.{track_number_of, midi_channel, midi_port};
ghost use Rattle.smf.specs.Kind as kind;
ghost use Rattle.smf.specs.Event.{map_meta};
ghost use Rattle.smf.specs.MetaAt.{meta_at};
ghost use Rattle.base.specs.Rules.{rules_of};
ghost use Rattle.base.specs.Said.{said};
ghost use Rattle.meta.specs.Meta.{span_of, number_meta, meta_of, meta_read};
ghost use Rattle.meta.specs.Named.{found, called};
ghost use Rattle.meta.specs.Narrow.{Narrow};

use base::{Range, Refusal, Rules, u4, u7, u24};
use header::SmpteTime;
use header::field::word;
use header::signed::from_byte;
use number::payload::{Payload, read_varlen_slice};

// What a track says beside the music. Text is a payload of any bytes.
#[derive(Clone, Copy)]
pub enum MetaMessage {
    // 00: the number of a sequence
    TrackNumber(Option<u16>),
    // 01: any text
    Text(Range),
    // 02: a copyright notice
    Copyright(Range),
    // 03: the name of the track, or of the sequence
    TrackName(Range),
    // 04: what plays the track
    InstrumentName(Range),
    // 05: a syllable that is sung
    Lyric(Range),
    // 06: the name of a point in the music
    Marker(Range),
    // 07: what happens at this point, as on a stage
    CuePoint(Range),
    // 08: the name of a program
    ProgramName(Range),
    // 09: the name of a device
    DeviceName(Range),
    // 20: the channel that the messages behind it speak of
    MidiChannel(u4),
    // 21: the port that the track is sent to
    MidiPort(u7),
    // 2F: the track ends here. Reading goes on where bytes follow
    EndOfTrack,
    // 51: microseconds in a beat, from here on
    Tempo(u24),
    // 54: the time of day at which the track begins
    SmpteOffset(SmpteTime),
    // 58: numerator, denominator as a power of two, MIDI clocks in a click, 32nd notes in a beat
    TimeSignature(u8, u8, u8, u8),
    // 59: how many sharps, below 0 flats; whether the key is minor
    KeySignature(i8, bool),
    // 7F: bytes for a sequencer of one make
    SequencerSpecific(Range),
    // any other type, and 20, 21, 51, 54 and 58 that are too short: the type byte and the payload as it is
    Unknown(u8, Range),
}

// A meta message that was read at a place.
#[derive(Clone, Copy)]
pub struct MetaAt {
    // the message
    pub message: MetaMessage,
    // the place behind its payload
    pub next: usize,
    // the padding of its payload's number
    pub padding: usize,
}

// 00, a track number: the first two bytes of the payload, or missing where there are fewer.
fn track_number(bytes: &[u8]) -> Option<u16>
    ensures { (span : Span) → number_meta result ≡ map_meta (λ p. span) (track_number_of bytes.now) }
{
    match bytes {
        [high, low, ..] => Some(word(*high, *low)),
        _ => None,
    }
}

// 20 or 21, a channel or a port of a byte that is below its limit.
fn narrow_kind(type_byte: u8, byte: u8) -> MetaMessage
    ensures { meta_of result ≡ pick (eqb type_byte 0x20) (midi_channel byte) (midi_port byte) }
{
    if type_byte == 0x20 {
        return MetaMessage::MidiChannel(u4(byte));
    }
    MetaMessage::MidiPort(u7(byte))
}

// 20 and 21, a channel and a port: the first byte of the payload, or nothing where there is none. One that is not below
// the limit is refused by 12, or leniently keeps its low bits.
fn narrow(
    type_byte: u8,
    limit: u8,
    bytes: &[u8],
    rules: Rules,
) -> Result<Option<MetaMessage>, Refusal>
    requires { Narrow type_byte limit }
    ensures { (load : Span) → found type_byte load result ≡ called (rules_of rules) type_byte bytes.now load }
{
    let [byte, ..] = bytes else {
        return Ok(None);
    };
    if *byte < limit {
        return Ok(Some(narrow_kind(type_byte, *byte)));
    }
    if rules.strict {
        return Err(Refusal::ChannelOrPort);
    }
    Ok(Some(narrow_kind(type_byte, *byte % limit)))
}

// 51, a tempo: three bytes, the highest first.
fn tempo(bytes: &[u8]) -> Option<MetaMessage>
    ensures { (rules : smf.Rules) (load : Span) → found 0x51 load (Ok result) ≡ called rules 0x51 bytes.now load }
{
    let [high, middle, low, ..] = bytes else {
        return None;
    };
    let below = u32::from(word(*middle, *low));
    Some(MetaMessage::Tempo(u24(u32::from(*high) * 65536 + below)))
}

// 54, an SMPTE time of five bytes; 13 where it is outside its ranges.
fn smpte_offset(bytes: &[u8], rules: Rules) -> Result<Option<MetaMessage>, Refusal>
    ensures { (load : Span) → found 0x54 load result ≡ called (rules_of rules) 0x54 bytes.now load }
{
    let [hour, minute, second, frame, subframe, ..] = bytes else {
        return Ok(None);
    };
    let time = SmpteTime::read([*hour, *minute, *second, *frame, *subframe], rules)?;
    Ok(Some(MetaMessage::SmpteOffset(time)))
}

// 58, a time signature of four bytes, which may be any.
fn time_signature(bytes: &[u8]) -> Option<MetaMessage>
    ensures { (rules : smf.Rules) (load : Span) → found 0x58 load (Ok result) ≡ called rules 0x58 bytes.now load }
{
    match bytes {
        [a, b, c, d, ..] => Some(MetaMessage::TimeSignature(*a, *b, *c, *d)),
        _ => None,
    }
}

// 59, a key signature: refused by 14 where it is short, and not made `Unknown` as its neighbours are, since the Rust
// does so.
fn key_signature(bytes: &[u8]) -> Result<MetaMessage, Refusal>
    ensures { (rules : smf.Rules) (load : Span) → said meta_of result ≡ called rules 0x59 bytes.now load }
{
    let [sharps, minor, ..] = bytes else {
        return Err(Refusal::KeySignatureShort);
    };
    Ok(MetaMessage::KeySignature(from_byte(*sharps), *minor != 0))
}

// 01 to 09, the text kinds, each of which holds its payload as it is. The rows make them of 0x101 to 0x109 in a function of
// their own: one for both would be public, so that it might demand nothing and would have to refuse every other type.
fn text(type_byte: u8, load: Range) -> MetaMessage
    requires { (1 ≤ type_byte) × (type_byte < 10) }
    ensures { meta_of result ≡ kind.text type_byte (span_of load) }
{
    match type_byte {
        0x01 => MetaMessage::Text(load),
        0x02 => MetaMessage::Copyright(load),
        0x03 => MetaMessage::TrackName(load),
        0x04 => MetaMessage::InstrumentName(load),
        0x05 => MetaMessage::Lyric(load),
        0x06 => MetaMessage::Marker(load),
        0x07 => MetaMessage::CuePoint(load),
        0x08 => MetaMessage::ProgramName(load),
        _ => MetaMessage::DeviceName(load),
    }
}

// The message of a type and a payload, its bytes and where they stand. The payload is whole before 12, 13 or 14 is asked
// of it; one that is too short for its type is `Unknown`.
fn named(type_byte: u8, bytes: &[u8], load: Range, rules: Rules) -> Result<MetaMessage, Refusal>
    ensures { said meta_of result ≡ called (rules_of rules) type_byte bytes.now (span_of load) }
{
    let unknown = MetaMessage::Unknown(type_byte, load);
    match type_byte {
        0x00 => Ok(MetaMessage::TrackNumber(track_number(bytes))),
        0x01..=0x09 => Ok(text(type_byte, load)),
        0x20 => Ok(narrow(0x20, 16, bytes, rules)?.unwrap_or(unknown)),
        0x21 => Ok(narrow(0x21, 128, bytes, rules)?.unwrap_or(unknown)),
        0x2F => Ok(MetaMessage::EndOfTrack),
        0x51 => Ok(tempo(bytes).unwrap_or(unknown)),
        0x54 => Ok(smpte_offset(bytes, rules)?.unwrap_or(unknown)),
        0x58 => Ok(time_signature(bytes).unwrap_or(unknown)),
        0x59 => key_signature(bytes),
        0x7F => Ok(MetaMessage::SequencerSpecific(load)),
        _ => Ok(unknown),
    }
}

impl MetaMessage {
    // Reads the meta message at a place, from its type byte on, which stands behind FF.
    pub fn read(raw: &[u8], at: usize, rules: Rules) -> Result<MetaAt, Refusal>
        ensures { meta_read result ≡ meta_at (rules_of rules) raw.now at }
    {
        let Some(type_byte) = raw.get(at) else {
            return Err(Refusal::NoMetaType);
        };
        let load = read_varlen_slice(raw, at + 1, rules)?;
        let range = load.range;
        let next = range.start + range.length;
        let message = named(*type_byte, &raw[range.start..next], range, rules)?;
        Ok(MetaAt {
            message,
            next,
            padding: load.padding,
        })
    }
}
