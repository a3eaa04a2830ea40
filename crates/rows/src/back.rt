// The event of a row: the way back from what a caller in C gives. What a kind does not use of a row is not looked at.
ghost use Rattle.std.specs.Prelude.{◌≡◌, true, ◌||◌, ◌+◌, ◌-◌, ◌<◌, ◌≤◌, ltb, eqb, length, take, drop};
ghost use Rattle.smf.specs.Smpte.{is_rate, time};
ghost use Rattle.smf.specs.Kind.{is_text, text, midi};
ghost use Rattle.header.specs.Fps.{rate_of};
ghost use Rattle.header.specs.Smpte.{smpte_time_of};
ghost use Rattle.midi.specs.Midi.{message_of};
ghost use Rattle.meta.specs.Meta.{meta_of, number_meta, span_of};
ghost use Rattle.event.specs.Event.{kind_of};
ghost use Rattle.rows.specs.Rows.{width};
ghost use Rattle.rows.specs.RowEvent.{are_bytes, time_fits, fields_fit, row_number_of, row_message, row_meta, row_kind, event_of_row};
ghost use Rattle.rows.specs.RowAnswer.{row_answer};

use crate::WIDTH;
use base::{Range, Refusal, u4, u7, u14, u24};
use event::{TrackEvent, TrackEventKind};
use header::signed::from_byte;
use header::{Fps, SmpteTime};
use meta::MetaMessage;
use midi::{MidiMessage, PitchBend};
use number::u28;

// Whether five numbers are bytes; 0 stands for one that is not used.
#[tactic(auto, unfolding(crate::specs::RowEvent::are_bytes))]
pub fn are_bytes(a: u64, b: u64, c: u64, d: u64, e: u64) -> bool
    ensures { result ≡ are_bytes a b c d e }
{
    a < 256 && b < 256 && c < 256 && d < 256 && e < 256
}

// Whether a kind's number is that of a text kind, 0x101 to 0x109.
#[tactic(auto, unfolding(smf::specs::Kind::is_text))]
fn is_text(number: u64) -> bool
    ensures { result ≡ is_text (number - 0x100) }
{
    matches!(number, 0x101..=0x109)
}

// Whether six numbers can be an SMPTE time's, in its ranges or not: five bytes and one of the four rates.
#[tactic(auto, unfolding(crate::specs::RowEvent::time_fits, smf::specs::Smpte::is_rate))]
fn time_fits(a: u64, b: u64, c: u64, d: u64, e: u64, rate: u64) -> bool
    ensures { result ≡ time_fits a b c d e rate }
{
    matches!(rate, 24 | 25 | 29 | 30) && are_bytes(a, b, c, d, e)
}

// Whether the numbers that a kind uses are within what their integers hold. Each kind has an arm of its own, and the bytes of
// channel messages are looked at first: of an arm for several kinds, or for a range of them, the compiler makes one comparison
// behind the other, and to compare two lists took a quarter longer, or a half.
#[tactic(auto, unfolding(crate::specs::RowEvent::fields_fit))]
fn fields_fit(number: u64, a: u64, b: u64, c: u64, d: u64, e: u64, f: u64) -> bool
    ensures { result ≡ fields_fit number a b c d e f }
{
    let two = are_bytes(a, b, c, 0, 0);
    let one = are_bytes(a, b, 0, 0, 0);
    match number {
        8 => two,
        9 => two,
        10 => two,
        11 => two,
        12 => one,
        13 => one,
        14 => b < 0x1_0000 && a < 256,
        0xF0 => true,
        0xF7 => true,
        0x100 => a == 0 || b < 0x1_0000,
        0x120 => a < 256,
        0x121 => a < 256,
        0x12F => true,
        0x151 => a < 0x1_0000_0000,
        0x154 => time_fits(a, b, c, d, e, f),
        0x158 => are_bytes(a, b, c, d, 0),
        0x159 => a < 256,
        0x17F => true,
        0x200 => a < 256,
        _ => is_text(number),
    }
}

// The numbers of a row behind its delta, which fit its kind.
#[derive(Clone, Copy)]
struct Fitting {
    // the kind's number
    number: u64,
    // the six fields
    a: u64,
    b: u64,
    c: u64,
    d: u64,
    e: u64,
    f: u64,
    // the range of the payload
    load: Range,
    ghost fits: { fields_fit number a b c d e f ≡ true },
}

// The range of a payload.
fn load(start: u64, length: u64) -> Range
    ensures { (result.start ≡ start) × (result.length ≡ length) }
{
    Range {
        start: start as usize,
        length: length as usize,
    }
}

// A track number, or a missing one.
#[tactic(auto, unfolding(crate::specs::RowEvent::row_number_of))]
fn track_number(there: u64, number: u64) -> Option<u16>
    requires { (eqb there 0 || ltb number 65536) ≡ true }
    ensures { number_meta result ≡ row_number_of there number }
{
    if there == 0 {
        return None;
    }
    Some(number as u16)
}

// The rate of one of the four numbers. `Fps::from_int` would answer a `Result` here, of which the refusal cannot occur.
#[tactic(auto, unfolding(smf::specs::Smpte::is_rate))]
fn fps(rate: u64) -> Fps
    requires { is_rate rate ≡ true }
    ensures { rate_of result ≡ rate }
{
    match rate {
        24 => Fps::Fps24,
        25 => Fps::Fps25,
        29 => Fps::Fps29,
        _ => Fps::Fps30,
    }
}

// The SMPTE time of six numbers that fit.
#[tactic(auto, unfolding(crate::specs::RowEvent::time_fits, crate::specs::RowEvent::are_bytes))]
fn time(a: u64, b: u64, c: u64, d: u64, e: u64, rate: u64) -> SmpteTime
    requires { time_fits a b c d e rate ≡ true }
    ensures { smpte_time_of result ≡ time a b c d e rate }
{
    SmpteTime {
        hour: a as u8,
        minute: b as u8,
        second: c as u8,
        frame: d as u8,
        subframe: e as u8,
        fps: fps(rate),
    }
}

// A text kind by its number. `meta` makes them of 01 to 09 in a private function: one for both would have to refuse the rest.
#[tactic(auto, unfolding(smf::specs::Kind::is_text))]
fn text(number: u64, load: Range) -> MetaMessage
    requires { is_text (number - 0x100) ≡ true }
    ensures { meta_of result ≡ text (number - 0x100) (span_of load) }
{
    match number {
        0x101 => MetaMessage::Text(load),
        0x102 => MetaMessage::Copyright(load),
        0x103 => MetaMessage::TrackName(load),
        0x104 => MetaMessage::InstrumentName(load),
        0x105 => MetaMessage::Lyric(load),
        0x106 => MetaMessage::Marker(load),
        0x107 => MetaMessage::CuePoint(load),
        0x108 => MetaMessage::ProgramName(load),
        _ => MetaMessage::DeviceName(load),
    }
}

impl Fitting {
    // A channel message behind its channel.
    #[tactic(auto, unfolding(crate::specs::RowEvent::row_message, crate::specs::RowEvent::fields_fit, crate::specs::RowEvent::are_bytes, smf::specs::Kind::is_text))]
    fn message(self) -> MidiMessage
        requires { self.number < 15 }
        ensures { message_of result ≡ row_message self.number self.b self.c }
    {
        let b = self.b;
        let c = self.c;
        match self.number {
            8 => MidiMessage::NoteOff {
                key: u7(b as u8),
                vel: u7(c as u8),
            },
            9 => MidiMessage::NoteOn {
                key: u7(b as u8),
                vel: u7(c as u8),
            },
            10 => MidiMessage::Aftertouch {
                key: u7(b as u8),
                vel: u7(c as u8),
            },
            11 => MidiMessage::Controller {
                controller: u7(b as u8),
                value: u7(c as u8),
            },
            12 => MidiMessage::ProgramChange {
                program: u7(b as u8),
            },
            13 => MidiMessage::ChannelAftertouch { vel: u7(b as u8) },
            _ => MidiMessage::PitchBend {
                bend: PitchBend(u14(b as u16)),
            },
        }
    }

    // The kind of a channel message, whose channel is the first field.
    #[tactic(auto, unfolding(crate::specs::RowEvent::fields_fit, crate::specs::RowEvent::are_bytes, smf::specs::Kind::is_text))]
    fn midi(self) -> TrackEventKind
        requires { self.number < 15 }
        ensures { kind_of result ≡ midi self.a (row_message self.number self.b self.c) }
    {
        TrackEventKind::Midi {
            channel: u4(self.a as u8),
            message: self.message(),
        }
    }

    // A meta message.
    #[tactic(auto, unfolding(crate::specs::RowEvent::row_meta, crate::specs::RowEvent::fields_fit, crate::specs::RowEvent::are_bytes))]
    fn meta(self) -> MetaMessage
        requires { (15 ≤ self.number) × ((self.number ≡ 0xF0 → ⊥) × (self.number ≡ 0xF7 → ⊥)) }
        ensures { meta_of result ≡ row_meta self.number self.a self.b self.c self.d self.e self.f (span_of self.load) }
    {
        let Fitting {
            number,
            a,
            b,
            c,
            d,
            e,
            f,
            load,
        } = self;
        match number {
            0x100 => MetaMessage::TrackNumber(track_number(a, b)),
            0x120 => MetaMessage::MidiChannel(u4(a as u8)),
            0x121 => MetaMessage::MidiPort(u7(a as u8)),
            0x12F => MetaMessage::EndOfTrack,
            0x151 => MetaMessage::Tempo(u24(a as u32)),
            0x154 => MetaMessage::SmpteOffset(time(a, b, c, d, e, f)),
            0x158 => MetaMessage::TimeSignature(a as u8, b as u8, c as u8, d as u8),
            0x159 => MetaMessage::KeySignature(from_byte(a as u8), b != 0),
            0x17F => MetaMessage::SequencerSpecific(load),
            0x200 => MetaMessage::Unknown(a as u8, load),
            _ => text(number, load),
        }
    }

    // The kind, by its number.
    #[tactic(auto, unfolding(crate::specs::RowEvent::row_kind))]
    fn kind(self) -> TrackEventKind
        ensures { kind_of result ≡ row_kind self.number self.a self.b self.c self.d self.e self.f (span_of self.load) }
    {
        if self.number < 15 { // first, since most rows are channel messages
            return self.midi();
        }
        match self.number {
            0xF0 => TrackEventKind::SysEx(self.load),
            0xF7 => TrackEventKind::Escape(self.load),
            _ => TrackEventKind::Meta(self.meta()),
        }
    }
}

// The event of a row, or 18 where it is no event's.
pub fn row_event(row: [u64; WIDTH]) -> Result<TrackEvent, Refusal>
    ensures { row_answer result ≡ event_of_row row }
{
    let [delta, number, a, b, c, d, e, f, start, length] = row;
    if 0x1_0000_0000 <= delta {
        return Err(Refusal::AboveWidth); // the delta
    }
    if !fields_fit(number, a, b, c, d, e, f) {
        return Err(Refusal::AboveWidth);
    }
    let load = load(start, length);
    let fitting = Fitting {
        number,
        a,
        b,
        c,
        d,
        e,
        f,
        load,
    };
    Ok(TrackEvent {
        delta: u28(delta as u32),
        kind: fitting.kind(),
    })
}

// The row that starts at a cell, where its cells are there. `cells_at` of `write` promises the same: one function for both would
// be public, and so could not ask its caller for the cells.
fn row_at(cells: &[u64], at: usize) -> [u64; WIDTH]
    requires { at + width ≤ length cells.now }
    ensures { result ≡ take width (drop at cells.now) }
{
    let mut row = [0u64; WIDTH];
    for i in 0..WIDTH { // the compiler takes this copy away, and not one by `copy_from_slice`
        row[i] = cells[at + i];
    }
    row
}

// The event of the row that starts at a cell; one that is not all there is no event's.
#[tactic(auto, using(crate::proofs::IsRow::not_there))]
pub fn row_event_at(cells: &[u64], at: usize) -> Result<TrackEvent, Refusal>
    ensures { row_answer result ≡ event_of_row (take width (drop at cells.now)) }
{
    if cells.len() < at {
        return Err(Refusal::AboveWidth);
    }
    if cells.len() - at < WIDTH {
        return Err(Refusal::AboveWidth);
    }
    row_event(row_at(cells, at))
}
