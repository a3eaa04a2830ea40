// The door of a row: what stands behind its delta, made of the row's own numbers with no event in between, or the number
// of what forbids it. Every number that no event can hold is above a width too, so that both are 18.
ghost use Rattle.std.specs.Prelude.{◌≡◌, ◌||◌, not, List, ℕ, ◌-◌, ◌≤◌, ◌<◌, ltb, eqb};
ghost use Rattle.smf.specs.Answer as smf;
ghost use Rattle.smf.specs.Answer.{pick, refuses};
ghost use Rattle.smf.specs.Smpte.{time};
ghost use Rattle.smf.specs.Kind as kind;
ghost use Rattle.smf.specs.Signed.{signed_byte};
ghost use Rattle.base.specs.Rules.{rules_of};
ghost use Rattle.meta.specs.Meta.{span_of};
ghost use Rattle.rows.specs.RowEvent.{are_bytes, time_fits, fields_fit, row_number_of, row_message, row_meta, row_kind, row_judged};
ghost use Rattle.write.specs.Raw.{data_of, made_said, judged_said, raw_kind, raw_judged};

use crate::make::{
    channel, key, narrow, own_bytes, signature, system, tempo, time, track_number, typed, unknown,
};
use crate::raw::{Raw, RawEvent, behind};
use base::{Range, Refusal, Rules};
use header::{Fps, SmpteTime};
use number::u28;
use rows::WIDTH;
use rows::back::are_bytes;

// A row's cells behind its delta: the number of its kind, six fields, and its payload's range. `Fitting` of `rows` is another
// thing, numbers that are known to fit their kind: here that is what is asked.
#[derive(Clone, Copy)]
struct Fields {
    number: u64,
    a: u64,
    b: u64,
    c: u64,
    d: u64,
    e: u64,
    f: u64,
    load: Range,
}

// The data bytes of a channel message's row: a bend is one number there.
#[derive(Clone, Copy)]
pub struct Data {
    pub pair: bool,
    pub a: u64,
    pub b: u64,
}

// No branch depends on the number where it need not: which message comes next cannot be foreseen.
pub fn data_of(number: u64, a: u64, b: u64) -> Data
    ensures { result ≡ data_of number a b }
{
    if number == 14 {
        return Data {
            pair: true,
            a: a % 128,
            b: a / 128,
        };
    }
    if number / 2 == 6 { // 12 and 13
        return Data {
            pair: false,
            a,
            b: 0,
        };
    }
    Data { pair: true, a, b }
}

// A channel message by the number of its kind, 8 to 14; what is below is no kind's.
fn message(number: u64, a: u64, b: u64, c: u64) -> Result<Raw, Refusal>
    requires { number < 15 }
    ensures { (rules : smf.Rules) (bytes : List ℕ) (d e f : ℕ) → made_said bytes result ≡ pick (fields_fit number a b c d e f) (raw_kind rules bytes (kind.midi a (row_message number b c))) (refuses 18) }
{
    if number < 8 {
        return Err(Refusal::AboveWidth);
    }
    let data = data_of(number, b, c);
    channel(number, a, data.pair, data.a, data.b)
}

// A track number, or a missing one, which is written with no bytes: no conversion, since it makes what stands behind a delta.
fn number(there: u64, number: u64) -> Result<Raw, Refusal>
    ensures { (rules : smf.Rules) (bytes : List ℕ) → made_said bytes result ≡ pick (eqb there 0 || ltb number 65536) (raw_kind rules bytes (kind.meta (row_number_of there number))) (refuses 18) }
{
    if there == 0 {
        return own_bytes(0x00, 0, 0, 0);
    }
    track_number(number)
}

// An SMPTE time of six numbers.
fn row_time(a: u64, b: u64, c: u64, d: u64, e: u64, rate: u64, rules: Rules) -> Result<Raw, Refusal>
    ensures { (bytes : List ℕ) → made_said bytes result ≡ pick (time_fits a b c d e rate) (raw_kind (rules_of rules) bytes (kind.meta (kind.smpte_offset (time a b c d e rate)))) (refuses 18) }
{
    if !are_bytes(a, b, c, d, e) || 256 <= rate {
        return Err(Refusal::AboveWidth);
    }
    let Ok(fps) = Fps::from_int(rate as u8) else {
        return Err(Refusal::AboveWidth);
    };
    time(
        SmpteTime {
            hour: a as u8,
            minute: b as u8,
            second: c as u8,
            frame: d as u8,
            subframe: e as u8,
            fps,
        },
        rules,
    )
}

// A time signature of four numbers.
fn row_signature(a: u64, b: u64, c: u64, d: u64) -> Result<Raw, Refusal>
    ensures { (rules : smf.Rules) (bytes : List ℕ) → made_said bytes result ≡ pick (are_bytes a b c d 0) (raw_kind rules bytes (kind.meta (kind.time_signature a b c d))) (refuses 18) }
{
    if !are_bytes(a, b, c, d, 0) {
        return Err(Refusal::AboveWidth);
    }
    signature(a as u8, b as u8, c as u8, d as u8)
}

// A key signature, its sharps as a byte.
fn row_key(sharps: u64, minor: u64) -> Result<Raw, Refusal>
    ensures { (rules : smf.Rules) (bytes : List ℕ) → made_said bytes result ≡ pick (ltb sharps 256) (raw_kind rules bytes (kind.meta (kind.key_signature (signed_byte sharps) (not (eqb minor 0))))) (refuses 18) }
{
    if 256 <= sharps {
        return Err(Refusal::AboveWidth);
    }
    key(sharps as u8, minor != 0)
}

// An `Unknown` with its type.
fn row_unknown(type_byte: u64, load: Range, rules: Rules, bytes: &[u8]) -> Result<Raw, Refusal>
    ensures { made_said bytes.now result ≡ pick (ltb type_byte 256) (raw_kind (rules_of rules) bytes.now (kind.meta (kind.unknown type_byte (span_of load)))) (refuses 18) }
{
    if 256 <= type_byte {
        return Err(Refusal::AboveWidth);
    }
    unknown(type_byte as u8, load, rules, bytes)
}

// A text kind by the number of its kind, 0x101 to 0x109; what else comes here is no kind's.
fn row_text(number: u64, load: Range, bytes: &[u8]) -> Result<Raw, Refusal>
    ensures { (rules : smf.Rules) → made_said bytes.now result ≡ pick (kind.is_text (number - 0x100)) (raw_kind rules bytes.now (kind.meta (kind.text (number - 0x100) (span_of load)))) (refuses 18) }
{
    if number < 0x101 || 0x10A <= number {
        return Err(Refusal::AboveWidth);
    }
    typed((number - 0x100) as u8, load, bytes)
}

// A meta message by the number of its kind.
fn row_meta(row: Fields, rules: Rules, bytes: &[u8]) -> Result<Raw, Refusal>
    requires { (15 ≤ row.number) × (row.number ≡ 0xF0 → ⊥) × (row.number ≡ 0xF7 → ⊥) }
    ensures { made_said bytes.now result ≡ pick (fields_fit row.number row.a row.b row.c row.d row.e row.f) (raw_kind (rules_of rules) bytes.now (kind.meta (row_meta row.number row.a row.b row.c row.d row.e row.f (span_of row.load)))) (refuses 18) }
{
    let Fields {
        number,
        a,
        b,
        c,
        d,
        e,
        f,
        load,
    } = row;
    match number {
        0x100 => crate::row_door::number(a, b),
        0x120 => narrow(0x20, 16, a),
        0x121 => narrow(0x21, 128, a),
        0x12F => own_bytes(0x2F, 0, 0, 0),
        0x151 => tempo(a),
        0x154 => row_time(a, b, c, d, e, f, rules),
        0x158 => row_signature(a, b, c, d),
        0x159 => row_key(a, b),
        0x17F => typed(0x7F, load, bytes),
        0x200 => row_unknown(a, load, rules, bytes),
        _ => row_text(number, load, bytes),
    }
}

// What stands behind the delta, by the number of the kind.
fn row_made(row: Fields, rules: Rules, bytes: &[u8]) -> Result<Raw, Refusal>
    ensures { made_said bytes.now result ≡ pick (fields_fit row.number row.a row.b row.c row.d row.e row.f) (raw_kind (rules_of rules) bytes.now (row_kind row.number row.a row.b row.c row.d row.e row.f (span_of row.load))) (refuses 18) }
{
    let Fields {
        number,
        a,
        b,
        c,
        load,
        ..
    } = row;
    if number < 15 {
        return message(number, a, b, c);
    }
    if number == 0xF0 {
        return system(0xF0, load, bytes);
    }
    if number == 0xF7 {
        return system(0xF7, load, bytes);
    }
    row_meta(row, rules, bytes)
}

// A row through its door: its raw form, or the number of what forbids it.
pub fn row_raw(row: [u64; WIDTH], rules: Rules, bytes: &[u8]) -> Result<RawEvent, Refusal>
    ensures { judged_said bytes.now result ≡ raw_judged (row_judged (rules_of rules) bytes.now row) }
{
    let delta = row[0];
    if 0x1000_0000 <= delta {
        return Err(Refusal::AboveWidth); // before the other fields are looked at
    }
    let fields = Fields {
        number: row[1],
        a: row[2],
        b: row[3],
        c: row[4],
        d: row[5],
        e: row[6],
        f: row[7],
        load: Range {
            start: row[8] as usize,
            length: row[9] as usize,
        },
    };
    let made = row_made(fields, rules, bytes);
    behind(u28(delta as u32), made)
}
