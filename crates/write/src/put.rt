// The bytes of an event that may be written, put where there is room for them. The doors have judged the event and the
// caller has measured it: the `requires` below say so, and nothing is tested here. What the functions of `number` put,
// which are public and may demand nothing, they test once more: a payload's range, its length and the room.
ghost use Rattle.std.specs.Prelude.{◌≡◌, true, [], ◌∷◌, ◌+◌, ◌^◌, ◌<◌, ◌≤◌, length};
ghost use Rattle.smf.specs.Place.{bytes_of};
ghost use Rattle.smf.specs.Number.{encode_number};
ghost use Rattle.smf.specs.Payload.{encode_payload};
ghost use Rattle.smf.specs.Write.{over};
ghost use Rattle.smf.specs.Wire.{raw_event, encode_raw, encode_raw_event};
ghost use Rattle.meta.specs.Meta.{span_of};
ghost use Rattle.write.specs.Raw.{channel_raw, status_bytes, data_bytes, own_bytes, load_length, wire_of, is_sound, Inside};
ghost use Rattle.write.specs.Store.{Stored};

use crate::raw::{Channel, Own, Raw, RawEvent};
use base::{Range, Running};
use number::payload::write_varlen_slice;
use number::u28;

// Puts a delta, and answers the place behind it. Most deltas are one byte, which is stored at once.
pub fn put_delta(delta: u28, out: &mut [u8], at: usize) -> usize
    requires { (delta.0 < 2 ^ 28) × (at + length (encode_number delta.0) ≤ length out.old) }
    ensures { Stored out.old at (encode_number delta.0) result out.new }
{
    let int = delta.0;
    if int < 0x80 {
        out[at] = int as u8;
        return at + 1;
    }
    delta.write_varlen(out, at).unwrap()
}

// The place of the data. The status byte is left out exactly when it is the running status: it is stored all the same,
// and the data then stands over it, for whether it is cannot be foreseen.
fn put_status(status: u8, running: Running, out: &mut [u8], at: usize) -> usize
    requires { at < length out.old }
    ensures { (result ≡ at + length (status_bytes running.status status)) × (out.new ≡ over (status ∷ []) out.old at) }
{
    out[at] = status;
    if running.status == status {
        return at;
    }
    at + 1
}

// Puts the one or two data bytes of a channel message, and answers the place behind them.
fn put_data(bytes: Channel, out: &mut [u8], at: usize) -> usize
    requires { at + length (data_bytes bytes) ≤ length out.old }
    ensures { Stored out.old at (data_bytes bytes) result out.new }
{
    out[at] = bytes.a;
    if bytes.pair {
        out[at + 1] = bytes.b;
        return at + 2;
    }
    at + 1
}

// Puts a channel message, and answers the place behind it.
pub fn put_channel(bytes: Channel, running: Running, out: &mut [u8], at: usize) -> usize
    requires { at + length (encode_raw running.status (channel_raw bytes)) ≤ length out.old }
    ensures { Stored out.old at (encode_raw running.status (channel_raw bytes)) result out.new }
{
    let place = put_status(bytes.status, running, out, at);
    put_data(bytes, out, place)
}

// Puts a byte and a payload behind it.
fn put_load(lead: u8, bytes: &[u8], load: Range, out: &mut [u8], at: usize)
    requires { Inside bytes.now (span_of load) × (at + (1 + load_length load.length) ≤ length out.old) }
    ensures { out.new ≡ over (lead ∷ encode_payload (bytes_of bytes.now (span_of load))) out.old at }
{
    out[at] = lead;
    write_varlen_slice(bytes, load, out, at + 1).unwrap(); // it is there, and has room
}

// Puts a meta message whose payload stands in the bytes lent.
fn put_typed(type_byte: u8, bytes: &[u8], load: Range, out: &mut [u8], at: usize)
    requires { Inside bytes.now (span_of load) × (at + (2 + load_length load.length) ≤ length out.old) }
    ensures { out.new ≡ over (0xFF ∷ type_byte ∷ encode_payload (bytes_of bytes.now (span_of load))) out.old at }
{
    out[at] = 0xFF;
    put_load(type_byte, bytes, load, out, at + 1);
}

// Puts a meta message whose payload is a few bytes of its own.
fn put_fixed(type_byte: u8, own: Own, out: &mut [u8], at: usize)
    requires { (own.n ≤ length own.bytes) × (at + (2 + load_length own.n) ≤ length out.old) }
    ensures { out.new ≡ over (0xFF ∷ type_byte ∷ encode_payload (own_bytes own)) out.old at }
{
    let load = Range {
        start: 0,
        length: own.n,
    };
    put_typed(type_byte, &own.bytes, load, out, at);
}

// Puts what stands behind the delta.
fn put_body(raw: Raw, running: Running, bytes: &[u8], out: &mut [u8], at: usize)
    requires { (is_sound bytes.now raw ≡ true) × (at + length (encode_raw running.status (wire_of bytes.now raw)) ≤ length out.old) }
    ensures { out.new ≡ over (encode_raw running.status (wire_of bytes.now raw)) out.old at }
{
    match raw {
        Raw::Channel(c) => {
            put_channel(c, running, out, at);
        }
        Raw::System(status, load) => put_load(status, bytes, load, out, at),
        Raw::Typed(type_byte, load) => put_typed(type_byte, bytes, load, out, at),
        Raw::Fixed(type_byte, own) => put_fixed(type_byte, own, out, at),
    }
}

// Puts an event: the delta, and what stands behind it.
pub fn put_raw(event: RawEvent, running: Running, bytes: &[u8], out: &mut [u8], at: usize)
    requires { (event.delta.0 < 2 ^ 28) × (is_sound bytes.now event.raw ≡ true) × (at + length (encode_raw_event running.status (raw_event event.delta.0 (wire_of bytes.now event.raw))) ≤ length out.old) }
    ensures { out.new ≡ over (encode_raw_event running.status (raw_event event.delta.0 (wire_of bytes.now event.raw))) out.old at }
{
    let start = put_delta(event.delta, out, at);
    put_body(event.raw, running, bytes, out, start);
}
