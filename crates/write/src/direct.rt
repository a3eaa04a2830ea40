// A row of a list, measured and put where it stands among the list's cells. Most are channel messages, and these are
// taken straight from their cells, with neither a row copied nor a raw form made; every other row goes through its door.
// Both ways are proved to answer what the door's definition says.
ghost use Rattle.std.specs.Prelude.{◌≡◌, ◌+◌, ◌^◌, ◌≤◌, ◌<◌, leb, take, drop, length, get_or};
ghost use Rattle.smf.specs.Answer.{gives, and_then};
ghost use Rattle.smf.specs.Wire.{raw_event, encode_raw_event};
ghost use Rattle.base.specs.Rules.{rules_of};
ghost use Rattle.rows.specs.Rows.{width};
ghost use Rattle.rows.specs.RowEvent.{row_judged};
ghost use Rattle.write.specs.Raw.{judged_said, raw_judged, channel_raw};
ghost use Rattle.write.specs.Size.{length_said, raw_size};
ghost use Rattle.write.specs.Wrote.{wrote_event, write_raw};
ghost use Rattle.write.specs.Direct.{packed_of, message_at, Direct, Taken, RoomAt};

use crate::answer::{Past, Size};
use crate::length::channel_length;
use crate::put::{put_channel, put_delta};
use crate::raw::{Channel, RawEvent};
use crate::row_door::{Data, data_of, row_raw};
use crate::step::{measured, written};
use base::{Refusal, Rules, Running};
use number::u28;
use rows::WIDTH;

// So many rows, over the bytes lent.
#[derive(Clone, Copy)]
pub struct Rows<'a> {
    pub cells: &'a [u64],
    pub count: usize,
    pub rules: Rules,
    pub bytes: &'a [u8],
}

// The cells of a row that is all there.
fn cells_at(rows: &[u64], at: usize) -> [u64; WIDTH]
    requires { at + width ≤ length rows.now }
    ensures { result ≡ take width (drop at rows.now) }
{
    let mut row = [0u64; WIDTH];
    row.copy_from_slice(&rows[at..at + WIDTH]);
    row
}

// Whether the row that starts at a cell is all there.
fn is_there(rows: &[u64], at: usize) -> bool
    ensures { result ≡ leb (at + width) (length rows.now) }
{
    WIDTH <= rows.len() && at <= rows.len() - WIDTH
}

// A channel message of its number, its channel and its data, which are within their widths.
fn packed(number: u64, channel: u64, bytes: Data) -> Channel
    requires { (number < 15) × (channel < 16) × (bytes.a < 128) × (bytes.b < 128) }
    ensures { result ≡ packed_of number channel bytes }
{
    Channel {
        status: (number * 16 + channel) as u8,
        pair: bytes.pair,
        a: bytes.a as u8,
        b: bytes.b as u8,
    }
}

// The channel message of a row that is legal, and none of any other: whether it is another kind, or by which number it is
// refused, is for the door to say.
fn channel_at(rows: &[u64], at: usize) -> Option<Channel>
    ensures { Taken rows.now at result }
{
    if !is_there(rows, at) {
        return None; // not all there
    }
    let number = rows[at + 1];
    let channel = rows[at + 2];
    if number < 8 || 15 <= number || 16 <= channel || 0x1000_0000 <= rows[at] {
        return None;
    }
    let data = data_of(number, rows[at + 3], rows[at + 4]);
    if 128 <= data.a || 128 <= data.b {
        return None;
    }
    Some(packed(number, channel, data))
}

// Puts a delta and a channel message behind it, and answers where they end.
fn put_message(delta: u28, c: Channel, running: Running, out: &mut [u8], at: usize) -> Past
    requires { (delta.0 < 2 ^ 28) × (at + length (encode_raw_event running.status (raw_event delta.0 (channel_raw c))) ≤ length out.old) }
    ensures { wrote_event (Ok result) out.new ≡ write_raw running.status (gives (raw_event delta.0 (channel_raw c))) out.old at }
{
    let start = put_delta(delta, out, at);
    let next = put_channel(c, running, out, start);
    Past {
        next,
        running: Running { status: c.status }, // its own status
    }
}

// Puts the channel message of a row that is legal and has room: nothing is looked at again.
fn put_direct(rows: &[u64], at: usize, running: Running, out: &mut [u8], place: usize) -> Past
    requires { Direct rows.now at × (place + length (encode_raw_event running.status (raw_event (get_or rows.now at 0) (channel_raw (message_at rows.now at)))) ≤ length out.old) }
    ensures { wrote_event (Ok result) out.new ≡ write_raw running.status (gives (raw_event (get_or rows.now at 0) (channel_raw (message_at rows.now at)))) out.old place }
{
    let number = rows[at + 1];
    let data = data_of(number, rows[at + 3], rows[at + 4]);
    let c = packed(number, rows[at + 2], data);
    put_message(u28(rows[at] as u32), c, running, out, place)
}

impl<'a> Rows<'a> {
    // The row that starts at a cell, through its door.
    fn judge_at(&self, at: usize) -> Result<RawEvent, Refusal>
        ensures { judged_said self.now.bytes.now result ≡ raw_judged (row_judged (rules_of self.now.rules) self.now.bytes.now (take width (drop at self.now.cells.now))) }
    {
        let rows = self.cells;
        if !is_there(rows, at) {
            return Err(Refusal::AboveWidth);
        }
        row_raw(cells_at(rows, at), self.rules, self.bytes)
    }

    // How long the event of the row that starts at a cell is, or the number of what forbids it.
    pub fn measure_at(&self, at: usize, running: Running) -> Result<Size, Refusal>
        ensures { length_said result ≡ and_then (raw_judged (row_judged (rules_of self.now.rules) self.now.bytes.now (take width (drop at self.now.cells.now)))) (λ raw. gives (raw_size running.status raw)) }
    {
        let rows = self.cells;
        if let Some(c) = channel_at(rows, at) {
            let delta = u28(rows[at] as u32);
            return Ok(Size {
                length: delta.varlen_length() + channel_length(c, running),
                running: Running { status: c.status },
            });
        }
        measured(self.judge_at(at), running, self.bytes)
    }

    // Puts the event of the row that starts at a cell, which is legal and has room.
    pub fn write_at(&self, at: usize, running: Running, out: &mut [u8], place: usize) -> Past
        requires { RoomAt running.status (raw_judged (row_judged (rules_of self.now.rules) self.now.bytes.now (take width (drop at self.now.cells.now)))) place (length out.old) }
        ensures { wrote_event (Ok result) out.new ≡ write_raw running.status (raw_judged (row_judged (rules_of self.now.rules) self.now.bytes.now (take width (drop at self.now.cells.now)))) out.old place }
    {
        let rows = self.cells;
        if rows[at + 1] < 15 {
            return put_direct(rows, at, running, out, place);
        }
        written(self.judge_at(at), running, self.bytes, out, place).unwrap()
    }
}
