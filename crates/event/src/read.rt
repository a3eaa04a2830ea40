// Reading one event, in the order of its bytes. Where the Rust shrinks a slice, a place goes in and the bytes used come
// out; where it updates an option, the running status is handed back.
ghost use Rattle.std.specs.Prelude.{◌≡◌, true, ◌-◌, ◌≤◌, ◌<◌, length, drop, Err};
ghost use Rattle.smf.specs.Running.{is_running};
ghost use Rattle.smf.specs.Wire.{with_payload, system, read_channel, read_meta, read_status, read_body};
ghost use Rattle.smf.specs.Payload.{read_payload};
ghost use Rattle.smf.specs.Event as smf;
ghost use Rattle.base.specs.Rules.{rules_of};
ghost use Rattle.base.specs.Refusal.{number_of};
ghost use Rattle.event.specs.Event.{kind_of, event_used, event_read};
ghost use Rattle.event.specs.Begun.{delta_of};

use crate::begun::Begun;
use crate::{TrackEvent, TrackEventKind};
use base::{Refusal, Rules, Running, u4, u7};
use meta::MetaMessage;
use midi::MidiMessage;
use number::payload::read_varlen_slice;
use number::u28;

// An event that was read, the bytes used, and the running status after it. What both answers have stands first in
// each, and so at one place in memory: a compiler then keeps it in registers.
#[derive(Clone, Copy)]
pub struct EventAt {
    // how many bytes it has, from its delta on
    pub used: usize,
    // the running status after it
    pub running: Running,
    // the padding of its delta, and of its payload's number where it has one
    pub padding: usize,
    // the event
    pub event: TrackEvent,
}

// A refusal of an event. It uses no byte and has no padding, and says so, as documents 01 and 02 do.
#[derive(Clone, Copy)]
pub struct EventRefused {
    // 0
    pub used: usize,
    // the running status that the Rust is left with
    pub running: Running,
    // 0
    pub padding: usize,
    // why
    pub refusal: Refusal,
}

// A refusal of an event, that leaves a running status.
fn refused(refusal: Refusal, status: u8) -> EventRefused
    ensures { event_read (Err result) ≡ smf.refused_at (number_of refusal) 0 status 0 }
{
    EventRefused {
        used: 0,
        running: Running { status },
        padding: 0,
        refusal,
    }
}

impl<'a> Begun<'a> {
    // The answer for an event that ends before a place, leaves a running status, and has this padding in all.
    fn event(
        self,
        kind: TrackEventKind,
        next: usize,
        status: u8,
        padding: usize,
    ) -> Result<EventAt, EventRefused>
        requires { self.start ≤ next }
        ensures { event_read result ≡ event_used (smf.event self.entry.delta.0 (kind_of kind)) (next - self.entry.start) status padding }
    {
        let delta = self.delta;
        Ok(EventAt {
            used: next - self.start,
            running: Running { status },
            padding,
            event: TrackEvent { delta, kind },
        })
    }

    // A channel message, whose status is 80..EF and whose data is next. No struct carries such a status, which functions of
    // two crates ask for: it would be public, and so could not demand what it holds. It has set the running status, so that
    // a refusal leaves its status; too few data bytes come before one with bit 7 set.
    fn channel(self, status: u8) -> Result<EventAt, EventRefused>
        requires { (0x80 ≤ status) × (status < 0xF0) }
        ensures { event_read result ≡ smf.placed self.entry.raw.now self.entry.start (smf.name_raw (rules_of self.entry.rules) (read_channel status (delta_of self.entry) (drop self.entry.at self.entry.raw.now))) }
    {
        let raw = self.raw;
        let at = self.at;
        let len = MidiMessage::msg_length(status);
        if raw.len().saturating_sub(at) < usize::from(len) {
            return Err(refused(Refusal::ChannelDataShort, status));
        }
        let channel = u4(status % 16);
        let first = raw[at];
        if 0x80 <= first {
            return Err(refused(Refusal::ChannelDataTopBit, status));
        }
        if len == 1 {
            let message = crate::message::read(status, u7(first), u7(0));
            let kind = TrackEventKind::Midi { channel, message };
            return self.event(kind, at + 1, status, self.padding);
        }
        let second = raw[at + 1];
        if 0x80 <= second {
            return Err(refused(Refusal::ChannelDataTopBit, status));
        }
        let message = crate::message::read(status, u7(first), u7(second));
        let kind = TrackEventKind::Midi { channel, message };
        self.event(kind, at + 2, status, self.padding)
    }

    // A meta message, of which the type byte is next. FF has cleared the running status, so that a refusal leaves none.
    fn meta(self) -> Result<EventAt, EventRefused>
        ensures { event_read result ≡ smf.placed self.entry.raw.now self.entry.start (smf.name_raw (rules_of self.entry.rules) (read_meta (rules_of self.entry.rules) (delta_of self.entry) (drop self.entry.at self.entry.raw.now))) }
    {
        let m = MetaMessage::read(self.raw, self.at, self.rules).map_err(|why| refused(why, 0))?;
        let padding = self.padding + m.padding;
        self.event(TrackEventKind::Meta(m.message), m.next, 0, padding)
    }

    // A system exclusive message or an escape, of which the payload is next. F0 and F7 have cleared the running status.
    fn payload(self, status: u8) -> Result<EventAt, EventRefused>
        requires { self.at ≤ length self.raw.now }
        ensures { event_read result ≡ smf.placed self.entry.raw.now self.entry.start (smf.name_raw (rules_of self.entry.rules) (with_payload (delta_of self.entry) (system status) (read_payload (rules_of self.entry.rules) (drop self.entry.at self.entry.raw.now)))) }
    {
        let load = read_varlen_slice(self.raw, self.at, self.rules).map_err(|why| refused(why, 0))?;
        let range = load.range;
        let next = range.start + range.length;
        let padding = self.padding + load.padding;
        if status == 0xF0 {
            return self.event(TrackEventKind::SysEx(range), next, 0, padding);
        }
        self.event(TrackEventKind::Escape(range), next, 0, padding)
    }

    // An event whose status byte is F0..FF, of which what stands behind that byte is next. F1..F6 and F8..FE are refused,
    // and leave the running status as it is.
    fn status_kind(self, status: u8, running: Running) -> Result<EventAt, EventRefused>
        requires { (self.at ≤ length self.raw.now) × (0xF0 ≤ status) }
        ensures { event_read result ≡ smf.placed self.entry.raw.now self.entry.start (smf.name_raw (rules_of self.entry.rules) (read_status (rules_of self.entry.rules) running.status (delta_of self.entry) status (drop self.entry.at self.entry.raw.now))) }
    {
        match status {
            0xFF => self.meta(),
            0xF0 | 0xF7 => self.payload(status),
            0xF1..=0xF6 => Err(refused(Refusal::SystemCommon, running.status)),
            _ => Err(refused(Refusal::SystemRealtime, running.status)),
        }
    }

    // What stands behind the delta: a status byte, or a data byte under running status.
    fn kind(mut self, running: Running) -> Result<EventAt, EventRefused>
        requires { is_running running.status ≡ true }
        ensures { event_read result ≡ smf.placed self.entry.raw.now self.entry.start (smf.name_raw (rules_of self.entry.rules) (read_body (rules_of self.entry.rules) running.status (delta_of self.entry) (drop self.entry.at self.entry.raw.now))) }
    {
        let raw = self.raw;
        let at = self.at;
        if raw.len() <= at {
            return Err(refused(Refusal::NoStatus, running.status));
        }
        let byte = raw[at];
        if 0xF0 <= byte {
            self.at = at + 1;
            return self.status_kind(byte, running);
        }
        // A channel message. The two ways, with a status byte of its own and without, meet here, so that no branch is
        // taken on which it is: a processor cannot foresee that.
        let mut status = running.status;
        if 0x80 <= byte {
            status = byte;
            self.at = at + 1; // the data
        }
        // No running status is the 0 of `base::Running`, the lent running status that docs/RULES.md names, and no option.
        if status == 0 {
            return Err(refused(Refusal::NoRunningStatus, running.status));
        }
        self.channel(status)
    }
}

impl TrackEvent {
    // Reads the event at a place, from a running status, which is looked at first: 1 where it is invalid.
    pub fn read(
        raw: &[u8],
        at: usize,
        running: Running,
        rules: Rules,
    ) -> Result<EventAt, EventRefused>
        ensures { event_read result ≡ smf.event_at (rules_of rules) running.status raw.now at }
    {
        let status = running.status;
        if !running.is_valid() {
            return Err(refused(Refusal::RunningStatus, status));
        }
        let number = u28::read_u7(raw, at, rules).map_err(|why| refused(why, status))?;
        let begun = Begun {
            raw,
            start: at,
            delta: number.value,
            padding: number.padding,
            at: number.next,
            rules,
        };
        begun.kind(running)
    }
}
