// How many bytes an event's raw form has, and the running status that it leaves.
ghost use Rattle.std.specs.Prelude.{◌≡◌, true, ◌+◌, ◌^◌, ◌<◌, length};
ghost use Rattle.smf.specs.Answer.{pick};
ghost use Rattle.smf.specs.Wire.{raw_event};
ghost use Rattle.write.specs.Raw.{status_bytes, load_length, raw_length, raw_after, is_sound, wire_of, Short};
ghost use Rattle.write.specs.Size.{size_of, raw_size};

use crate::answer::Size;
use crate::raw::{Channel, Raw, RawEvent};
use base::Running;
use number::u28;

// How many data bytes a channel message has, by the flag that `raw::Channel` holds.
fn data_length(pair: bool) -> usize
    ensures { result ≡ pick pair 2 1 }
{
    if pair { 2 } else { 1 }
}

// How many bytes a channel message has. Its status byte is left out exactly when it is the running status.
pub fn channel_length(c: Channel, running: Running) -> usize
    ensures { result ≡ length (status_bytes running.status c.status) + pick c.pair 2 1 }
{
    data_length(c.pair) + usize::from(running.status != c.status)
}

// How many bytes a payload has with its number in front.
fn load_length(n: usize) -> usize
    requires { n < 2 ^ 28 }
    ensures { result ≡ load_length n }
{
    u28(n as u32).varlen_length() + n
}

// How many bytes stand behind the delta.
fn body_length(raw: Raw, running: Running) -> usize
    requires { Short raw }
    ensures { result ≡ raw_length running.status raw }
{
    match raw {
        Raw::Channel(c) => channel_length(c, running),
        Raw::System(_, load) => 1 + load_length(load.length),
        Raw::Typed(_, load) => 2 + load_length(load.length),
        Raw::Fixed(_, own) => 2 + load_length(own.n),
    }
}

// The running status after an event: its own status; none after what is no channel message. Each form has an arm of its
// own, so that one that is added is asked for.
fn status_after(raw: Raw) -> u8
    ensures { result ≡ raw_after raw }
{
    match raw {
        Raw::Channel(c) => c.status,
        Raw::System(_, _) => 0,
        Raw::Typed(_, _) => 0,
        Raw::Fixed(_, _) => 0,
    }
}

// How long an event is, and the running status after it.
pub fn raw_size(event: RawEvent, running: Running, bytes: &[u8]) -> Size
    requires { is_sound bytes.now event.raw ≡ true }
    ensures { size_of result ≡ raw_size running.status (raw_event event.delta.0 (wire_of bytes.now event.raw)) }
{
    Size {
        length: event.delta.varlen_length() + body_length(event.raw, running),
        running: Running {
            status: status_after(event.raw),
        },
    }
}
