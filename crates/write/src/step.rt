// The two steps behind the doors, of one event and of each event of a list alike: how long it is, and its bytes put.
ghost use Rattle.std.specs.Prelude.{◌≡◌};
ghost use Rattle.smf.specs.Answer.{gives, and_then};
ghost use Rattle.write.specs.Raw.{judged_said, LetThrough};
ghost use Rattle.write.specs.Size.{length_said, raw_size};
ghost use Rattle.write.specs.Wrote.{wrote_event, write_raw};

use crate::answer::{ListRefused, Past, Size, WriteRefused};
use crate::length::raw_size;
use crate::put::put_raw;
use crate::raw::RawEvent;
use base::{Refusal, Running};

// How long an event is that went through its door, or the number of what forbids it.
pub fn measured(
    judged: Result<RawEvent, Refusal>,
    running: Running,
    bytes: &[u8],
) -> Result<Size, Refusal>
    requires { LetThrough bytes.now judged }
    ensures { length_said result ≡ and_then (judged_said bytes.now judged) (λ raw. gives (raw_size running.status raw)) }
{
    let event = judged?;
    Ok(raw_size(event, running, bytes))
}

// Puts an event that went through its door at a place of a lent buffer. The room is looked at last: 20 comes behind what
// forbids the event itself.
pub fn written(
    judged: Result<RawEvent, Refusal>,
    running: Running,
    bytes: &[u8],
    out: &mut [u8],
    at: usize,
) -> Result<Past, WriteRefused>
    requires { LetThrough bytes.now judged }
    ensures { wrote_event result out.new ≡ write_raw running.status (judged_said bytes.now judged) out.old at }
{
    let event = judged.map_err(|refusal| WriteRefused { refusal, running })?;
    let size = raw_size(event, running, bytes);
    if out.len() < size.length || out.len() - size.length < at { // it would run past the end
        return Err(WriteRefused {
            refusal: Refusal::NoRoom,
            running,
        });
    }
    put_raw(event, running, bytes, out, at);
    Ok(Past {
        next: at + size.length,
        running: size.running,
    })
}

// A list that is refused before any event is looked at.
pub fn refused(refusal: Refusal, running: Running) -> Result<Size, ListRefused>
    ensures { result ≡ Err (record { refusal = refusal; index = 0; running = running }) }
{
    Err(ListRefused {
        refusal,
        index: 0,
        running,
    })
}
