// The entries for one event, which is a row of numbers.
ghost use Rattle.std.specs.Prelude.{◌≡◌, ℕ};
ghost use Rattle.smf.specs.Event.{event_at};
ghost use Rattle.event.specs.Lent.{read_running};
ghost use Rattle.write.specs.Size.{Size};
ghost use Rattle.loader.specs.Entry.{from_bits, answered, leaves};
ghost use Rattle.rows.specs.One.{read_row};
ghost use Rattle.loader_track.specs.Events.{read_answered, read_used, read_padding, row_size, row_written};

use base::Running;
use loader::{rules, told};
use rows::WIDTH;
use rows::one::read_row;
use write::one::{row_length, write_row};

// The event at a place, from a running status: its row, the bytes used, the running status after it and its padding.
// A refusal leaves the row as it came, uses no byte, says the running status that it leaves, and has no padding.
#[unsafe(no_mangle)]
pub extern "C" fn apk_event_read(
    bytes: &[u8],
    at: usize,
    running: u8,
    bits: u8,
    row: &mut [u64; WIDTH],
    used: &mut usize,
    after: &mut u8,
    padding: &mut usize,
) -> u8
    ensures answer { result ≡ read_answered (event_at (from_bits bits) running bytes.now at) }
    ensures row { row.new ≡ read_row (event_at (from_bits bits) running bytes.now at) row.old }
    ensures used { used.new ≡ read_used (event_at (from_bits bits) running bytes.now at) }
    ensures after { after.new ≡ read_running (event_at (from_bits bits) running bytes.now at) }
    ensures padding { padding.new ≡ read_padding (event_at (from_bits bits) running bytes.now at) }
{
    // A refusal tells the same three parts as an event does, so that `told`, which stores of a value alone, does not do.
    match read_row(bytes, at, Running { status: running }, rules(bits), row) {
        Ok(event) => {
            *used = event.used;
            *after = event.running.status;
            *padding = event.padding;
            0
        }
        Err(refused) => {
            *used = refused.used;
            *after = refused.running.status;
            *padding = refused.padding;
            u8::from(refused.refusal)
        }
    }
}

// How many bytes a row's event has from a running status, and the running status after it. A refusal leaves both as they came.
#[unsafe(no_mangle)]
pub extern "C" fn apk_event_length(
    row: &[u64; WIDTH],
    payload: &[u8],
    running: u8,
    bits: u8,
    length: &mut usize,
    after: &mut u8,
) -> u8
    ensures answer { result ≡ answered (row_size (from_bits bits) running payload.now row.now) }
    ensures length { length.new ≡ leaves (λ (n : Size). n.length) (row_size (from_bits bits) running payload.now row.now) length.old }
    ensures after { after.new ≡ leaves (λ (n : Size). n.running) (row_size (from_bits bits) running payload.now row.now) after.old }
{
    let size = row_length(*row, Running { status: running }, rules(bits), payload);
    told(size.map(|size| size.length), length);
    told(size.map(|size| size.running.status), after)
}

// A row's event, put at a place of a lent buffer from a running status: the place after it, and the running status after it.
// A refusal leaves every byte and the place as they came, and the running status as given.
#[unsafe(no_mangle)]
pub extern "C" fn apk_event_write(
    row: &[u64; WIDTH],
    payload: &[u8],
    running: u8,
    bits: u8,
    out: &mut [u8],
    at: usize,
    next: &mut usize,
    after: &mut u8,
) -> u8
    ensures answer { result ≡ answered (row_written (from_bits bits) running payload.now row.now out.old at).written.answer }
    ensures buffer { out.new ≡ (row_written (from_bits bits) running payload.now row.now out.old at).written.buffer }
    ensures next { next.new ≡ leaves (λ (n : ℕ). n) (row_written (from_bits bits) running payload.now row.now out.old at).written.answer next.old }
    ensures after { after.new ≡ (row_written (from_bits bits) running payload.now row.now out.old at).running }
{
    // A refusal tells the running status too, so that `told` does not do.
    match write_row(
        *row,
        Running { status: running },
        rules(bits),
        payload,
        out,
        at,
    ) {
        Ok(past) => {
            *next = past.next;
            *after = past.running.status;
            0
        }
        Err(refused) => {
            *after = refused.running.status; // as it was given
            u8::from(refused.refusal)
        }
    }
}
