// The entries that measure and write a list of rows.
ghost use Rattle.std.specs.Prelude.{◌≡◌};
ghost use Rattle.loader.specs.Entry.{from_bits};
ghost use Rattle.write.specs.ListAnswers.{size_said};
ghost use Rattle.loader_track.specs.Lists.{sheet_size, sheet_written, number_answered, length_left, index_left};

use base::Running;
use loader::rules;
use write::answer::{ListRefused, Size};
use write::row_lists::{rows_length, write_rows};

// What C is told of a list that was measured or written. A refusal says more than its number, so that `told` does not do.
fn listed(
    answer: Result<Size, ListRefused>,
    length: &mut usize,
    after: &mut u8,
    index: &mut usize,
) -> u8
    ensures answer { result ≡ number_answered (size_said answer).answer }
    ensures length { length.new ≡ length_left (size_said answer).answer length.old }
    ensures after { after.new ≡ (size_said answer).running }
    ensures index { index.new ≡ index_left (size_said answer).answer index.old }
{
    match answer {
        Ok(size) => {
            *length = size.length;
            *after = size.running.status;
            0
        }
        Err(refused) => {
            *after = refused.running.status;
            *index = refused.index;
            u8::from(refused.refusal)
        }
    }
}

// How many bytes the events of so many rows have from a running status, and the running status after them.
// A refusal leaves the length as it came and the running status as given, and says the index of the first illegal event.
#[unsafe(no_mangle)]
pub extern "C" fn apk_list_length(
    rows: &[u64],
    count: usize,
    payload: &[u8],
    running: u8,
    bits: u8,
    length: &mut usize,
    after: &mut u8,
    index: &mut usize,
) -> u8
    ensures answer { result ≡ number_answered (sheet_size (from_bits bits) running payload.now rows.now count).answer }
    ensures length { length.new ≡ length_left (sheet_size (from_bits bits) running payload.now rows.now count).answer length.old }
    ensures after { after.new ≡ (sheet_size (from_bits bits) running payload.now rows.now count).running }
    ensures index { index.new ≡ index_left (sheet_size (from_bits bits) running payload.now rows.now count).answer index.old }
{
    let measured = rows_length(
        rows,
        count,
        Running { status: running },
        rules(bits),
        payload,
    );
    listed(measured, length, after, index)
}

// The events of so many rows, put into a lent buffer from its first byte on, from a running status: how many bytes they
// have, and the running status after them. A refusal leaves every byte and the length as they came and the running
// status as given, and says the index of the first illegal event.
#[unsafe(no_mangle)]
pub extern "C" fn apk_list_write(
    rows: &[u64],
    count: usize,
    payload: &[u8],
    running: u8,
    bits: u8,
    out: &mut [u8],
    length: &mut usize,
    after: &mut u8,
    index: &mut usize,
) -> u8
    ensures answer { result ≡ number_answered (sheet_written (from_bits bits) running payload.now rows.now count out.old).answer }
    ensures buffer { out.new ≡ (sheet_written (from_bits bits) running payload.now rows.now count out.old).buffer }
    ensures length { length.new ≡ length_left (sheet_written (from_bits bits) running payload.now rows.now count out.old).answer length.old }
    ensures after { after.new ≡ (sheet_written (from_bits bits) running payload.now rows.now count out.old).running }
    ensures index { index.new ≡ index_left (sheet_written (from_bits bits) running payload.now rows.now count out.old).answer index.old }
{
    let written = write_rows(
        rows,
        count,
        Running { status: running },
        rules(bits),
        payload,
        out,
    );
    listed(written, length, after, index)
}
