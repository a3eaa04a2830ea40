// The entries of `loader_track::list_write` for C.
ghost use Rattle.std.specs.Prelude.{◌≡◌};
ghost use Rattle.loader.specs.Entry.{from_bits};
ghost use Rattle.loader_track.specs.Lists.{sheet_size, sheet_written, number_answered, length_left, index_left};

// How many bytes the events of so many rows have from a running status, and the running status after them.
// A refusal leaves the length as it came and the running status as given, and says the index of the first illegal event.
#[unsafe(no_mangle)]
pub extern "C" fn apk_list_length(
    rows: &[u64],
    count: usize,
    payload: &[u8],
    running: u8,
    bits: u8,
    length: &mut usize,
    after: &mut u8,
    index: &mut usize,
) -> u8
    ensures answer { result ≡ number_answered (sheet_size (from_bits bits) running payload.now rows.now count).answer }
    ensures length { length.new ≡ length_left (sheet_size (from_bits bits) running payload.now rows.now count).answer length.old }
    ensures after { after.new ≡ (sheet_size (from_bits bits) running payload.now rows.now count).running }
    ensures index { index.new ≡ index_left (sheet_size (from_bits bits) running payload.now rows.now count).answer index.old }
{
    loader_track::list_write::apk_list_length(
        rows, count, payload, running, bits, length, after, index,
    )
}

// The events of so many rows, put into a lent buffer from its first byte on, from a running status: how many bytes they
// have, and the running status after them. A refusal leaves every byte and the length as they came and the running
// status as given, and says the index of the first illegal event.
#[unsafe(no_mangle)]
pub extern "C" fn apk_list_write(
    rows: &[u64],
    count: usize,
    payload: &[u8],
    running: u8,
    bits: u8,
    out: &mut [u8],
    length: &mut usize,
    after: &mut u8,
    index: &mut usize,
) -> u8
    ensures answer { result ≡ number_answered (sheet_written (from_bits bits) running payload.now rows.now count out.old).answer }
    ensures buffer { out.new ≡ (sheet_written (from_bits bits) running payload.now rows.now count out.old).buffer }
    ensures length { length.new ≡ length_left (sheet_written (from_bits bits) running payload.now rows.now count out.old).answer length.old }
    ensures after { after.new ≡ (sheet_written (from_bits bits) running payload.now rows.now count out.old).running }
    ensures index { index.new ≡ index_left (sheet_written (from_bits bits) running payload.now rows.now count out.old).answer index.old }
{
    loader_track::list_write::apk_list_write(
        rows, count, payload, running, bits, out, length, after, index,
    )
}
