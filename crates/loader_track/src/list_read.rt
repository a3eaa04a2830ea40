// The entry that reads a list into rows.
ghost use Rattle.std.specs.Prelude.{◌≡◌, ℕ, length};
ghost use Rattle.track.specs.Cursor.{stop_of};
ghost use Rattle.loader.specs.Entry.{leaves};
ghost use Rattle.loader_track.specs.Lists.{stop_number, list_given, sheet_put, read_answer};

use base::Running;
use loader::{rules, told};
use rows::lists::read_rows;
use track::cursor::Stop;

// Why reading stopped: 0 at the end, 255 full, else the refusal's number. A `From` would have to stand beside the type, in a
// crate that knows no number of C's.
fn stop_number(stop: Stop) -> u8
    ensures { result ≡ stop_number (stop_of stop) }
{
    match stop {
        Stop::End => 0,
        Stop::Full => 255,
        Stop::Refused(refusal) => u8::from(refusal),
    }
}

// The list at a place, from a running status: its rows, how many they are, the place of the next unread byte, the
// running status there and the padding of its events. It answers why reading stopped; the rows before a refused event
// stand. Where the cells are too few for the events that were read it answers 20 and leaves everything as it came.
#[unsafe(no_mangle)]
pub extern "C" fn apk_list_read(
    bytes: &[u8],
    at: usize,
    running: u8,
    bits: u8,
    rows: &mut [u64],
    count: &mut usize,
    place: &mut usize,
    after: &mut u8,
    padding: &mut usize,
) -> u8
    ensures answer { result ≡ read_answer (list_given bits running bytes.now at) rows.old }
    ensures rows { rows.new ≡ (sheet_put (list_given bits running bytes.now at) rows.old).buffer }
    ensures count { count.new ≡ leaves (λ (n : ℕ). length (list_given bits running bytes.now at).events) (sheet_put (list_given bits running bytes.now at) rows.old).answer count.old }
    ensures place { place.new ≡ leaves (λ (n : ℕ). (list_given bits running bytes.now at).place) (sheet_put (list_given bits running bytes.now at) rows.old).answer place.old }
    ensures after { after.new ≡ leaves (λ (n : ℕ). (list_given bits running bytes.now at).running) (sheet_put (list_given bits running bytes.now at) rows.old).answer after.old }
    ensures padding { padding.new ≡ leaves (λ (n : ℕ). (list_given bits running bytes.now at).padding) (sheet_put (list_given bits running bytes.now at) rows.old).answer padding.old }
{
    let found = read_rows(bytes, at, Running { status: running }, rules(bits), rows);
    told(found.map(|list| list.count), count);
    told(found.map(|list| list.place), place);
    told(found.map(|list| list.running.status), after);
    told(found.map(|list| list.padding), padding);
    found.map_or_else(u8::from, |list| stop_number(list.stop))
}
