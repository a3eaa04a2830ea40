// The entries of `loader_track::list_read` for C.
ghost use Rattle.std.specs.Prelude.{◌≡◌, ℕ, length};
ghost use Rattle.loader.specs.Entry.{leaves};
ghost use Rattle.loader_track.specs.Lists.{list_given, sheet_put, read_answer};

// The list at a place, from a running status: its rows, how many they are, the place of the next unread byte, the
// running status there and the padding of its events. It answers why reading stopped; the rows before a refused event
// stand. Where the cells are too few for the events that were read it answers 20 and leaves everything as it came.
#[unsafe(no_mangle)]
pub extern "C" fn apk_list_read(
    bytes: &[u8],
    at: usize,
    running: u8,
    bits: u8,
    rows: &mut [u64],
    count: &mut usize,
    place: &mut usize,
    after: &mut u8,
    padding: &mut usize,
) -> u8
    ensures answer { result ≡ read_answer (list_given bits running bytes.now at) rows.old }
    ensures rows { rows.new ≡ (sheet_put (list_given bits running bytes.now at) rows.old).buffer }
    ensures count { count.new ≡ leaves (λ (n : ℕ). length (list_given bits running bytes.now at).events) (sheet_put (list_given bits running bytes.now at) rows.old).answer count.old }
    ensures place { place.new ≡ leaves (λ (n : ℕ). (list_given bits running bytes.now at).place) (sheet_put (list_given bits running bytes.now at) rows.old).answer place.old }
    ensures after { after.new ≡ leaves (λ (n : ℕ). (list_given bits running bytes.now at).running) (sheet_put (list_given bits running bytes.now at) rows.old).answer after.old }
    ensures padding { padding.new ≡ leaves (λ (n : ℕ). (list_given bits running bytes.now at).padding) (sheet_put (list_given bits running bytes.now at) rows.old).answer padding.old }
{
    loader_track::list_read::apk_list_read(
        bytes, at, running, bits, rows, count, place, after, padding,
    )
}
