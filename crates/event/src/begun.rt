// An event of which the delta was read. It stands in a file of its own, since what else is said of it names the struct.
ghost use Rattle.std.specs.Prelude.{◌≤◌};
ghost use Rattle.smf.proofs.Place.{Sited};

use base::Rules;
use number::u28;

// An event of which the delta was read, and the place of its next byte.
#[derive(Clone, Copy)]
pub struct Begun<'a> {
    // the bytes that it stands in
    pub raw: &'a [u8],
    // the place where it began
    pub start: usize,
    // its delta
    pub delta: u28,
    // the delta's padding
    pub padding: usize,
    // the place of its next byte
    pub at: usize,
    // whether more is refused
    pub rules: Rules,
    ghost sited: { Sited raw.now start at },
    ghost padded: { padding ≤ at },
}
