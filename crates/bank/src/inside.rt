// Ranges that were looked at. The struct stands in a file of its own, since what else is said of it names the struct.
ghost use Rattle.std.specs.Prelude.{◌≡◌, true};
ghost use Rattle.bank.specs.Write.{all_inside};
ghost use Rattle.bank.specs.Answers.{spans_of};

use base::Range;

// The bytes lent, and ranges that are inside them.
#[derive(Clone, Copy)]
pub struct Inside<'a> {
    // the bytes lent
    pub bytes: &'a [u8],
    // the ranges
    pub ranges: &'a [Range],
    ghost all: { all_inside bytes.now (spans_of ranges.now) ≡ true },
}
