// What the ranges of a bank's tracks are before any is known.
ghost use Rattle.std.specs.Prelude.{◌≡◌, replicate};
ghost use Rattle.smf.specs.Event.{no_span};
ghost use Rattle.bank.specs.Bank.{most_tracks};
ghost use Rattle.bank.specs.Answers.{spans_of};

use crate::TRACKS;
use base::Range;

// The ranges of no tracks: start 0 and length 0, all of them.
pub fn no_tracks() -> [Range; TRACKS]
    ensures { spans_of result ≡ replicate most_tracks no_span }
{
    [Range {
        start: 0,
        length: 0,
    }; TRACKS]
}
