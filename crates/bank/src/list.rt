// A track of a bank, listed as its bytes by themselves are.
ghost use Rattle.std.specs.Prelude.{◌≡◌};
ghost use Rattle.base.specs.Rules.{rules_of};
ghost use Rattle.track.specs.List.{capacity};
ghost use Rattle.bank.specs.Bank.{most_tracks};
ghost use Rattle.bank.specs.Read.{track_listed};
ghost use Rattle.bank.specs.Answers.{list_answer, listed_track};

use crate::read::bank_track;
use base::{Refusal, Rules, Running};
use track::list::EventList;
use track::read::ReadList;

// Lists the track of an index, from no running status: starts and places count from the track's first byte.
pub fn list_track(block: &[u8], index: usize, rules: Rules) -> Result<ReadList, Refusal>
    ensures { listed_track result ≡ list_answer capacity (track_listed (rules_of rules) capacity most_tracks block.now index) }
{
    let range = bank_track(block, index)?;
    // The cut stands here and in `apk_bank_list`, an entry of the C interface: as a function it would need what `bank_track`
    // says of the range as a `requires`, and is no plainer for one line.
    let track = &block[range.start..range.start + range.length];
    Ok(EventList::read(track, 0, Running { status: 0 }, rules))
}
