// The timing field of a header: what a tick is.
ghost use Rattle.std.specs.Prelude.{◌≡◌};
ghost use Rattle.smf.specs.Header.{read_timing, encode_timing};
ghost use Rattle.header.specs.Timing.{timing_of, timing_read, timing_encoded};

use crate::{Fps, field, signed};
use base::{Refusal, Restricted, u15};

// What a tick is.
#[derive(Clone, Copy, Debug, PartialEq, Eq)]
pub enum Timing {
    // a part of a beat: how many ticks a beat has
    Metrical(u15),
    // a part of a second: how many frames a second has, and ticks a frame
    Timecode(Fps, u8),
}

impl Timing {
    // Reads the timing that the bytes begin with; what follows its two bytes is not looked at.
    pub fn read(raw: &[u8]) -> Result<Timing, Refusal>
        ensures { timing_read result ≡ read_timing raw.now }
    {
        let &[high, low, ..] = raw else {
            return Err(Refusal::HeaderFieldShort);
        };
        if high < 128 {
            return Ok(Timing::Metrical(u15(field::word(high, low))));
        }
        // The high byte is minus the rate. It is negated at 16 bits, where minus 128 has an opposite.
        let rate = signed::negated(signed::from_byte(high)) as u8;
        let fps = Fps::from_int(rate)?;
        Ok(Timing::Timecode(fps, low))
    }

    // The two bytes of the timing.
    pub fn encode(self) -> Result<[u8; 2], Refusal>
        ensures { timing_encoded result ≡ encode_timing (timing_of self) }
    {
        match self {
            Timing::Metrical(ticks) => {
                let ticks = ticks.as_int();
                if 32767 < ticks {
                    return Err(Refusal::AboveWidth);
                }
                Ok(ticks.to_be_bytes())
            }
            Timing::Timecode(fps, subframe) => {
                let minus = -(fps.as_int() as i8);
                Ok([signed::to_byte(minus), subframe])
            }
        }
    }
}
