// The four rates of SMPTE times, as codes, as numbers and as floats.
ghost use Rattle.std.specs.Prelude.{◌≡◌};
ghost use Rattle.smf.specs.Smpte.{rate_of_code, code_of_rate, to_rate};
ghost use Rattle.smf.specs.Seconds.{rate_float};
ghost use Rattle.smf.specs.Width.{low_bits};
ghost use Rattle.header.specs.Fps.{rate_of, tried_fps};

use crate::Fps;
use base::{Refusal, Restricted, u2};

impl Fps {
    // The rate of a two-bit code. The Rust's function refuses nothing, so that a code above its width counts by its low
    // two bits.
    pub fn from_code(code: u2) -> Fps
        ensures { rate_of result ≡ rate_of_code (low_bits 2 code.0) }
    {
        let code = u2::new(code.as_int()).as_int();
        match code {
            0 => Fps::Fps24,
            1 => Fps::Fps25,
            2 => Fps::Fps29,
            _ => Fps::Fps30,
        }
    }

    // The two-bit code of the rate, as the first byte of a time holds it.
    pub fn as_code(self) -> u2
        ensures { result.0 ≡ code_of_rate (rate_of self) }
    {
        match self {
            Fps::Fps24 => u2(0),
            Fps::Fps25 => u2(1),
            Fps::Fps29 => u2(2),
            Fps::Fps30 => u2(3),
        }
    }

    // The rate of a number of frames in a second. It has the Rust's name, which docs/RULES.md names; a `TryFrom` beside it would
    // be a second name of one function.
    pub fn from_int(raw: u8) -> Result<Fps, Refusal>
        ensures { tried_fps result ≡ to_rate raw }
    {
        match raw {
            24 => Ok(Fps::Fps24),
            25 => Ok(Fps::Fps25),
            29 => Ok(Fps::Fps29),
            30 => Ok(Fps::Fps30),
            _ => Err(Refusal::NoSuchRate),
        }
    }

    // The rate's number: the frames in a second, 29 where they are 29.97.
    pub fn as_int(self) -> u8
        ensures { result ≡ rate_of self }
    {
        match self {
            Fps::Fps24 => 24,
            Fps::Fps25 => 25,
            Fps::Fps29 => 29,
            Fps::Fps30 => 30,
        }
    }

    // The frames in a second as a float, which for 29 is no whole number.
    pub fn as_f32(self) -> f32
        ensures { result ≡ rate_float (rate_of self) }
    {
        match self {
            Fps::Fps24 => 24.0,
            Fps::Fps25 => 25.0,
            Fps::Fps29 => 30.0 / 1.001,
            Fps::Fps30 => 30.0,
        }
    }
}
