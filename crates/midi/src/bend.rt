// Bends: the Rust's `PitchBend`, a raw bend of 14 bits, as a signed integer or as a float and back.
ghost use Rattle.std.specs.Prelude.{◌≡◌, pos};
ghost use Rattle.std.specs.Float.{binary32, binary64};
ghost use Rattle.smf.specs.Bend.{lowest, highest, clamped, raw_bend, raw_bend_of_float, ask_bend, ask_float, GivesQuotient};
ghost use Rattle.midi.specs.Bend.{bend_int, bend_f32, bend_f64, between};

use crate::PitchBend;
use base::{Refusal, Restricted, u14};

impl PitchBend {
    // Full bend downwards.
    pub fn min_raw_value() -> PitchBend
        ensures { result.0.0 ≡ raw_bend lowest }
    {
        PitchBend(u14::new(0x0000))
    }

    // No bend.
    pub fn mid_raw_value() -> PitchBend
        ensures { result.0.0 ≡ raw_bend (pos 0) }
    {
        PitchBend(u14::new(0x2000))
    }

    // Full bend upwards.
    pub fn max_raw_value() -> PitchBend
        ensures { result.0.0 ≡ raw_bend highest }
    {
        PitchBend(u14::new(0x3FFF))
    }

    // The bend of a signed integer, -0x2000 to 0x1FFF; one beyond is clamped.
    pub fn from_int(int: i16) -> PitchBend
        ensures { result.0.0 ≡ raw_bend int }
    {
        PitchBend(u14::new((clamp_int(int) + 0x2000) as u16))
    }

    // The bend of a float in -1.0..1.0; one beyond is clamped, and a NaN gives full bend downwards.
    // The promise is on the float's exact value, at every float; that these operations lose nothing is proved.
    // What may not change: each width has a public function by the Rust's name here and back (docs/PROMISES.md).
    pub fn from_f32(float: f32) -> PitchBend
        ensures { result.0.0 ≡ raw_bend_of_float float }
    {
        PitchBend::from_int(
            std::num::truncating_f32_to_i64(within(float, -1.0, 1.0) * 8192.0) as i16,
        )
    }

    // The bend of a float of 64 bits, by the rule of `from_f32`.
    pub fn from_f64(float: f64) -> PitchBend
        ensures { result.0.0 ≡ raw_bend_of_float float }
    {
        PitchBend::from_int(
            std::num::truncating_f64_to_i64(within(float, -1.0, 1.0) * 8192.0) as i16,
        )
    }

    // The bend as a signed integer, 0 for no bend.
    pub fn as_int(self) -> Result<i16, Refusal>
        ensures { bend_int result ≡ ask_bend self.0.0 }
    {
        let raw = self.0.as_int();
        if raw <= 0x3FFF {
            Ok(raw as i16 - 0x2000)
        } else {
            Err(Refusal::AboveWidth)
        }
    }

    // The bend as a float in -1.0..1.0, exactly.
    pub fn as_f32(self) -> Result<f32, Refusal>
        ensures result_value { bend_f32 result ≡ ask_float binary32 self.0.0 }
        ensures exact { GivesQuotient self.0.0 (bend_f32 result) }
    {
        Ok(self.as_int()? as f32 * (1.0 / 8192.0))
    }

    // The bend as a float of 64 bits, exactly.
    pub fn as_f64(self) -> Result<f64, Refusal>
        ensures result_value { bend_f64 result ≡ ask_float binary64 self.0.0 }
        ensures exact { GivesQuotient self.0.0 (bend_f64 result) }
    {
        Ok(self.as_int()? as f64 * (1.0 / 8192.0))
    }
}

// A signed integer brought into the range of bends: the Rust's `int.max(-0x2000).min(0x1FFF)`. `clamp` does it; what it says
// in the terms of `smf`, for `from_int`, has its name here.
#[tactic(auto, unfolding(smf::specs::Bend::clamped))]
fn clamp_int(int: i16) -> i16
    ensures { result ≡ clamped int }
{
    int.clamp(-0x2000, 0x1FFF)
}

// A float brought into a range: the Rust's `float.max(low).min(high)`. No comparison holds of a NaN, so it gives the lowest.
fn within<F: PartialOrd + Copy>(float: F, low: F, high: F) -> F
    ensures { result ≡ between F.partial_cmp float low high }
{
    if low < float {
        if float < high { float } else { high }
    } else {
        low
    }
}
