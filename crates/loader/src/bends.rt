// The entries for bends: the raw bend of 14 bits, as a signed integer or as a float and back. C has a name for each width of
// a float.
ghost use Rattle.std.specs.Prelude.{◌≡◌, ℤ, pos, Float};
ghost use Rattle.std.specs.Float.{binary32, binary64};
ghost use Rattle.smf.specs.Bend.{lowest, highest, raw_bend, raw_bend_of_float, ask_bend, ask_float};
ghost use Rattle.loader.specs.Entry.{answered, leaves};

use crate::told;
use base::{Restricted, u14};
use midi::PitchBend;

// The raw bend of full bend downwards.
#[unsafe(no_mangle)]
pub extern "C" fn apk_bend_min_raw_value() -> u16
    ensures { result ≡ raw_bend lowest }
{
    PitchBend::min_raw_value().0.as_int()
}

// The raw bend of no bend.
#[unsafe(no_mangle)]
pub extern "C" fn apk_bend_mid_raw_value() -> u16
    ensures { result ≡ raw_bend (pos 0) }
{
    PitchBend::mid_raw_value().0.as_int()
}

// The raw bend of full bend upwards.
#[unsafe(no_mangle)]
pub extern "C" fn apk_bend_max_raw_value() -> u16
    ensures { result ≡ raw_bend highest }
{
    PitchBend::max_raw_value().0.as_int()
}

// The raw bend of an integer.
#[unsafe(no_mangle)]
pub extern "C" fn apk_bend_from_int(int: i16) -> u16
    ensures { result ≡ raw_bend int }
{
    PitchBend::from_int(int).0.as_int()
}

// The raw bend of a float.
#[unsafe(no_mangle)]
pub extern "C" fn apk_bend_from_f32(float: f32) -> u16
    ensures { result ≡ raw_bend_of_float float }
{
    PitchBend::from_f32(float).0.as_int()
}

// The raw bend of a float of 64 bits.
#[unsafe(no_mangle)]
pub extern "C" fn apk_bend_from_f64(float: f64) -> u16
    ensures { result ≡ raw_bend_of_float float }
{
    PitchBend::from_f64(float).0.as_int()
}

// A raw bend as an integer.
#[unsafe(no_mangle)]
pub extern "C" fn apk_bend_as_int(raw: u16, int: &mut i16) -> u8
    ensures answer { result ≡ answered (ask_bend raw) }
    ensures int { int.new ≡ leaves (λ (z : ℤ). z) (ask_bend raw) int.old }
{
    told(PitchBend(u14(raw)).as_int(), int)
}

// A raw bend as a float.
#[unsafe(no_mangle)]
pub extern "C" fn apk_bend_as_f32(raw: u16, float: &mut f32) -> u8
    ensures answer { result ≡ answered (ask_float binary32 raw) }
    ensures float { float.new ≡ leaves (λ (x : Float). x) (ask_float binary32 raw) float.old }
{
    told(PitchBend(u14(raw)).as_f32(), float)
}

// A raw bend as a float of 64 bits.
#[unsafe(no_mangle)]
pub extern "C" fn apk_bend_as_f64(raw: u16, float: &mut f64) -> u8
    ensures answer { result ≡ answered (ask_float binary64 raw) }
    ensures float { float.new ≡ leaves (λ (x : Float). x) (ask_float binary64 raw) float.old }
{
    told(PitchBend(u14(raw)).as_f64(), float)
}
