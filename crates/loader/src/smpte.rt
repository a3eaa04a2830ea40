// The entries for rates and SMPTE times. A rate goes over as its number, a time as six, since C gives no struct: hour,
// minute, second, frame, subframe, rate.
ghost use Rattle.std.specs.Prelude.{◌≡◌, List, ℕ, Float};
ghost use Rattle.smf.specs.Answer.{and_then};
ghost use Rattle.smf.specs.Seconds.{rate_float, seconds_of};
ghost use Rattle.smf.specs.Smpte.{to_rate, rate_of_code, code_of_rate, to_time, time_of, encode_time, position};
ghost use Rattle.smf.specs.Width.{low_bits};
ghost use Rattle.header.specs.Smpte.{smpte_time_of, tried_smpte_time};
ghost use Rattle.loader.specs.Entry.{from_bits, answered, leaves};
ghost use Rattle.loader.specs.Smpte.{time_given, six_of};

use crate::{rules, told};
use base::{Refusal, Restricted, u2};
use header::{Fps, SmpteTime};

// The rate of a code, whose low two bits count.
#[unsafe(no_mangle)]
pub extern "C" fn apk_fps_from_code(code: u8) -> u8
    ensures { result ≡ rate_of_code (low_bits 2 code) }
{
    Fps::from_code(u2(code)).as_int()
}

// The two-bit code of a rate.
#[unsafe(no_mangle)]
pub extern "C" fn apk_fps_as_code(rate: u8, code: &mut u8) -> u8
    ensures answer { result ≡ answered (to_rate rate) }
    ensures code { code.new ≡ leaves code_of_rate (to_rate rate) code.old }
{
    told(Fps::from_int(rate).map(|fps| fps.as_code().as_int()), code)
}

// The rate of a whole number of frames in a second.
#[unsafe(no_mangle)]
pub extern "C" fn apk_fps_from_int(raw: u8, rate: &mut u8) -> u8
    ensures answer { result ≡ answered (to_rate raw) }
    ensures rate { rate.new ≡ leaves (λ (n : ℕ). n) (to_rate raw) rate.old }
{
    told(Fps::from_int(raw).map(Fps::as_int), rate)
}

// The frames in a second at a rate, as a float.
#[unsafe(no_mangle)]
pub extern "C" fn apk_fps_as_f32(rate: u8, frames: &mut f32) -> u8
    ensures answer { result ≡ answered (to_rate rate) }
    ensures frames { frames.new ≡ leaves rate_float (to_rate rate) frames.old }
{
    told(Fps::from_int(rate).map(Fps::as_f32), frames)
}

// The time of six numbers, in its ranges or not: what the entries that take a time have first of what they are given. 16
// where the last is no rate.
fn time_given(
    hour: u8,
    minute: u8,
    second: u8,
    frame: u8,
    subframe: u8,
    rate: u8,
) -> Result<SmpteTime, Refusal>
    ensures { tried_smpte_time result ≡ time_given hour minute second frame subframe rate }
{
    let fps = Fps::from_int(rate)?;
    Ok(SmpteTime {
        hour,
        minute,
        second,
        frame,
        subframe,
        fps,
    })
}

// Whether six numbers are an SMPTE time.
#[unsafe(no_mangle)]
pub extern "C" fn apk_smpte_new(
    hour: u8,
    minute: u8,
    second: u8,
    frame: u8,
    subframe: u8,
    rate: u8,
    bits: u8,
) -> u8
    ensures { result ≡ answered (and_then (time_given hour minute second frame subframe rate) (to_time (from_bits bits))) }
{
    let made = Fps::from_int(rate).and_then(|fps| {
        SmpteTime::new(hour, minute, second, frame, subframe, fps, rules(bits))
    });
    made.map_or_else(u8::from, |_| 0)
}

// The SMPTE time of five bytes, of which the first holds hour and rate code.
#[unsafe(no_mangle)]
pub extern "C" fn apk_smpte_read(
    first: u8,
    minute: u8,
    second: u8,
    frame: u8,
    subframe: u8,
    bits: u8,
    time: &mut [u8; 6],
) -> u8
    ensures answer { result ≡ answered (time_of (from_bits bits) first minute second frame subframe) }
    ensures time { time.new ≡ leaves six_of (time_of (from_bits bits) first minute second frame subframe) time.old }
{
    let found = SmpteTime::read([first, minute, second, frame, subframe], rules(bits));
    told(found.map(six_of), time)
}

// The six numbers of a time, as C is told it.
fn six_of(time: SmpteTime) -> [u8; 6]
    ensures { result ≡ six_of (smpte_time_of time) }
{
    [
        time.hour(),
        time.minute(),
        time.second(),
        time.frame(),
        time.subframe(),
        time.fps().as_int(),
    ]
}

// The five bytes of an SMPTE time.
#[unsafe(no_mangle)]
pub extern "C" fn apk_smpte_encode(
    hour: u8,
    minute: u8,
    second: u8,
    frame: u8,
    subframe: u8,
    rate: u8,
    bits: u8,
    bytes: &mut [u8; 5],
) -> u8
    ensures answer { result ≡ answered (and_then (time_given hour minute second frame subframe rate) (encode_time (from_bits bits))) }
    ensures bytes { bytes.new ≡ leaves (λ (b : List ℕ). b) (and_then (time_given hour minute second frame subframe rate) (encode_time (from_bits bits))) bytes.old }
{
    let time = time_given(hour, minute, second, frame, subframe, rate);
    told(time.and_then(|time| time.encode(rules(bits))), bytes)
}

// The seconds of an SMPTE time with its frames and subframes as their fraction, without hours and minutes.
#[unsafe(no_mangle)]
pub extern "C" fn apk_smpte_second_f32(
    hour: u8,
    minute: u8,
    second: u8,
    frame: u8,
    subframe: u8,
    rate: u8,
    bits: u8,
    seconds: &mut f32,
) -> u8
    ensures answer { result ≡ answered (and_then (time_given hour minute second frame subframe rate) (seconds_of (from_bits bits))) }
    ensures seconds { seconds.new ≡ leaves (λ (x : Float). x) (and_then (time_given hour minute second frame subframe rate) (seconds_of (from_bits bits))) seconds.old }
{
    let time = time_given(hour, minute, second, frame, subframe, rate);
    told(time.and_then(|time| time.second_f32(rules(bits))), seconds)
}

// How many subframes of the day have passed at an SMPTE time.
#[unsafe(no_mangle)]
pub extern "C" fn apk_smpte_position(
    hour: u8,
    minute: u8,
    second: u8,
    frame: u8,
    subframe: u8,
    rate: u8,
    bits: u8,
    subframes: &mut u32,
) -> u8
    ensures answer { result ≡ answered (and_then (time_given hour minute second frame subframe rate) (position (from_bits bits))) }
    ensures subframes { subframes.new ≡ leaves (λ (n : ℕ). n) (and_then (time_given hour minute second frame subframe rate) (position (from_bits bits))) subframes.old }
{
    let time = time_given(hour, minute, second, frame, subframe, rate);
    told(time.and_then(|time| time.position(rules(bits))), subframes)
}
