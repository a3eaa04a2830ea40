// The entries of `loader::smpte` for C.
ghost use Rattle.std.specs.Prelude.{◌≡◌, List, ℕ, Float};
ghost use Rattle.smf.specs.Answer.{and_then};
ghost use Rattle.smf.specs.Seconds.{rate_float, seconds_of};
ghost use Rattle.smf.specs.Smpte.{to_rate, rate_of_code, code_of_rate, to_time, time_of, encode_time, position};
ghost use Rattle.smf.specs.Width.{low_bits};
ghost use Rattle.loader.specs.Entry.{from_bits, answered, leaves};
ghost use Rattle.loader.specs.Smpte.{time_given, six_of};

// The rate of a code, whose low two bits count.
#[unsafe(no_mangle)]
pub extern "C" fn apk_fps_from_code(code: u8) -> u8
    ensures { result ≡ rate_of_code (low_bits 2 code) }
{
    loader::smpte::apk_fps_from_code(code)
}

// The two-bit code of a rate.
#[unsafe(no_mangle)]
pub extern "C" fn apk_fps_as_code(rate: u8, code: &mut u8) -> u8
    ensures answer { result ≡ answered (to_rate rate) }
    ensures code { code.new ≡ leaves code_of_rate (to_rate rate) code.old }
{
    loader::smpte::apk_fps_as_code(rate, code)
}

// The rate of a whole number of frames in a second.
#[unsafe(no_mangle)]
pub extern "C" fn apk_fps_from_int(raw: u8, rate: &mut u8) -> u8
    ensures answer { result ≡ answered (to_rate raw) }
    ensures rate { rate.new ≡ leaves (λ (n : ℕ). n) (to_rate raw) rate.old }
{
    loader::smpte::apk_fps_from_int(raw, rate)
}

// The frames in a second at a rate, as a float.
#[unsafe(no_mangle)]
pub extern "C" fn apk_fps_as_f32(rate: u8, frames: &mut f32) -> u8
    ensures answer { result ≡ answered (to_rate rate) }
    ensures frames { frames.new ≡ leaves rate_float (to_rate rate) frames.old }
{
    loader::smpte::apk_fps_as_f32(rate, frames)
}

// Whether six numbers are an SMPTE time.
#[unsafe(no_mangle)]
pub extern "C" fn apk_smpte_new(
    hour: u8,
    minute: u8,
    second: u8,
    frame: u8,
    subframe: u8,
    rate: u8,
    bits: u8,
) -> u8
    ensures { result ≡ answered (and_then (time_given hour minute second frame subframe rate) (to_time (from_bits bits))) }
{
    loader::smpte::apk_smpte_new(hour, minute, second, frame, subframe, rate, bits)
}

// The SMPTE time of five bytes, of which the first holds hour and rate code.
#[unsafe(no_mangle)]
pub extern "C" fn apk_smpte_read(
    first: u8,
    minute: u8,
    second: u8,
    frame: u8,
    subframe: u8,
    bits: u8,
    time: &mut [u8; 6],
) -> u8
    ensures answer { result ≡ answered (time_of (from_bits bits) first minute second frame subframe) }
    ensures time { time.new ≡ leaves six_of (time_of (from_bits bits) first minute second frame subframe) time.old }
{
    loader::smpte::apk_smpte_read(first, minute, second, frame, subframe, bits, time)
}

// The five bytes of an SMPTE time.
#[unsafe(no_mangle)]
pub extern "C" fn apk_smpte_encode(
    hour: u8,
    minute: u8,
    second: u8,
    frame: u8,
    subframe: u8,
    rate: u8,
    bits: u8,
    bytes: &mut [u8; 5],
) -> u8
    ensures answer { result ≡ answered (and_then (time_given hour minute second frame subframe rate) (encode_time (from_bits bits))) }
    ensures bytes { bytes.new ≡ leaves (λ (b : List ℕ). b) (and_then (time_given hour minute second frame subframe rate) (encode_time (from_bits bits))) bytes.old }
{
    loader::smpte::apk_smpte_encode(hour, minute, second, frame, subframe, rate, bits, bytes)
}

// The seconds of an SMPTE time with its frames and subframes as their fraction, without hours and minutes.
#[unsafe(no_mangle)]
pub extern "C" fn apk_smpte_second_f32(
    hour: u8,
    minute: u8,
    second: u8,
    frame: u8,
    subframe: u8,
    rate: u8,
    bits: u8,
    seconds: &mut f32,
) -> u8
    ensures answer { result ≡ answered (and_then (time_given hour minute second frame subframe rate) (seconds_of (from_bits bits))) }
    ensures seconds { seconds.new ≡ leaves (λ (x : Float). x) (and_then (time_given hour minute second frame subframe rate) (seconds_of (from_bits bits))) seconds.old }
{
    loader::smpte::apk_smpte_second_f32(hour, minute, second, frame, subframe, rate, bits, seconds)
}

// How many subframes of the day have passed at an SMPTE time.
#[unsafe(no_mangle)]
pub extern "C" fn apk_smpte_position(
    hour: u8,
    minute: u8,
    second: u8,
    frame: u8,
    subframe: u8,
    rate: u8,
    bits: u8,
    subframes: &mut u32,
) -> u8
    ensures answer { result ≡ answered (and_then (time_given hour minute second frame subframe rate) (position (from_bits bits))) }
    ensures subframes { subframes.new ≡ leaves (λ (n : ℕ). n) (and_then (time_given hour minute second frame subframe rate) (position (from_bits bits))) subframes.old }
{
    loader::smpte::apk_smpte_position(hour, minute, second, frame, subframe, rate, bits, subframes)
}
