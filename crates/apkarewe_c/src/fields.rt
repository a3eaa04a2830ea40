// The entries of `loader::fields` for C.
ghost use Rattle.std.specs.Prelude.{◌≡◌, List, ℕ};
ghost use Rattle.smf.specs.Answer.{and_then};
ghost use Rattle.smf.specs.Header.{read_format, read_timing, encode_timing};
ghost use Rattle.loader.specs.Entry.{answered, leaves};
ghost use Rattle.loader.specs.Fields.{encode_format, timing_given, ticks_of, timing_rate, subframe_of};

// The format that the bytes begin with.
#[unsafe(no_mangle)]
pub extern "C" fn apk_format_read(bytes: &[u8], format: &mut u8) -> u8
    ensures answer { result ≡ answered (read_format bytes.now) }
    ensures format { format.new ≡ leaves (λ (n : ℕ). n) (read_format bytes.now) format.old }
{
    loader::fields::apk_format_read(bytes, format)
}

// The two bytes of a format.
#[unsafe(no_mangle)]
pub extern "C" fn apk_format_encode(format: u8, bytes: &mut [u8; 2]) -> u8
    ensures answer { result ≡ answered (encode_format format) }
    ensures bytes { bytes.new ≡ leaves (λ (b : List ℕ). b) (encode_format format) bytes.old }
{
    loader::fields::apk_format_encode(format, bytes)
}

// The timing that the bytes begin with. Rate 0: ticks in a beat; any other: that rate, and in subframe the ticks in a
// frame. What a timing does not have is 0.
#[unsafe(no_mangle)]
pub extern "C" fn apk_timing_read(
    bytes: &[u8],
    ticks: &mut u16,
    rate: &mut u8,
    subframe: &mut u8,
) -> u8
    ensures answer { result ≡ answered (read_timing bytes.now) }
    ensures ticks { ticks.new ≡ leaves ticks_of (read_timing bytes.now) ticks.old }
    ensures rate { rate.new ≡ leaves timing_rate (read_timing bytes.now) rate.old }
    ensures subframe { subframe.new ≡ leaves subframe_of (read_timing bytes.now) subframe.old }
{
    loader::fields::apk_timing_read(bytes, ticks, rate, subframe)
}

// The two bytes of a timing that is given as it is read: at rate 0 ticks counts, at any other subframe.
#[unsafe(no_mangle)]
pub extern "C" fn apk_timing_encode(ticks: u16, rate: u8, subframe: u8, bytes: &mut [u8; 2]) -> u8
    ensures answer { result ≡ answered (and_then (timing_given ticks rate subframe) encode_timing) }
    ensures bytes { bytes.new ≡ leaves (λ (b : List ℕ). b) (and_then (timing_given ticks rate subframe) encode_timing) bytes.old }
{
    loader::fields::apk_timing_encode(ticks, rate, subframe, bytes)
}
