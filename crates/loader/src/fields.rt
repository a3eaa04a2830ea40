// The entries for header fields. A format and a rate go over as their numbers.
ghost use Rattle.std.specs.Prelude.{◌≡◌, List, ℕ};
ghost use Rattle.smf.specs.Answer.{and_then};
ghost use Rattle.smf.specs.Header.{read_format, read_timing, encode_timing};
ghost use Rattle.header.specs.Format.{format_of};
ghost use Rattle.header.specs.Timing.{timing_of, timing_read};
ghost use Rattle.loader.specs.Entry.{answered, leaves};
ghost use Rattle.loader.specs.Fields.{encode_format, timing_given, ticks_of, timing_rate, subframe_of};

use crate::told;
use base::{Refusal, Restricted, u15};
use header::Fps;
use header::format::Format;
use header::timing::Timing;

// The number of a format, as C is told it. A `From` would have to stand beside the type, in a crate that knows no number of
// C's.
fn format_number(format: Format) -> u8
    ensures { result ≡ format_of format }
{
    match format {
        Format::SingleTrack => 0,
        Format::Parallel => 1,
        Format::Sequential => 2,
    }
}

// The format that the bytes begin with.
#[unsafe(no_mangle)]
pub extern "C" fn apk_format_read(bytes: &[u8], format: &mut u8) -> u8
    ensures answer { result ≡ answered (read_format bytes.now) }
    ensures format { format.new ≡ leaves (λ (n : ℕ). n) (read_format bytes.now) format.old }
{
    told(Format::read(bytes).map(format_number), format)
}

// The two bytes of a format.
#[tactic(auto, using(smf::proofs::Header::format_whole))]
#[unsafe(no_mangle)]
pub extern "C" fn apk_format_encode(format: u8, bytes: &mut [u8; 2]) -> u8
    ensures answer { result ≡ answered (encode_format format) }
    ensures bytes { bytes.new ≡ leaves (λ (b : List ℕ). b) (encode_format format) bytes.old }
{
    told(Format::read(&[0, format]).map(Format::encode), bytes)
}

// A timing as C gives it and is told it, by the rule that stands at `apk_timing_read`.
#[derive(Clone, Copy)]
struct TimingNumbers {
    ticks: u16,
    rate: u8,
    subframe: u8,
}

// What a timing does not have is 0.
impl From<Timing> for TimingNumbers {
    ghost from_gives = { λ timing numbers. (numbers.ticks ≡ ticks_of (timing_of timing)) × (numbers.rate ≡ timing_rate (timing_of timing)) × (numbers.subframe ≡ subframe_of (timing_of timing)) };

    fn from(timing: Timing) -> TimingNumbers {
        match timing {
            Timing::Metrical(beat) => TimingNumbers {
                ticks: beat.as_int(),
                rate: 0,
                subframe: 0,
            },
            Timing::Timecode(fps, subframe) => TimingNumbers {
                ticks: 0,
                rate: fps.as_int(),
                subframe,
            },
        }
    }
}

// At rate 0 ticks counts, at any other subframe.
impl TryFrom<TimingNumbers> for Timing {
    type Error = Refusal;

    ghost try_from_gives = { λ given timing. timing_read timing ≡ timing_given given.ticks given.rate given.subframe };

    fn try_from(given: TimingNumbers) -> Result<Timing, Refusal> {
        if given.rate == 0 {
            return Ok(Timing::Metrical(u15(given.ticks)));
        }
        let fps = Fps::from_int(given.rate)?;
        Ok(Timing::Timecode(fps, given.subframe))
    }
}

// The timing that the bytes begin with. Rate 0: ticks in a beat; any other: that rate, and in subframe the ticks in a
// frame. What a timing does not have is 0.
#[unsafe(no_mangle)]
pub extern "C" fn apk_timing_read(
    bytes: &[u8],
    ticks: &mut u16,
    rate: &mut u8,
    subframe: &mut u8,
) -> u8
    ensures answer { result ≡ answered (read_timing bytes.now) }
    ensures ticks { ticks.new ≡ leaves ticks_of (read_timing bytes.now) ticks.old }
    ensures rate { rate.new ≡ leaves timing_rate (read_timing bytes.now) rate.old }
    ensures subframe { subframe.new ≡ leaves subframe_of (read_timing bytes.now) subframe.old }
{
    let found = Timing::read(bytes).map(TimingNumbers::from);
    told(found.map(|timing| timing.ticks), ticks);
    told(found.map(|timing| timing.rate), rate);
    told(found.map(|timing| timing.subframe), subframe)
}

// The two bytes of a timing that is given as it is read: at rate 0 ticks counts, at any other subframe.
#[unsafe(no_mangle)]
pub extern "C" fn apk_timing_encode(ticks: u16, rate: u8, subframe: u8, bytes: &mut [u8; 2]) -> u8
    ensures answer { result ≡ answered (and_then (timing_given ticks rate subframe) encode_timing) }
    ensures bytes { bytes.new ≡ leaves (λ (b : List ℕ). b) (and_then (timing_given ticks rate subframe) encode_timing) bytes.old }
{
    let timing = Timing::try_from(TimingNumbers {
        ticks,
        rate,
        subframe,
    });
    told(timing.and_then(Timing::encode), bytes)
}
