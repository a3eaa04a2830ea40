// The format field of a header: how the tracks of a file belong together.
ghost use Rattle.std.specs.Prelude.{◌≡◌};
ghost use Rattle.smf.specs.Header.{read_format, format_bytes};
ghost use Rattle.header.specs.Format.{format_of, format_read_of};

use crate::field;
use base::Refusal;

// How the tracks of a file belong together.
#[derive(Clone, Copy, Debug, PartialEq, Eq)]
pub enum Format {
    // 0: there is one track
    SingleTrack,
    // 1: tracks that are played at the same time
    Parallel,
    // 2: tracks that are songs of their own, played one after the other
    Sequential,
}

impl Format {
    // Reads the format that the bytes begin with; what follows its two bytes is not looked at.
    pub fn read(raw: &[u8]) -> Result<Format, Refusal>
        ensures { format_read_of result ≡ read_format raw.now }
    {
        let &[high, low, ..] = raw else {
            return Err(Refusal::HeaderFieldShort);
        };
        match field::word(high, low) {
            0 => Ok(Format::SingleTrack),
            1 => Ok(Format::Parallel),
            2 => Ok(Format::Sequential),
            _ => Err(Refusal::NoSuchFormat),
        }
    }

    // The two bytes of the format.
    pub fn encode(self) -> [u8; 2]
        ensures { result ≡ format_bytes (format_of self) }
    {
        match self {
            Format::SingleTrack => [0, 0],
            Format::Parallel => [0, 1],
            Format::Sequential => [0, 2],
        }
    }
}
