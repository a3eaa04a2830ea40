// Two bytes as a number: the Rust's `u16::read`. Header fields are read so, and so are track numbers and tempos.
ghost use Rattle.std.specs.Prelude.{◌≡◌};
ghost use Rattle.smf.specs.Header as smf;

// The number of two bytes, the high one first.
pub fn word(high: u8, low: u8) -> u16
    ensures { result ≡ smf.word high low }
{
    u16::from_be_bytes([high, low])
}
