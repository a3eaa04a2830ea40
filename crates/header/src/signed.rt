// Bytes as signed numbers: the Rust's `as i8` of a byte and `as u8` of a signed one.
ghost use Rattle.std.specs.Prelude.{◌≡◌, neg_ℤ};
ghost use Rattle.smf.specs.Signed.{signed_byte, byte_of_signed};

// The signed number of a byte in two's complement: of a key's sharps and flats.
#[tactic(auto, unfolding(smf::specs::Signed::signed_byte))]
pub fn from_byte(byte: u8) -> i8
    ensures { result ≡ signed_byte byte }
{
    byte.cast_signed()
}

// The byte of a signed number in two's complement.
#[tactic(auto, unfolding(smf::specs::Signed::byte_of_signed))]
pub fn to_byte(number: i8) -> u8
    ensures { result ≡ byte_of_signed number }
{
    number.cast_unsigned()
}

// Minus a signed byte, at a wider type: -128 has no opposite among signed bytes.
pub fn negated(number: i8) -> i16
    ensures { result ≡ neg_ℤ number }
{
    -(number as i16)
}
