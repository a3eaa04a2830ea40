// The refusals' numbers: document 01, "Refusal numbers".
ghost use Rattle.std.specs.Prelude.{◌≡◌};
ghost use Rattle.base.specs.Refusal.{number_of};

use crate::Refusal;
// The number in the table, which is what a caller in C is told and what the programs print. There is no `Display`: nothing could
// be promised of its text.
impl From<Refusal> for u8 {
    ghost from_gives = { λ refusal n. n ≡ number_of refusal };

    fn from(refusal: Refusal) -> u8 {
        match refusal {
            Refusal::RunningStatus => 1,
            Refusal::NumberCutOff => 2,
            Refusal::NumberContinues => 3,
            Refusal::NoStatus => 4,
            Refusal::NoRunningStatus => 5,
            Refusal::SystemCommon => 6,
            Refusal::SystemRealtime => 7,
            Refusal::ChannelDataShort => 8,
            Refusal::ChannelDataTopBit => 9,
            Refusal::NoMetaType => 10,
            Refusal::PayloadCutOff => 11,
            Refusal::ChannelOrPort => 12,
            Refusal::SmpteTime => 13,
            Refusal::KeySignatureShort => 14,
            Refusal::NoSuchFormat => 15,
            Refusal::NoSuchRate => 16,
            Refusal::HeaderFieldShort => 17,
            Refusal::AboveWidth => 18,
            Refusal::PayloadOutside => 19,
            Refusal::NoRoom => 20,
            Refusal::TooManyEvents => 21,
            Refusal::PayloadTooLong => 22,
            Refusal::UnknownNamed => 23,
            Refusal::BankShort => 24,
            Refusal::TooManyTracks => 25,
            Refusal::BankDisagrees => 26,
            Refusal::NoSuchTrack => 34,
        }
    }
}
