// What every other crate speaks of: the refusals, the restricted numbers, the rules of a call, the running status and a payload's range.
// The types stand here at the root and what they do in the modules: the prover writes out the full path of every type that a value holds.
#![tactic(auto)]

pub mod int;
pub mod refusals;
pub mod status;

pub use int::{Restricted, tried};

// Why something was refused, in the order of the table's numbers: document 01, "Refusal numbers".
#[derive(Clone, Copy, Debug, PartialEq, Eq)]
pub enum Refusal {
    // 1: the running status is invalid, neither none (0) nor 80..EF
    RunningStatus,
    // 2, strict: a number is cut off by the end of the bytes
    NumberCutOff,
    // 3, strict: the fourth byte of a number has bit 7 set, as if a fifth followed
    NumberContinues,
    // 4: no byte stands where the status is due
    NoStatus,
    // 5: a data byte stands there, and the running status is none
    NoRunningStatus,
    // 6: the status is F1..F6, which no track may have
    SystemCommon,
    // 7: the status is F8..FE, which no track may have
    SystemRealtime,
    // 8: a channel message has too few data bytes
    ChannelDataShort,
    // 9: a data byte of a channel message has bit 7 set
    ChannelDataTopBit,
    // 10: no type byte of a meta message is there
    NoMetaType,
    // 11, strict: a payload is cut off by the end of the bytes
    PayloadCutOff,
    // 12, strict: a channel is above 15, or a port above 127
    ChannelOrPort,
    // 13: an SMPTE time is outside its ranges
    SmpteTime,
    // 14: a key signature has under two bytes
    KeySignatureShort,
    // 15: a format is above 2
    NoSuchFormat,
    // 16: a number is no rate of SMPTE times
    NoSuchRate,
    // 17: a header field has under two bytes
    HeaderFieldShort,
    // 18, written: a restricted field is above its width, or an SMPTE time outside its ranges; also a number above its width
    // of which a restricted one is to be made, and a field of a list that is put into a table
    AboveWidth,
    // 19, written: a payload's range is not inside the payload bytes; also a track's, of a bank, not inside the bytes lent
    PayloadOutside,
    // 20, written: there is no room; also where cells are too few for the rows that are handed out, and where a bank would be
    // above its most bytes
    NoRoom,
    // 21, written: the count is above what a list holds; also of a list that is put into a table
    TooManyEvents,
    // 22, written: a payload is above 268,435,455 bytes
    PayloadTooLong,
    // 23, written: an `Unknown` that would be read as a named kind, or refused as a short key signature
    UnknownNamed,
    // 24: a bank is shorter than its header and entries
    BankShort,
    // 25: a bank's count is above the tracks that a bank may have
    TooManyTracks,
    // 26: any other disagreement in a bank, or one above its most bytes
    BankDisagrees,
    // 34: a bank has no track of this index
    NoSuchTrack,
}

// A number of two bits: the code of an SMPTE rate.
#[derive(Clone, Copy, Debug, PartialEq, Eq)]
pub struct u2(pub u8);

// A number of four bits: a channel.
#[derive(Clone, Copy, Debug, PartialEq, Eq)]
pub struct u4(pub u8);

// A number of seven bits, as a data byte holds it: a key, a velocity, a controller, a program, a port.
#[derive(Clone, Copy, Debug, PartialEq, Eq)]
pub struct u7(pub u8);

// A number of 14 bits: a raw bend.
#[derive(Clone, Copy, Debug, PartialEq, Eq)]
pub struct u14(pub u16);

// A number of 15 bits: ticks in a beat.
#[derive(Clone, Copy, Debug, PartialEq, Eq)]
pub struct u15(pub u16);

// A number of 24 bits: microseconds in a beat.
#[derive(Clone, Copy, Debug, PartialEq, Eq)]
pub struct u24(pub u32);

// The rules of a call. Whoever reads, judges, measures or writes is given them and passes them on, so that a rule that is
// added moves only what looks at it.
#[derive(Clone, Copy, Debug, PartialEq, Eq)]
pub struct Rules {
    // whether reading refuses what it else takes as it stands: the Rust's feature `strict`, at run time
    pub strict: bool,
}

// The running status, the status byte that the next event may leave out: the Rust's `Option<u8>`.
#[derive(Clone, Copy, Debug, PartialEq, Eq)]
pub struct Running {
    // 80..EF, or 0 for none; any other is invalid
    pub status: u8,
}

// Where a payload stands in the bytes lent: the Rust's `&'a [u8]` in a kind.
#[derive(Clone, Copy, Debug, PartialEq, Eq)]
pub struct Range {
    // the place of its first byte
    pub start: usize,
    // how many bytes it has
    pub length: usize,
}
