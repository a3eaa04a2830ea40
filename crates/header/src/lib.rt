// Module 3 of document 01: `Format`, `Timing`, `Fps` and `SmpteTime`.
#![tactic(auto)]

pub mod field;
pub mod format;
pub mod rate;
pub mod signed;
pub mod smpte;
pub mod timing;

// The rate of SMPTE times: how many frames a second has.
#[derive(Clone, Copy, Debug, PartialEq, Eq)]
pub enum Fps {
    // 24 frames, as film has
    Fps24,
    // 25 frames
    Fps25,
    // 29.97 frames, that is 30 / 1.001: called 29, with frames 0 to 28
    Fps29,
    // 30 frames
    Fps30,
}

// A time of day. The fields are public and may be outside their ranges: a reader never makes such a time, and what is
// asked of one is refused.
#[derive(Clone, Copy, Debug, PartialEq, Eq)]
pub struct SmpteTime {
    // below 24
    pub hour: u8,
    // below 60
    pub minute: u8,
    // below 60
    pub second: u8,
    // below the rate's number
    pub frame: u8,
    // hundredths of a frame, below 100
    pub subframe: u8,
    // the rate at which frames count
    pub fps: Fps,
}
