// SMPTE times of day: built, read, written, and asked for their seconds and their position. A time outside its ranges is
// refused wherever it is used.
ghost use Rattle.std.specs.Prelude.{◌≡◌, get_or};
ghost use Rattle.smf.specs.Smpte.{time, is_time, to_time, time_of, encode_time, position};
ghost use Rattle.smf.specs.Seconds.{seconds_of};
ghost use Rattle.base.specs.Rules.{rules_of};
ghost use Rattle.header.specs.Fps.{rate_of};
ghost use Rattle.header.specs.Smpte.{smpte_time_of, tried_smpte_time, encoded_smpte_time, asked_second, asked_position};

use crate::{Fps, SmpteTime};
use base::{Refusal, Restricted, Rules, u2};

impl SmpteTime {
    // A time of its six fields, where each is inside its range. Here and below, an `if` with its refusal says it as shortly as
    // `then_some` with `ok_or` and `?`.
    pub fn new(
        hour: u8,
        minute: u8,
        second: u8,
        frame: u8,
        subframe: u8,
        fps: Fps,
        rules: Rules,
    ) -> Result<SmpteTime, Refusal>
        ensures { tried_smpte_time result ≡ to_time (rules_of rules) (time hour minute second frame subframe (rate_of fps)) }
    {
        let time = SmpteTime {
            hour,
            minute,
            second,
            frame,
            subframe,
            fps,
        };
        if time.in_range(rules) {
            Ok(time)
        } else {
            Err(Refusal::SmpteTime)
        }
    }

    // Whether every field is inside its range, the frame below the rate's number. No rule touches times yet.
    #[tactic(auto, unfolding(smf::specs::Smpte::is_time))]
    pub fn in_range(self, rules: Rules) -> bool
        ensures { result ≡ is_time (rules_of rules) (smpte_time_of self) }
    {
        self.hour < 24
            && self.minute < 60
            && self.second < 60
            && self.frame < self.fps.as_int()
            && self.subframe < 100
    }

    // The hour, 0 to 23.
    pub fn hour(self) -> u8
        ensures { result ≡ self.hour }
    {
        self.hour
    }

    // The minute, 0 to 59.
    pub fn minute(self) -> u8
        ensures { result ≡ self.minute }
    {
        self.minute
    }

    // The second, 0 to 59.
    pub fn second(self) -> u8
        ensures { result ≡ self.second }
    {
        self.second
    }

    // The frame: which part of a second that is depends on the rate.
    pub fn frame(self) -> u8
        ensures { result ≡ self.frame }
    {
        self.frame
    }

    // The subframe, hundredths of a frame.
    pub fn subframe(self) -> u8
        ensures { result ≡ self.subframe }
    {
        self.subframe
    }

    // The rate.
    pub fn fps(self) -> Fps
        ensures { result ≡ self.fps }
    {
        self.fps
    }

    // The seconds with frames and subframes as their fraction, without hours and minutes: the Rust's operations in the
    // Rust's order, so that the float is the same bit for bit.
    pub fn second_f32(self, rules: Rules) -> Result<f32, Refusal>
        ensures { asked_second result ≡ seconds_of (rules_of rules) (smpte_time_of self) }
    {
        if !self.in_range(rules) {
            return Err(Refusal::SmpteTime); // which has no seconds
        }
        let seconds = self.second as f32
            + ((self.frame as f32 + self.subframe as f32 / 100.0) / self.fps.as_f32());
        Ok(seconds)
    }

    // How many subframes of the day have passed, which the Rust does not have.
    pub fn position(self, rules: Rules) -> Result<u32, Refusal>
        ensures { asked_position result ≡ position (rules_of rules) (smpte_time_of self) }
    {
        if !self.in_range(rules) {
            return Err(Refusal::SmpteTime); // which has no position
        }
        let seconds = 3600 * self.hour as u32 + 60 * self.minute as u32 + self.second as u32;
        let frames = seconds * self.fps.as_int() as u32 + self.frame as u32;
        let subframes = frames * 100 + self.subframe as u32;
        Ok(subframes)
    }

    // Reads a time of the five bytes of a message. Hour and rate code share the first, whose bit 7 is not looked at.
    pub fn read(bytes: [u8; 5], rules: Rules) -> Result<SmpteTime, Refusal>
        ensures { tried_smpte_time result ≡ time_of (rules_of rules) (get_or bytes 0 0) (get_or bytes 1 0) (get_or bytes 2 0) (get_or bytes 3 0) (get_or bytes 4 0) }
    {
        let [hour_fps, minute, second, frame, subframe] = bytes;
        let hour = hour_fps & 0x1F;
        let fps = Fps::from_code(u2::new(hour_fps >> 5));
        SmpteTime::new(hour, minute, second, frame, subframe, fps, rules)
    }

    // The five bytes of the time.
    pub fn encode(self, rules: Rules) -> Result<[u8; 5], Refusal>
        ensures { encoded_smpte_time result ≡ encode_time (rules_of rules) (smpte_time_of self) }
    {
        if !self.in_range(rules) {
            return Err(Refusal::AboveWidth);
        }
        let hour_fps = self.hour | self.fps.as_code().as_int() << 5;
        Ok([
            hour_fps,
            self.minute,
            self.second,
            self.frame,
            self.subframe,
        ])
    }
}
