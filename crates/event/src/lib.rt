// Module 6 of document 01: track events, a delta and a kind.
#![tactic(auto)]

mod begun;
mod message;
pub mod read;
pub mod running;

use base::{Range, u4};
use meta::MetaMessage;
use midi::MidiMessage;
use number::u28;

// What an event is.
#[derive(Clone, Copy)]
pub enum TrackEventKind {
    // 80..EF, or a data byte under running status: a message for a channel
    Midi { channel: u4, message: MidiMessage },
    // F0: a system exclusive message, its payload without F0
    SysEx(Range),
    // F7: bytes that are to be sent as they are
    Escape(Range),
    // FF: what the track says beside the music
    Meta(MetaMessage),
}

// One event of a track.
#[derive(Clone, Copy)]
pub struct TrackEvent {
    // the ticks since the event before
    pub delta: u28,
    // what it is
    pub kind: TrackEventKind,
}
