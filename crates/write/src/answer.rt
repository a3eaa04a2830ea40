// What measuring and writing answer.
use base::{Refusal, Running};

// How long what is written will be, or is, and the running status after it.
#[derive(Clone, Copy)]
pub struct Size {
    pub length: usize,
    pub running: Running,
}

// Where an event that was written ends: the place after it, and the running status there.
#[derive(Clone, Copy)]
pub struct Past {
    pub next: usize,
    pub running: Running,
}

// A refused write of one event: why, and the running status as it was given. Every byte is as it came.
#[derive(Clone, Copy)]
pub struct WriteRefused {
    pub refusal: Refusal,
    pub running: Running,
}

// A refused list: why, the index of the first illegal event, 0 where it is refused for something else, and the running
// status as it was given.
#[derive(Clone, Copy)]
pub struct ListRefused {
    pub refusal: Refusal,
    pub index: usize,
    pub running: Running,
}
