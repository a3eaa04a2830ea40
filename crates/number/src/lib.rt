// Modules 1 and 2 of document 01: variable-length numbers, and payloads, a number and that many bytes.
#![tactic(auto)]

pub mod payload;
mod room;
pub mod varlen;

// A number of 28 bits, as a variable-length number of four bytes holds it: a tick count, a length.
#[derive(Clone, Copy, Debug, PartialEq, Eq)]
pub struct u28(pub u32);
