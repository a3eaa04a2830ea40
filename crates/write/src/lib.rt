// Writing: module 6 of document 01, the writing half, and lists of module 7. An event or a row goes through its door, which
// answers what stands behind the delta as bytes or the number of what forbids it; behind the doors there is one length and
// one put. Channel messages of a list of rows take a shorter way, in `direct`, to the same answer.
// A running status, rules, bytes, a buffer and a place in it go in side by side, and no struct holds them: public functions
// take them so (docs/RULES.md, "What must change shape": a place goes in, a lent buffer), and those below hand them on.
#![tactic(auto)]

pub mod answer;
mod direct;
mod event_door;
mod events;
mod length;
mod make;
pub mod one;
mod put;
mod raw;
pub mod records;
mod row_door;
pub mod row_lists;
mod step;
