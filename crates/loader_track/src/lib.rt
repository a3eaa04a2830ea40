// The exported entries for events and lists, which C and Rust link beside those of `loader`. An event is a row of cells, a list
// so many rows one behind the other. The C interface has the rows with a count beside them, and what is found in values lent
// by `&mut`.
#![tactic(auto)]

pub mod events;
pub mod list_read;
pub mod list_write;
pub mod sameness;
