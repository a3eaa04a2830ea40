// The entries for C and Rust in one archive: `include/apkarewe.h` declares them. Each calls the library's function of the
// same name and states its clauses again, word for word: `tools/exports` holds it to that.
#![tactic(auto)]

pub mod banks;
pub mod bends;
pub mod events;
pub mod fields;
pub mod list_read;
pub mod list_write;
pub mod notes;
pub mod numbers;
pub mod sameness;
pub mod smpte;
