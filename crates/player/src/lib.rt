// Notes still sounding: a table of velocities that goes from list to list, how many keys sound, and a list that silences
// them. Document 02, Q-1.
#![tactic(auto)]

pub mod entries;
mod keys;
pub mod notes;
pub mod silence;
pub mod table;
mod widths;
