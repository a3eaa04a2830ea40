// Module 7 of document 01: lists of events.
#![tactic(auto)]

pub mod cursor;
pub mod list;
pub mod read;
pub mod record;
