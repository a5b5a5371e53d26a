// Recorded calls put to the entries.
#![tactic(auto)]

pub mod answers;
pub mod buffers;
pub mod calls;
pub mod entries;
pub mod left;
pub mod registry;
