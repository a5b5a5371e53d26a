// The form of a file of recorded calls: numbers read, lists of pages filled, what was given reduced to a digest.
#![tactic(auto)]

pub mod decode;
pub mod digest;
pub mod kind;
pub mod lists;
