// The places of a line's numbers (README.md, "The file").
// Kept: the definitions of specs read a line by these places.

pub const KIND: usize = 0;

pub const A: usize = 1;

pub const B: usize = 2;

pub const C: usize = 3;

pub const D: usize = 4;

pub const E: usize = 5;

// Of the operation that fails, its place among those asked for, its code and the pages processed.
pub const PLACE: usize = 6;

pub const FAILED_CODE: usize = 7;

pub const PROCESSED: usize = 8;

// What was recorded.
pub const RESULT: usize = 9;

pub const CODE: usize = 10;

pub const INDEX: usize = 11;

pub const COUNT: usize = 12;

pub const ASKED: usize = 13;

pub const LEFT: usize = 14;

pub const RUNS: usize = 15;

// How many there are.
pub const ALL: usize = 16;
