// The places of what a call gave, which is held against what was recorded.
// Kept: the definition `is_same` of specs reads the six by these places.

pub const RESULT: usize = 0;

pub const CODE: usize = 1;

pub const INDEX: usize = 2;

pub const COUNT: usize = 3;

pub const ASKED: usize = 4;

pub const LEFT: usize = 5;

pub const ALL: usize = 6;
