// The phases of a visibility change by their numbers; the stages of another change follow, with the same idle and halted.

pub const IDLE: u64 = 0;

pub const HALTED: u64 = 1;

pub const WAIT: u64 = 2;

pub const FLUSH_ALL: u64 = 3;

pub const PROTECT_NONE0: u64 = 4;

pub const PROTECT_NONE1: u64 = 5;

pub const INVALIDATE: u64 = 6;

pub const RELEASE: u64 = 7;

pub const MODIFY: u64 = 8;

pub const ACCEPT: u64 = 9;

pub const ZERO: u64 = 10;

pub const PROTECT_DEFAULT0: u64 = 11;

pub const PROTECT_DEFAULT1: u64 = 12;
