// The stages of another change by their numbers.

pub const PROTECT_PAGES: u64 = 13;

pub const PROTECT_RAM: u64 = 14;

pub const PROTECT_NEW: u64 = 15;

pub const PROTECT_OLD: u64 = 16;

pub const WAIT: u64 = 17;

pub const FLUSH: u64 = 18;

pub const TLB_WAIT: u64 = 19;

// Behind the last.
pub const END: u64 = 20;
