// The operations by their numbers, as a reply asks for them; 0 where it asks for none.

pub const WAIT: u64 = 1;

pub const FLUSH_ALL: u64 = 2;

pub const PROTECT: u64 = 3;

pub const INVALIDATE: u64 = 4;

pub const RELEASE: u64 = 5;

pub const MODIFY: u64 = 6;

pub const ACCEPT: u64 = 7;

pub const ZERO: u64 = 8;

pub const FLUSH: u64 = 9;

pub const TLB_WAIT: u64 = 10;
