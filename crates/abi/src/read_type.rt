// The views of a fault as numbers.

pub const READ: u64 = 0;

pub const KERNEL_EXECUTE: u64 = 1;

pub const USER_EXECUTE: u64 = 2;
