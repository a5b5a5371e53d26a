// The mappings of a fault as numbers.

pub const ENCRYPTED: u64 = 0;

pub const SHARED: u64 = 1;
