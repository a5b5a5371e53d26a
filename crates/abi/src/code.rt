// The codes of HvError that a refusal carries.

pub const ACCESS_DENIED: u64 = 6;

pub const OPERATION_DENIED: u64 = 8;
