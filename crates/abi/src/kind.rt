// The kinds of the registrar's request by their numbers.

// Nothing is asked for.
pub const NONE: u64 = 0;

pub const REGISTER: u64 = 1;

// Every number behind it, too, stands for this kind.
pub const REGISTER_ALL: u64 = 2;
