// What a fault gives, as a number.

pub const RETRY: u64 = 0;

pub const NOT_MAPPED: u64 = 1;

pub const NOT_SHARED: u64 = 2;

pub const NOT_PRIVATE: u64 = 3;

pub const VTL_PROTECTED: u64 = 4;
