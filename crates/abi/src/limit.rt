// How many there may be.

pub const RAM_ENTRIES: u64 = 32;

// In the list of a call.
pub const LISTED_PAGES: u64 = 512;

// Of such a list.
pub const LIST_BYTES: usize = 4096;

// Of a VTL.
pub const OVERLAYS: u64 = 128;

// Registrations of an overlay page.
pub const REF_COUNT: u64 = 65535;

// Of a VTL.
pub const LOCKED_LISTS: u64 = 64;

// In the locked lists of a VTL.
pub const LOCKED_PAGES: u64 = 1024;
