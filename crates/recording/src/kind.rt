// The kinds of recorded calls by their numbers (crates/replay/README.md).
// Kept: the definitions of specs branch on these numbers, and every number behind the last is a kind too.

pub const BUILD: u64 = 0;

pub const CHANGE_HOST_VISIBILITY: u64 = 1;

pub const CHANGE_VTL_PROTECTIONS: u64 = 2;

pub const CHANGE_DEFAULT_VTL_PROTECTIONS: u64 = 3;

pub const REGISTER_OVERLAY_PAGE: u64 = 4;

pub const UNREGISTER_OVERLAY_PAGE: u64 = 5;

pub const LOCK_GPNS: u64 = 6;

pub const UNLOCK_GPNS: u64 = 7;

pub const SET_VTL1_PROTECTIONS_ENABLED: u64 = 8;

pub const VTL1_PROTECTIONS_ENABLED: u64 = 9;

pub const DEFAULT_VTL0_PROTECTIONS: u64 = 10;

pub const IS_OVERLAY_PAGE: u64 = 11;

pub const QUERY_HOST_VISIBILITY: u64 = 12;

pub const PAGE_FAULT: u64 = 13;

pub const QUERY_LOWER_VTL_PERMISSIONS: u64 = 14;

pub const QUERY_ACCESS_PERMISSION: u64 = 15;

pub const REGISTRAR_BUILD: u64 = 16;

pub const REGISTER: u64 = 17;

// The kinds are below it; the last, `register_all_aligned`, is none of those named.
pub const END: u64 = 19;
