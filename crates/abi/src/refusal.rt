// What refuses a call. What crosses is its number; 0 stands where nothing refuses.
ghost use Rattle.std.specs.Prelude.{◌≡◌};
ghost use Rattle.abi.specs.Refusals.{number_of, refused_by, numbered};

#[derive(Clone, Copy, Debug, PartialEq, Eq)]
pub enum Refusal {
    // The layout, or the registrar's offset.
    UnfitLayout,

    // Of a RAM entry.
    BadAlignment,
    UnfitIsolation,

    // Of what is lent.
    WrongLength,
    LongList,
    RepeatedPage,

    // Or RAM, where a Dma page must not be.
    NotRam,

    // In the place of one of a few cases.
    UnfitNumber,

    // Past the last, or an unfit granularity or alignment.
    UnfitChunk,
    Locked,

    // Where none may be.
    Overlay,
    Shared,

    // Permissions for what is asked.
    Narrow,

    // Where one must be.
    NoOverlay,

    // A page to be shared that VTL0 may not read and write.
    AccessDenied,

    // An operation failed, and the call ends.
    BackendFailed,

    // A table or a count.
    Full,

    // No list of just these pages.
    NotLocked,

    // An operation is outstanding.
    Busy,

    // By an operation that failed.
    Halted,

    // That this could answer.
    NothingAsked,

    // A span of RAM, for the registrar.
    UnalignedMemory,

    // Now or in an earlier call.
    RegistrationFailed,

    // Permissions.
    Untracked,
}

impl Refusal {
    pub fn number(self) -> u64
        ensures { result ≡ number_of self }
    {
        match self {
            Refusal::UnfitLayout => UNFIT_LAYOUT,
            Refusal::BadAlignment => BAD_ALIGNMENT,
            Refusal::UnfitIsolation => UNFIT_ISOLATION,
            Refusal::WrongLength => WRONG_LENGTH,
            Refusal::LongList => LONG_LIST,
            Refusal::RepeatedPage => REPEATED_PAGE,
            Refusal::NotRam => NOT_RAM,
            Refusal::UnfitNumber => UNFIT_NUMBER,
            Refusal::UnfitChunk => UNFIT_CHUNK,
            Refusal::Locked => LOCKED,
            Refusal::Overlay => OVERLAY,
            Refusal::Shared => SHARED,
            Refusal::Narrow => NARROW,
            Refusal::NoOverlay => NO_OVERLAY,
            Refusal::AccessDenied => ACCESS_DENIED,
            Refusal::BackendFailed => BACKEND_FAILED,
            Refusal::Full => FULL,
            Refusal::NotLocked => NOT_LOCKED,
            Refusal::Busy => BUSY,
            Refusal::Halted => HALTED,
            Refusal::NothingAsked => NOTHING_ASKED,
            Refusal::UnalignedMemory => UNALIGNED_MEMORY,
            Refusal::RegistrationFailed => REGISTRATION_FAILED,
            Refusal::Untracked => UNTRACKED,
        }
    }
}

// The number of what refuses: 0 where nothing does.
pub fn refused_by<T: Copy>(answer: Result<T, Refusal>) -> u64
    ensures { result ≡ refused_by answer }
{
    match answer {
        Ok(_) => 0,
        Err(refusal) => refusal.number(),
    }
}

// An answer with the number of what refuses.
pub fn numbered<T: Copy>(answer: Result<T, Refusal>) -> Result<T, u64>
    ensures { result ≡ numbered answer }
{
    match answer {
        Ok(value) => Ok(value),
        Err(refusal) => Err(refusal.number()),
    }
}

// The numbers.
// The layout, or the registrar's offset.
pub const UNFIT_LAYOUT: u64 = 1;

// Of a RAM entry.
pub const BAD_ALIGNMENT: u64 = 2;

pub const UNFIT_ISOLATION: u64 = 3;

// Of what is lent.
pub const WRONG_LENGTH: u64 = 4;

pub const LONG_LIST: u64 = 5;

pub const REPEATED_PAGE: u64 = 6;

// Or RAM, where a Dma page must not be.
pub const NOT_RAM: u64 = 7;

// In the place of one of a few cases.
pub const UNFIT_NUMBER: u64 = 8;

// Past the last, or an unfit granularity or alignment.
pub const UNFIT_CHUNK: u64 = 9;

pub const LOCKED: u64 = 10;

// Where none may be.
pub const OVERLAY: u64 = 11;

pub const SHARED: u64 = 12;

// Permissions for what is asked.
pub const NARROW: u64 = 13;

// Where one must be.
pub const NO_OVERLAY: u64 = 14;

// A page to be shared that VTL0 may not read and write.
pub const ACCESS_DENIED: u64 = 15;

// An operation failed, and the call ends.
pub const BACKEND_FAILED: u64 = 16;

// A table or a count.
pub const FULL: u64 = 17;

// No list of just these pages.
pub const NOT_LOCKED: u64 = 18;

// An operation is outstanding.
pub const BUSY: u64 = 19;

// By an operation that failed.
pub const HALTED: u64 = 20;

// That this could answer.
pub const NOTHING_ASKED: u64 = 21;

// A span of RAM, for the registrar.
pub const UNALIGNED_MEMORY: u64 = 22;

// Now or in an earlier call.
pub const REGISTRATION_FAILED: u64 = 23;

// Permissions.
pub const UNTRACKED: u64 = 24;
