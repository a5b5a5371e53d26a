// Places in the state block: of the request under way, of the settings, of the RAM layout.

// What waits: the number of a phase or of a stage.
pub const PHASE: usize = 0;

// Whether a visibility change shares.
pub const SHARE: usize = 1;

pub const VTL: usize = 2;

// How many pages of the run `pages` are in use.
pub const USED: usize = 3;

// Where the run under way stands, the page after the piece, or the overlay's page.
pub const AT: usize = 4;

// Whether a visibility change ends in 15.
pub const STOPPED: usize = 5;

// Whether it ends in 16.
pub const FAILED: usize = 6;

// Of either, in the list.
pub const INDEX: usize = 7;

// Of 16.
pub const CODE: usize = 8;

// Operations asked for so far.
pub const COUNT: usize = 9;

// The VTL whose TLB is flushed.
pub const FLUSH: usize = 10;

pub const FLAGS: usize = 11;

// The flags that an overlay page had.
pub const PREVIOUS: usize = 12;

// Of an overlay page.
pub const SOURCE: usize = 13;

pub const ISOLATION: usize = 16;

// Whether permissions are tracked.
pub const TRACKED: usize = 17;

// Whether shared pages are released, on TDX.
pub const RELEASE: usize = 18;

// Whether VTL1's protections are enabled.
pub const ENABLED: usize = 19;

// The default flags of VTL0.
pub const DEFAULT0: usize = 20;

// The default flags of VTL1.
pub const DEFAULT1: usize = 21;

// How many RAM entries.
pub const ENTRIES: usize = 31;

// The first of their words.
pub const RAM: usize = 32;
