// The numbers that cross, and the lengths and places of what is lent. Contracts and definitions have them from specs/.
#![tactic(auto)]

pub mod action;
pub mod code;
pub mod isolation;
pub mod kind;
pub mod limit;
pub mod memory_type;
pub mod operation;
pub mod overlay;
pub mod phase;
pub mod place;
pub mod read_type;
pub mod refusal;
pub mod registrar_place;
pub mod stage;
pub mod table;

// The lengths in words of the state block, of the request's pages and of the tables of overlays and locks.
pub const STATE_WORDS: usize = 128;

pub const PAGES_WORDS: u64 = 1024;

pub const TABLES_WORDS: u64 = 3460;

// The length in words of the registrar's state block.
pub const REGISTRAR_WORDS: usize = 108;

// Where in the request's pages their places in the list begin.
pub const PLACES_START: usize = 512;

pub const RAM_ENTRY_WORDS: usize = 3;

pub const PAGE_SIZE: u64 = 4096;

// RAM entries start and end at its multiples: a byte of a map is for so many bytes of memory.
pub const RAM_ALIGNMENT: u64 = 0x8000;

// A word of the registrar's bitmaps is for so many chunks.
pub const WORD_BITS: u64 = 64;

// A word with all its bits, the last 64-bit number.
pub const FULL_WORD: u64 = 0xffff_ffff_ffff_ffff;

// Flags as a number are below it.
pub const FLAGS_END: u64 = 16;

// In the place of flags: none are given.
pub const NO_FLAGS: u64 = 16;
