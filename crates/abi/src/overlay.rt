// The words of an overlay entry behind its page, and how many it has.

// The flags that the page had.
pub const PREVIOUS: u64 = 1;

// The flags of the overlay.
pub const OWN: u64 = 2;

pub const COUNT: u64 = 3;

pub const SOURCE: u64 = 4;

pub const WORDS: u64 = 5;
