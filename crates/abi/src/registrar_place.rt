// Places in the registrar's state block: of the request under way, of the settings, of the RAM layout.

// What waits: the number of a kind.
pub const KIND: usize = 0;

// Operations asked for so far.
pub const COUNT: usize = 1;

// The first chunk under way.
pub const FROM: usize = 2;

// The chunk behind the last one under way.
pub const TO: usize = 3;

// Of the bytes asked for, without the offset.
pub const START: usize = 4;

// Behind these bytes.
pub const END: usize = 5;

// The chunk behind the last that `register` is to reach.
pub const UNTIL: usize = 6;

// Of `register_all_aligned`.
pub const ALIGNMENT: usize = 7;

// Whether it passes over unaligned edges.
pub const IGNORE: usize = 8;

pub const OFFSET: usize = 9;

pub const GRANULARITY: usize = 10;

// How many RAM entries.
pub const ENTRIES: usize = 11;

// The first of their words.
pub const RAM: usize = 12;
