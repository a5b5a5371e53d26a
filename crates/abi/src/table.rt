// Where the parts of `tables` begin, one behind the other, and where the last one ends.
pub const OVERLAYS0: usize = 0;

pub const OVERLAYS1: usize = 641;

pub const LOCKS0: usize = 1282;

pub const LOCKS1: usize = 2371;

pub const END: usize = 3460;

// The lengths of the parts of one VTL.
pub const OVERLAYS_WORDS: usize = OVERLAYS1 - OVERLAYS0;

pub const LOCKS_WORDS: usize = LOCKS1 - LOCKS0;
