// Bitmaps lent by the caller: GuestMemoryBitmap, a bit for each page in bytes, and the registrar's Bitmap, a bit for
// each chunk in 64-bit words.
#![tactic(auto)]

ghost use Rattle.std.specs.Prelude.{◌≡◌, ℕ, cond, ◌+◌, ◌*◌, ◌/◌, ◌%◌, ◌≤◌, ◌<◌, eqb, map};
ghost use Rattle.std.proofs.Common.{rules};
ghost use Rattle.laws.specs.Bools.{digit};
ghost use Rattle.laws.specs.Ranges.{between};
ghost use Rattle.bitmap.specs.Pages.{bit_at, written, one, word, words, filled, edges, bit, tally};

// The byte whose pages all have the state.
pub fn full(state: bool) -> u8
    ensures { result ≡ digit state * 255 }
{
    if state { 255 } else { 0 }
}

// The bytes from `from` to before `to`, each stored whole; nothing past the end.
pub fn fill_bytes(map: &mut [u8], from: u64, to: u64, state: bool)
    ensures { map.new ≡ written 8 (words 8 from to) state map.old }
{
    let end = to.min(map.len() as u64);
    let start = from.min(end);
    map[start as usize..end as usize].fill(full(state));
}

// A word of a map: a bit for each of `BITS` places, the lowest first.
trait Word: Copy {
    ghost BITS: { ℕ };

    ghost number: { Self → ℕ };

    const BITS: u64;

    // The bit of a place, 0 or 1.
    // Kept: a bool, which the test of a bit here gives, takes 2 instructions more in each chunk (bench row register_all_aligned, every
    // 64th chunk registered).
    fn bit_of(self, place: u64) -> u64
        ensures { result ≡ digit (bit (number self) (place % BITS)) };

    // The word with the bit of a place written, and every other as it is.
    fn with(self, place: u64, state: bool) -> Self
        ensures { number result ≡ word BITS (λ k. cond (eqb k (place % BITS)) state (bit (number self) k)) (number self) };

    ghost some: { 0 < BITS };
}

// Kept: two impls of one shape, since a shift is an operation of each type.
impl Word for u8 {
    ghost BITS = { 8 };

    ghost number = { λ x. x };

    const BITS: u64 = 8;

    fn bit_of(self, place: u64) -> u64 {
        (self >> (place % 8)) as u64 % 2
    }

    fn with(self, place: u64, state: bool) -> u8 {
        let mask = 1u8 << (place % 8);
        let off = if state { 0 } else { mask };
        (self | mask) ^ off
    }

    ghost some = { Prim.search rules };
}

impl Word for u64 {
    ghost BITS = { 64 };

    ghost number = { λ x. x };

    const BITS: u64 = 64;

    fn bit_of(self, place: u64) -> u64 {
        (self >> (place % 64)) % 2
    }

    fn with(self, place: u64, state: bool) -> u64 {
        let mask = 1u64 << (place % 64);
        let off = if state { 0 } else { mask };
        (self | mask) ^ off
    }

    ghost some = { Prim.search rules };
}

// The bit of a place: not set past the end.
fn place_state<W: Word>(words: &[W], place: u64) -> bool
    ensures { result ≡ bit_at W.BITS (map W.number words.now) place }
{
    let i = (place / W::BITS) as usize;
    i < words.len() && words[i].bit_of(place) == 1
}

// The bit of one place written; nothing past the end.
fn set_place<W: Word>(words: &mut [W], place: u64, state: bool)
    ensures { map W.number words.new ≡ written W.BITS (one place) state (map W.number words.old) }
{
    let i = (place / W::BITS) as usize;
    if i < words.len() {
        words[i] = words[i].with(place, state);
    }
}

// One page written; nothing past the end.
pub fn set_page(map: &mut [u8], gpn: u64, state: bool)
    ensures { map.new ≡ written 8 (one gpn) state map.old }
{
    set_place(map, gpn, state);
}

// The state of a page: not set past the end.
pub fn page_state(map: &[u8], gpn: u64) -> bool
    ensures { result ≡ bit_at 8 map.now gpn }
{
    place_state(map, gpn)
}

// One chunk written; nothing past the end.
pub fn set(map: &mut [u64], chunk: u64, value: bool)
    ensures { map.new ≡ written 64 (one chunk) value map.old }
{
    set_place(map, chunk, value);
}

// The state of a chunk: not set past the end.
pub fn get(map: &[u64], chunk: u64) -> bool
    ensures { result ≡ bit_at 64 map.now chunk }
{
    place_state(map, chunk)
}

// The first byte whose pages begin at `gpn` or after it.
fn byte_up(gpn: u64) -> u64
    ensures { result ≡ (gpn + 7) / 8 }
{
    gpn.div_ceil(8)
}

// The byte after those whose pages end at `gpn` or before it.
fn byte_after(gpn: u64) -> u64
    ensures { result ≡ (gpn + 1) / 8 }
{
    if gpn % 8 == 7 { gpn / 8 + 1 } else { gpn / 8 }
}

// A run's pages in one of its bytes, from `first` to `last`, one after the other: none where they fill it.
fn update_edge(map: &mut [u8], first: u64, last: u64, state: bool)
    requires { (first ≤ last) × (first / 8 ≡ last / 8) }
    ensures { map.new ≡ written 8 (edges 8 first (last + 1)) state map.old }
{
    let count = last - first + 1;
    if count == 8 {
        return;
    }
    for k in 0..count {
        set_page(map, first + k, state);
    }
}

// Of the pages from `first` to `last`, those in bytes that this run doesn't fill: at most seven at each end.
fn update_edges(map: &mut [u8], first: u64, last: u64, state: bool)
    requires { first ≤ last }
    ensures { map.new ≡ written 8 (edges 8 first (last + 1)) state map.old }
{
    let end = last.min(first / 8 * 8 + 7);
    update_edge(map, first, end, state);
    if last <= end {
        return;
    }
    update_edge(map, last / 8 * 8, last, state);
}

// Of the same pages, the rest: the bytes that the run fills, each stored whole.
fn update_filled(map: &mut [u8], first: u64, last: u64, state: bool)
    ensures { map.new ≡ written 8 (filled 8 first (last + 1)) state map.old }
{
    fill_bytes(map, byte_up(first), byte_after(last), state);
}

// The pages from `first` to `last`, with it; nothing past the end. The single pages at both ends come before the bytes between.
pub fn update_run(map: &mut [u8], first: u64, last: u64, state: bool)
    requires { first ≤ last }
    ensures { map.new ≡ written 8 (between first (last + 1)) state map.old }
{
    update_edges(map, first, last, state);
    update_filled(map, first, last, state);
}

// The same; a run of one page is written as one page.
pub fn update(map: &mut [u8], first: u64, last: u64, state: bool)
    requires { first ≤ last }
    ensures { map.new ≡ written 8 (between first (last + 1)) state map.old }
{
    if first == last {
        set_page(map, first, state);
        return;
    }
    update_run(map, first, last, state);
}

// How many pages of a byte are set.
pub fn count_byte(x: u8) -> u32
    ensures { result ≡ tally 8 (bit x) }
{
    u8::count_ones(x)
}
