// Chunks of guest memory: their number, the RAM in them, and bitmaps of them taken by whole words.
#![tactic(auto)]

ghost use Rattle.std.specs.Prelude.{◌≡◌, ℕ, ◌+◌, ◌-◌, ◌*◌, ◌/◌, ◌<◌, ◌≤◌, ◌^◌, min, max, true, cond, ◌&&◌, eqb, ltb, get_or};
ghost use Rattle.abi.specs.Lengths.{page_size, word_bits};
ghost use Rattle.laws.specs.Bools.{digit};
ghost use Rattle.laws.specs.Ranges.{between};
ghost use Rattle.bitmap.specs.Pages.{bit_at, written, words};
ghost use Rattle.layout.specs.Layout.{entries_of, spans};
ghost use Rattle.chunks.specs.Chunks.{up, chunk_count, first_chunk, end_chunk, is_power, pieces, first_of, alike, first_not, Ahead, aligned_part, edge_of, entry_with};

use abi::{FULL_WORD, PAGE_SIZE, WORD_BITS};
use layout::{MemoryRange, MemoryRangeWithNode};

// A shift of a word is below it: WORD_BITS as the type that a shift is counted in.
const SHIFT_END: u32 = 64;

// A quotient, by a shift where the divisor is a power of two; 0 where it is 0.
pub fn div(n: u64, divisor: u64) -> u64
    ensures { result ≡ n / divisor }
{
    if divisor == 0 {
        return 0;
    }
    let k = u64::trailing_zeros(divisor);
    if k < SHIFT_END && divisor == 1u64 << k {
        return n >> k;
    }
    n / divisor
}

// A quotient rounded up.
// Kept: u64::div_ceil asks for a divisor above 0, and divides where `div` shifts.
fn div_ceil(n: u64, divisor: u64) -> u64
    ensures { result ≡ up n divisor }
{
    let q = div(n, divisor);
    if q * divisor == n { q } else { q + 1 }
}

// How many chunks a layout has: the last may end past the last entry.
pub fn chunk_count(ram: &[u64], granularity: u64) -> u64
    ensures { result ≡ chunk_count granularity (entries_of ram.now) }
{
    div_ceil(layout::last_end(ram), granularity)
}

// How many words a bitmap of so many chunks has.
pub fn map_words(total: u64) -> u64
    ensures { result ≡ up total word_bits }
{
    div_ceil(total, WORD_BITS)
}

// The page after a request's last.
fn page_end(address: u64, len: u64) -> u64
    ensures { result ≡ up (address + len) page_size }
{
    address / PAGE_SIZE
        + len / PAGE_SIZE
        + div_ceil(address % PAGE_SIZE + len % PAGE_SIZE, PAGE_SIZE)
}

// The chunk of an address, by way of its page.
pub fn first_chunk(granularity: u64, address: u64) -> u64
    ensures { result ≡ first_chunk granularity address }
{
    div(address / PAGE_SIZE, granularity / PAGE_SIZE)
}

// The chunk after the last that a range of bytes touches, by way of its pages.
pub fn end_chunk(granularity: u64, address: u64, len: u64) -> u64
    ensures { result ≡ end_chunk granularity address len }
{
    div_ceil(page_end(address, len), granularity / PAGE_SIZE)
}

// Whether a number is a power of two; 0 is none.
#[tactic(auto, using(crate::proofs::Laws::one_bit))]
pub fn is_power_of_two(n: u64) -> bool
    ensures { result ≡ is_power n }
{
    n.is_power_of_two()
}

// The address where a chunk ends, or the last 64-bit number if that comes first.
// Kept: chunk.saturating_add(1).saturating_mul(granularity) takes 2 instructions more in each chunk (bench row register, 1 TiB fresh).
fn chunk_end(chunk: u64, granularity: u64) -> u64
    ensures { result ≡ min ((chunk + 1) * granularity) (2 ^ 64 - 1) }
{
    if granularity == 0 {
        return 0;
    }
    if div(FULL_WORD, granularity) <= chunk {
        return FULL_WORD;
    }
    (chunk + 1) * granularity
}

// The first RAM from an address to before `stop`: empty where there is none. No RAM lies past the last 64-bit number.
// Kept: an empty range or entry, and no None: the clauses of next_ram, chunk_ram, aligned_subrange, unaligned_edge and entry_with
// give one.
fn ram_before(ram: &[u64], from: u64, stop: u64) -> MemoryRange
    ensures { (y : ℕ) → stop ≡ min y (2 ^ 64 - 1) → result ≡ first_of (pieces from y (spans (entries_of ram.now))) }
{
    let n = layout::entry_count(ram);
    let mut i: u64 = 0;
    // Kept: each turn passes a whole span.
    while i < n {
        let span = layout::span_at(ram, i);
        let start = numbers::max(from, span.start);
        let end = numbers::min(stop, span.end);
        if start < end {
            return MemoryRange { start, end };
        }
        i = span.next;
    }
    MemoryRange { start: 0, end: 0 }
}

// The first RAM of a chunk from an address on: empty where there is none.
pub fn next_ram(ram: &[u64], granularity: u64, chunk: u64, from: u64) -> MemoryRange
    ensures { result ≡ first_of (pieces from ((chunk + 1) * granularity) (spans (entries_of ram.now))) }
{
    if chunk < div(from, granularity) {
        return MemoryRange { start: 0, end: 0 };
    }
    ram_before(ram, from, chunk_end(chunk, granularity))
}

// The first RAM of the chunk that starts at `start`: empty where there is none.
pub fn chunk_ram(ram: &[u64], granularity: u64, start: u64) -> MemoryRange
    ensures { result ≡ first_of (pieces start (start + granularity) (spans (entries_of ram.now))) }
{
    ram_before(ram, start, start.saturating_add(granularity))
}

// The word whose chunks are all set, or all clear.
fn full(set: bool) -> u64
    ensures { result ≡ digit set * (2 ^ 64 - 1) }
{
    if set { FULL_WORD } else { 0 }
}

// Whether a chunk has not failed, and is registered or not.
fn is_alike(registered: &[u64], failed: &[u64], set: bool, chunk: u64) -> bool
    ensures { result ≡ alike registered.now failed.now set chunk }
{
    !bitmap::get(failed, chunk) && bitmap::get(registered, chunk) == set
}

// Whether a whole word of chunks is alike.
fn is_alike_word(registered: &[u64], failed: &[u64], set: bool, word: u64) -> bool
    ensures { result ≡ (eqb (get_or failed.now word 0) 0 && eqb (get_or registered.now word 0) (digit set * (2 ^ 64 - 1))) }
{
    numbers::word_at(failed, word) == 0 && numbers::word_at(registered, word) == full(set)
}

// How many chunks from this one on are alike, of those before `to`: a whole word, one, or none.
fn alike_here(registered: &[u64], failed: &[u64], set: bool, chunk: u64, to: u64) -> u64
    requires { chunk < to }
    ensures { Ahead (alike registered.now failed.now set) chunk to result }
{
    if chunk % WORD_BITS == 0
        && WORD_BITS <= to - chunk
        && is_alike_word(registered, failed, set, chunk / WORD_BITS)
    {
        return WORD_BITS;
    }
    u64::from(is_alike(registered, failed, set, chunk))
}

// Of chunks past the end of both bitmaps, none of them set: the first from this one to before `to` that is not alike.
fn alike_past(set: bool, chunk: u64, to: u64) -> u64
    ensures { result ≡ cond set chunk (max chunk to) }
{
    if set { chunk } else { numbers::max(chunk, to) }
}

// The first chunk from `from` to before `to` that is not alike. The search ends with the bitmaps.
pub fn run_end(registered: &[u64], failed: &[u64], set: bool, from: u64, to: u64) -> u64
    ensures { result ≡ first_not (alike registered.now failed.now set) from to }
{
    let len = numbers::max(registered.len() as u64, failed.len() as u64);
    let stop = stop_at(len, to);
    let mut c = from;
    // Kept: each turn passes as many chunks as it finds.
    while c < stop {
        let n = alike_here(registered, failed, set, c, stop);
        if n == 0 {
            return c;
        }
        c += n;
    }
    alike_past(set, c, to)
}

// How many chunks from this one on are set, of those before `to`: a whole word, one, or none.
fn set_here(map: &[u64], chunk: u64, to: u64) -> u64
    requires { chunk < to }
    ensures { Ahead (bit_at word_bits map.now) chunk to result }
{
    if chunk % WORD_BITS == 0
        && WORD_BITS <= to - chunk
        && numbers::word_at(map, chunk / WORD_BITS) == FULL_WORD
    {
        return WORD_BITS;
    }
    u64::from(bitmap::get(map, chunk))
}

// The first chunk from `from` to before `to` that is not set.
// Kept: run_end of this map and no failed chunk is the same, but looks for failed chunks at each word.
pub fn first_clear(map: &[u64], from: u64, to: u64) -> u64
    ensures { result ≡ first_not (bit_at word_bits map.now) from to }
{
    let mut c = from;
    // Kept: each turn passes as many chunks as it finds.
    while c < to {
        let n = set_here(map, c, to);
        if n == 0 {
            return c;
        }
        c += n;
    }
    c
}

// The part of a span between multiples of the alignment: empty where it has none.
pub fn aligned_subrange(alignment: u64, span: MemoryRange) -> MemoryRange
    ensures { result ≡ aligned_part alignment span }
{
    let a = div_ceil(span.start, alignment);
    let b = div(span.end, alignment);
    if a < b {
        MemoryRange {
            start: a * alignment,
            end: b * alignment,
        }
    } else {
        MemoryRange { start: 0, end: 0 }
    }
}

// The edge of a span that UnalignedMemory names: empty where it has none.
pub fn unaligned_edge(alignment: u64, span: MemoryRange) -> MemoryRange
    ensures { result ≡ edge_of alignment span }
{
    let p = aligned_subrange(alignment, span);
    if p.end <= p.start {
        return span;
    }
    if p.start != span.start {
        return MemoryRange {
            start: span.start,
            end: p.start,
        };
    }
    if p.end != span.end {
        return MemoryRange {
            start: p.end,
            end: span.end,
        };
    }
    MemoryRange { start: 0, end: 0 }
}

// Whether an entry has a byte of a range.
fn overlaps(entry: MemoryRangeWithNode, range: MemoryRange) -> bool
    ensures { result ≡ (ltb entry.start range.end && ltb range.start entry.end) }
{
    entry.start < range.end && range.start < entry.end
}

// The first entry that has a byte of a range: zeros where none has.
pub fn entry_with(ram: &[u64], range: MemoryRange) -> MemoryRangeWithNode
    ensures { result ≡ entry_with range (entries_of ram.now) }
{
    for i in 0..layout::entry_count(ram) {
        let e = layout::entry_at(ram, i);
        if overlaps(e, range) {
            return e;
        }
    }
    MemoryRangeWithNode {
        start: 0,
        end: 0,
        vnode: 0,
    }
}

// Sets a whole word of chunks; nothing past the end.
fn fill_word(map: &mut [u64], word: u64)
    ensures { map.new ≡ written word_bits (words word_bits word (word + 1)) true map.old }
{
    let k = word as usize;
    if k < map.len() {
        map[k] = FULL_WORD;
    }
}

// Sets some chunks from this one on, a whole word or one, and gives the chunk after them.
fn set_some(map: &mut [u64], chunk: u64, to: u64) -> u64
    requires { chunk < to }
    ensures { (chunk < result) × (result ≤ to) × (map.new ≡ written word_bits (between chunk result) true map.old) }
{
    if chunk % WORD_BITS == 0 && WORD_BITS <= to - chunk {
        fill_word(map, chunk / WORD_BITS);
        return chunk + WORD_BITS;
    }
    bitmap::set(map, chunk, true);
    chunk + 1
}

// The chunk after the last that is before `to` and of a map of `len` words.
// Kept: min with len.saturating_mul(WORD_BITS) takes 3 instructions more in each chunk (bench row register, 1 TiB fresh).
fn stop_at(len: u64, to: u64) -> u64
    ensures { result ≡ min to (len * word_bits) }
{
    if to / WORD_BITS < len {
        to
    } else {
        len * WORD_BITS
    }
}

// Sets the chunks from `from` to before `to`; nothing past the end.
pub fn set_chunks(map: &mut [u64], from: u64, to: u64)
    ensures { map.new ≡ written word_bits (between from to) true map.old }
{
    let stop = stop_at(map.len() as u64, to);
    let mut c = from;
    // Kept: each turn sets a word of chunks or one.
    while c < stop {
        c = set_some(map, c, stop);
    }
}
