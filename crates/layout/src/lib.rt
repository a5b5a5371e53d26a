// The RAM layout as it crosses: three words an entry, its start, its end and its node.
#![tactic(auto)]

ghost use Rattle.std.specs.Prelude.{◌≡◌, length};
ghost use Rattle.abi.specs.Refusals as refusal;
ghost use Rattle.abi.specs.Refusals.{refused_by};
ghost use Rattle.laws.specs.Ranges.{between};
ghost use Rattle.laws.specs.Refusal.{unless};
ghost use Rattle.layout.specs.Layout.{entries_of, entry_at, is_ram, place_of, follows, ordered, on_bytes, aligned, refusal_of, last_end, map_len, span_at, page_up};

use abi::refusal::Refusal;
use abi::{PAGE_SIZE, RAM_ALIGNMENT, RAM_ENTRY_WORDS, limit};

#[derive(Clone, Copy)]
pub struct MemoryRange {
    pub start: u64,
    pub end: u64,
}

#[derive(Clone, Copy)]
pub struct MemoryRangeWithNode {
    pub start: u64,
    pub end: u64,
    pub vnode: u64,
}

// A span of touching entries, and the place of the entry after it.
#[derive(Clone, Copy)]
pub struct Span {
    pub start: u64,
    pub end: u64,
    pub next: u64,
}

// The first page that begins at an address or after it.
pub fn page_up(address: u64) -> u64
    ensures { result ≡ page_up address }
{
    address.div_ceil(PAGE_SIZE)
}

pub fn entry_count(ram: &[u64]) -> u64
    ensures { result ≡ length (entries_of ram.now) }
{
    (ram.len() / RAM_ENTRY_WORDS) as u64
}

// An entry: zeros past the last.
pub fn entry_at(ram: &[u64], i: u64) -> MemoryRangeWithNode
    ensures { result ≡ entry_at (entries_of ram.now) i }
{
    let k = i as usize;
    if k < ram.len() / RAM_ENTRY_WORDS {
        let at = RAM_ENTRY_WORDS * k;
        MemoryRangeWithNode {
            start: ram[at],
            end: ram[at + 1],
            vnode: ram[at + 2],
        }
    } else {
        MemoryRangeWithNode {
            start: 0,
            end: 0,
            vnode: 0,
        }
    }
}

fn follows_on(e: MemoryRangeWithNode, from: u64) -> bool
    ensures { result ≡ follows from e }
{
    from <= e.start && e.start < e.end && e.end <= 0x10_0000_0000_0000 && e.vnode < 0x1_0000_0000
}

fn is_ordered(ram: &[u64]) -> bool
    ensures { result ≡ ordered 0 (entries_of ram.now) }
{
    let mut from = 0;
    for i in 0..entry_count(ram) {
        let e = entry_at(ram, i);
        if !follows_on(e, from) {
            return false;
        }
        from = e.end;
    }
    true
}

fn is_on_bytes(e: MemoryRangeWithNode) -> bool
    ensures { result ≡ on_bytes e }
{
    e.start % RAM_ALIGNMENT == 0 && e.end % RAM_ALIGNMENT == 0
}

fn is_aligned(ram: &[u64]) -> bool
    ensures { result ≡ aligned (entries_of ram.now) }
{
    for i in 0..entry_count(ram) {
        if !is_on_bytes(entry_at(ram, i)) {
            return false;
        }
    }
    true
}

// Whether the entries are in order comes before whether they are aligned.
fn entries_refusal(ordered: bool, aligned: bool) -> Result<(), Refusal>
    ensures { refused_by result ≡ unless ordered refusal.unfit_layout (unless aligned refusal.bad_alignment 0) }
{
    if !ordered {
        return Err(Refusal::UnfitLayout);
    }
    if !aligned {
        return Err(Refusal::BadAlignment);
    }
    Ok(())
}

// What refuses the layout.
pub fn refusal(ram: &[u64]) -> Result<(), Refusal>
    ensures { refused_by result ≡ refusal_of ram.now }
{
    if ram.len() % RAM_ENTRY_WORDS != 0 {
        return Err(Refusal::UnfitLayout);
    }
    let n = entry_count(ram);
    if n == 0 {
        return Err(Refusal::UnfitLayout);
    }
    if limit::RAM_ENTRIES < n {
        return Err(Refusal::UnfitLayout);
    }
    entries_refusal(is_ordered(ram), is_aligned(ram))
}

fn holds(e: MemoryRangeWithNode, address: u64) -> bool
    ensures { result ≡ between e.start e.end address }
{
    e.start <= address && address < e.end
}

// The place of the first entry that holds a page, or the number of entries.
pub fn entry_of(ram: &[u64], gpn: u64) -> u64
    ensures { result ≡ place_of (entries_of ram.now) gpn }
{
    let n = entry_count(ram);
    if 0x10_0000_0000_0000 <= gpn {
        return n;
    }
    let address = gpn * PAGE_SIZE;
    for i in 0..n {
        if holds(entry_at(ram, i), address) {
            return i;
        }
    }
    n
}

// Whether a page is RAM.
pub fn is_in_guest_memory(ram: &[u64], gpn: u64) -> bool
    ensures { result ≡ is_ram (entries_of ram.now) gpn }
{
    entry_of(ram, gpn) < entry_count(ram)
}

// The end of the last entry: 0 where there is none.
pub fn last_end(ram: &[u64]) -> u64
    ensures { result ≡ last_end (entries_of ram.now) }
{
    entry_at(ram, entry_count(ram).saturating_sub(1)).end
}

// The length of a page map in bytes.
pub fn map_len(ram: &[u64]) -> u64
    ensures { result ≡ map_len (entries_of ram.now) }
{
    last_end(ram) / RAM_ALIGNMENT
}

// The span that starts at an entry: empty past the last.
pub fn span_at(ram: &[u64], i: u64) -> Span
    ensures { result ≡ span_at (entries_of ram.now) i }
{
    let n = entry_count(ram);
    if n <= i {
        return Span {
            start: 0,
            end: 0,
            next: i,
        };
    }
    let first = entry_at(ram, i);
    let mut end = first.end;
    for next in i + 1..n {
        let e = entry_at(ram, next);
        if e.start != end {
            return Span {
                start: first.start,
                end,
                next,
            };
        }
        end = e.end;
    }
    Span {
        start: first.start,
        end,
        next: n,
    }
}
