// Lists of pages, 8 bytes a page, from runs of a first page and a count.
ghost use Rattle.std.specs.Prelude.{◌≡◌, ◌*◌, ◌%◌};
ghost use Rattle.recording.specs.Lists.{first_at, count_at, after_run, after_runs, filling, with_byte, with_bytes, with_pages, with_runs, entry_place, with_entry, with_entries, part_of};

use crate::decode;

// The longest layout.
pub const RAM_WORDS: usize = 96;

// How many bytes of a list are filled, and the place after the runs read.
#[derive(Clone, Copy)]
pub struct Filled {
    pub len: usize,
    pub next: usize,
}

// A byte at a place, and the place after it: the end where there is no room.
fn put(list: &mut [u8], at: usize, b: u8) -> usize
    ensures { filling list.new result ≡ with_byte (filling list.old at) b }
{
    if at < list.len() {
        list[at] = b;
        at + 1
    } else {
        at
    }
}

// A page at a place, the low byte first, and the place after it.
fn put_page(list: &mut [u8], at: usize, page: u64) -> usize
    ensures { filling list.new result ≡ with_bytes 8 (filling list.old at) page }
{
    let mut next = at;
    for b in page.to_le_bytes() {
        next = put(list, next, b);
    }
    next
}

// A run of pages at a place, as far as the list goes, and the place after it.
fn put_run(list: &mut [u8], at: usize, first: u64, count: u64) -> usize
    ensures { filling list.new result ≡ with_pages count (filling list.old at) first }
{
    let mut next = at;
    let mut page = first;
    for _ in 0..count {
        next = put_page(list, next, page);
        page = page.wrapping_add(1);
    }
    next
}

// A run of pages: its first, how many there are, and the place after its two numbers.
#[derive(Clone, Copy)]
struct Run {
    first: u64,
    count: u64,
    next: usize,
}

// The run that is read at a place.
fn run_at(input: &[u8], at: usize) -> Run
    ensures { (result.first ≡ first_at input.now at) × (result.count ≡ count_at input.now at) × (result.next ≡ after_run input.now at) }
{
    let first = decode::number(input, at);
    let count = decode::number(input, first.next);
    Run {
        first: first.value,
        count: count.value,
        next: count.next,
    }
}

// The place after so many runs, read at a place.
pub fn after_runs(input: &[u8], at: usize, runs: u64) -> usize
    ensures { result ≡ after_runs runs input.now at }
{
    let mut next = at;
    for _ in 0..runs {
        next = run_at(input, next).next;
    }
    next
}

// A list filled with so many runs, each a first page and a count, read at a place.
pub fn fill(list: &mut [u8], input: &[u8], at: usize, runs: u64) -> Filled
    ensures { (filling list.new result.len ≡ with_runs runs input.now at (filling list.old 0)) × (result.next ≡ after_runs runs input.now at) }
{
    let mut next = at;
    let mut len = 0;
    for _ in 0..runs {
        let run = run_at(input, next);
        len = put_run(list, len, run.first, run.count);
        next = run.next;
    }
    Filled { len, next }
}

// Words of a layout: an entry's first and last byte, the last excluded, and its place as its node.
fn put_entry(ram: &mut [u64], i: u64, first: u64, count: u64)
    ensures { ram.new ≡ with_entry ram.old i first count }
{
    let start = first % (1 << 40) * 4096;
    let size = count % (1 << 40) * 4096;
    let at = i % 65536 * 3;
    words::put(ram, at, start);
    words::put(ram, at + 1, start + size);
    words::put(ram, at + 2, i);
}

// A layout's words from so many runs of pages, read at a place: how many there are.
pub fn ram(run: &mut [u64], input: &[u8], at: usize, runs: u64) -> usize
    ensures { (run.new ≡ with_entries runs input.now at 0 run.old) × (result ≡ entry_place runs) }
{
    let mut next = at;
    for i in 0..runs {
        let entry = run_at(input, next);
        put_entry(run, i, entry.first, entry.count);
        next = entry.next;
    }
    (runs % 65536 * 3) as usize
}

// The first so many of a list: none where it is shorter.
pub fn part<T>(list: &[T], len: usize) -> &[T]
    ensures { result.now ≡ part_of list.now len }
{
    list.get(..len).unwrap_or(&list[..0])
}
