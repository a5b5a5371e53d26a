// Page lists as they cross, 8-byte little-endian numbers, and runs of ascending neighbours in a table of pages.
#![tactic(auto)]

ghost use Rattle.std.specs.Prelude.{◌≡◌, true, false, ◌+◌, ◌*◌, eqb, length, get_or, drop};
ghost use Rattle.page_list.specs.Pages.{number_of, pages_of, is_long, among, repeats, is_ragged, steps, strict};
ghost use Rattle.page_list.specs.Runs.{run_at};

use abi::limit;

// Neighbouring pages.
// Kept: a run of no pages where there is none, and no Option: the clauses of run_at, next_piece and run_in give one.
#[derive(Clone, Copy)]
pub struct PageRun {
    pub first: u64,
    pub count: u64,
}

// How many pages a list has.
pub fn page_count(list: &[u8]) -> u64
    ensures { result ≡ length (pages_of list.now) }
{
    (list.len() / 8) as u64
}

// A page of a list: 0 past the last.
pub fn page_at(list: &[u8], i: u64) -> u64
    ensures { result ≡ get_or (pages_of list.now) i 0 }
{
    let k = i as usize;
    if k < list.len() / 8 {
        let at = 8 * k;
        u64::from_le_bytes([
            list[at],
            list[at + 1],
            list[at + 2],
            list[at + 3],
            list[at + 4],
            list[at + 5],
            list[at + 6],
            list[at + 7],
        ])
    } else {
        0
    }
}

// Whether a list has over 512 pages, by its bytes.
pub fn is_long(list: &[u8]) -> bool
    ensures { result ≡ is_long list.now }
{
    limit::LIST_BYTES < list.len()
}

// Whether bytes are over after the last page.
pub fn is_ragged(list: &[u8]) -> bool
    ensures { result ≡ is_ragged list.now }
{
    list.len() % 8 != 0
}

fn steps_on(up: bool, p: u64, q: u64) -> bool
    ensures { result ≡ steps up p q }
{
    if up { p < q } else { q < p }
}

// Whether each page is above the one before it, or each below.
fn is_strict(list: &[u8], up: bool) -> bool
    ensures { result ≡ strict up (pages_of list.now) }
{
    let mut p = page_at(list, 0);
    for i in 1..page_count(list) {
        let q = page_at(list, i);
        if !steps_on(up, p, q) {
            return false;
        }
        p = q;
    }
    true
}

// Whether a page is among those from place `from` on.
fn is_among(list: &[u8], from: u64, p: u64) -> bool
    ensures { result ≡ among (drop from (pages_of list.now)) p }
{
    for i in from..page_count(list) {
        if page_at(list, i) == p {
            return true;
        }
    }
    false
}

// Whether a page stands twice, each page held against all that follow.
fn is_repeated(list: &[u8]) -> bool
    ensures { result ≡ repeats (pages_of list.now) }
{
    for i in 0..page_count(list) {
        if is_among(list, i + 1, page_at(list, i)) {
            return true;
        }
    }
    false
}

// Whether a page stands twice: seen in one pass for a list that ascends or descends.
#[tactic(auto, using(crate::proofs::Laws::strict_none))]
pub fn has_repeat(list: &[u8]) -> bool
    ensures { result ≡ repeats (pages_of list.now) }
{
    !is_strict(list, true) && !is_strict(list, false) && is_repeated(list)
}

fn is_neighbour(p: u64, q: u64) -> bool
    ensures { result ≡ eqb q (p + 1) }
{
    p < q && q - p == 1
}

// The run of ascending neighbours that starts at a place of a table whose first n words are pages.
pub fn run_at(t: &[u64], n: u64, from: u64) -> PageRun
    ensures { result ≡ run_at t.now n from }
{
    if n <= from {
        return PageRun { first: 0, count: 0 };
    }
    let first = numbers::word_at(t, from);
    let stop = n.min(t.len() as u64);
    let mut p = first;
    for i in from + 1..stop {
        let q = numbers::word_at(t, i);
        if !is_neighbour(p, q) {
            return PageRun {
                first,
                count: i - from,
            };
        }
        p = q;
    }
    PageRun {
        first,
        count: stop.max(from + 1) - from,
    }
}
