// What a default change looks at: its pieces, which are runs of private RAM pages split at the overlay pages inside them.
#![tactic(auto)]

ghost use Rattle.std.specs.Prelude.{◌≡◌, true, false, cond, ◌+◌, ◌-◌, ◌/◌, ◌<◌, ◌≤◌, ◌^◌, ltb, length, get_or, find};
ghost use Rattle.bitmap.specs.Pages.{bit_at};
ghost use Rattle.layout.specs.Layout.{entries_of};
ghost use Rattle.page_list.specs.Runs.{part};
ghost use Rattle.default_change.specs.Pieces.{span, start_of, len_of, piece_of, next_piece, free, wanted, private_ram, is, overlay_pages, non, outside};
ghost use Rattle.default_change.specs.Barred.{barring, any_of, barred};
ghost use Rattle.default_change.specs.Renewed.{renewed_at, renewed};

use abi::overlay;
use page_list::PageRun;

// Whether a page is none of `count` pages from `first` on.
fn is_outside(first: u64, count: u64, p: u64) -> bool
    ensures { result ≡ outside first count p }
{
    p < first || count <= p - first
}

// The page of the first overlay entry whose page is inside a run.
fn find_inside(overlays: &[u64], first: u64, count: u64) -> Option<u64>
    ensures { result ≡ find (non (outside first count)) (overlay_pages overlays.now) }
{
    for i in 0..overlay_table::entry_count(overlays) {
        let p = numbers::word_at(overlays, 1 + overlay::WORDS * i);
        if !is_outside(first, count, p) {
            return Some(p);
        }
    }
    None
}

// Of a run of pages, the leftmost stretch without an overlay page; the run's end and 0 where there is none. Where there is an overlay
// page inside it, the pages before that one are searched, and then those after it.
fn first_piece(overlays: &[u64], first: u64, count: u64) -> PageRun
    requires { first + count < 2 ^ 64 }
    ensures { (result.first ≡ start_of (free overlays.now) first count) × (result.count ≡ len_of (free overlays.now) first count) }
{
    let Some(p) = find_inside(overlays, first, count) else {
        return PageRun { first, count };
    };
    let left = first_piece(overlays, first, p - first);
    if left.count != 0 {
        return left;
    }
    first_piece(overlays, p + 1, first + count - (p + 1))
}

// Byte i of a map: 0 past its end.
fn byte_at(map: &[u8], i: u64) -> u8
    ensures { result ≡ get_or map.now i 0 }
{
    map.get(i as usize).copied().unwrap_or(0)
}

fn is_state(map: &[u8], state: bool, p: u64) -> bool
    ensures { result ≡ is state map.now p }
{
    bitmap::page_state(map, p) == state
}

// Whether the eight pages from p on are a byte before the end, and all have the state.
fn is_alike_byte(map: &[u8], state: bool, p: u64, end: u64) -> bool
    requires { p < end }
    ensures { result ≡ true → (p + 8 ≤ end) × (span (is state map.now) p 8 ≡ 8) }
{
    byte_at(map, p / 8) == bitmap::full(state) && p % 8 == 0 && 8 <= end - p
}

// How many pages are passed where the eight of a byte have the state: these, or all that are left where the byte is past the map.
fn byte_step(map: &[u8], p: u64, end: u64) -> u64
    requires { p < end }
    ensures { result ≡ cond (ltb (p / 8) (length map.now)) 8 (end - p) }
{
    if p / 8 < map.len() as u64 { 8 } else { end - p }
}

// How many pages can be passed at one step: a byte, a page or none; all of them past the end of the map.
fn step(map: &[u8], state: bool, p: u64, end: u64) -> u64
    requires { p < end }
    ensures { (p + result ≤ end) × (span (is state map.now) p result ≡ result) × (result ≡ 0 → is state map.now p ≡ false) }
{
    if is_alike_byte(map, state, p, end) {
        byte_step(map, p, end)
    } else if is_state(map, state, p) {
        1
    } else {
        0
    }
}

// The first page from `from` on and before the end that does not have the state; the end where there is none.
fn scan(map: &[u8], state: bool, from: u64, end: u64) -> u64
    ensures { result ≡ from + span (is state map.now) from (end - from) }
{
    // Kept: each turn passes a byte, a page or all that are left.
    let mut p = from;
    while p < end {
        let k = step(map, state, p, end);
        if k == 0 {
            return p;
        }
        p += k;
    }
    p
}

// The first run of private pages from `from` on and before the end.
fn next_private_run(private: &[u8], from: u64, end: u64) -> PageRun
    ensures { (result.first ≡ start_of (bit_at 8 private.now) from (end - from)) × (result.count ≡ len_of (bit_at 8 private.now) from (end - from)) }
{
    let first = scan(private, false, from, end);
    let last = scan(private, true, first, end);
    PageRun {
        first,
        count: last - first,
    }
}

// The first piece from `from` on and before the end. The pages between two overlay pages are searched for a private run, so that a
// long run is not scanned anew for each of its pieces.
fn piece_between(private: &[u8], overlays: &[u64], from: u64, end: u64) -> PageRun
    ensures { result ≡ piece_of (wanted private.now overlays.now) from end }
{
    // Kept: each turn passes all up to the next overlay page.
    let mut at = from;
    while at < end {
        let gap = first_piece(overlays, at, end - at);
        let stop = gap.first + gap.count;
        let piece = next_private_run(private, gap.first, stop);
        if piece.count != 0 {
            return piece;
        }
        at = stop;
    }
    PageRun {
        first: at,
        count: 0,
    }
}

// The next piece from page `at` on, entry after entry: an empty one where none is left.
pub fn next_piece(private: &[u8], overlays: &[u64], ram: &[u64], at: u64) -> PageRun
    ensures value { result ≡ next_piece private.now overlays.now (entries_of ram.now) at }
    ensures count_bound { result.first + result.count < 2 ^ 64 }
{
    for i in 0..layout::entry_count(ram) {
        let e = layout::entry_at(ram, i);
        let from = numbers::max(layout::page_up(e.start), at);
        let piece = piece_between(private, overlays, from, layout::page_up(e.end));
        if piece.count != 0 {
            return piece;
        }
    }
    PageRun { first: 0, count: 0 }
}

fn is_private_ram(private: &[u8], ram: &[u64], p: u64) -> bool
    ensures { result ≡ private_ram private.now (entries_of ram.now) p }
{
    layout::is_in_guest_memory(ram, p) && bitmap::page_state(private, p)
}

// Whether a page is protected by a default change, and so must not be locked.
fn is_barring(private: &[u8], overlays: &[u64], ram: &[u64], p: u64) -> bool
    ensures { result ≡ barring private.now overlays.now (entries_of ram.now) p }
{
    is_private_ram(private, ram, p) && !overlay_table::is_overlay(overlays, p)
}

// Whether one of the pages at the places from `from` to before `to` is.
fn is_any_barring(
    private: &[u8],
    overlays: &[u64],
    locks: &[u64],
    ram: &[u64],
    from: u64,
    to: u64,
) -> bool
    ensures { result ≡ any_of (barring private.now overlays.now (entries_of ram.now)) (part locks.now to from) }
{
    let end = numbers::min(to, locks.len() as u64);
    for i in from..end {
        if is_barring(private, overlays, ram, numbers::word_at(locks, i)) {
            return true;
        }
    }
    false
}

// Whether a locked page bars a default change.
pub fn has_locked_page(private: &[u8], overlays: &[u64], locks: &[u64], ram: &[u64]) -> bool
    ensures { result ≡ barred private.now overlays.now locks.now (entries_of ram.now) }
{
    let end = lock_table::pages_end(locks);
    is_any_barring(private, overlays, locks, ram, lock_table::FIRST_PAGE, end)
}

// The entry at a place: its previous permissions are new where its page is private RAM.
fn update_previous_at(overlays: &mut [u64], private: &[u8], ram: &[u64], place: u64, bits: u64)
    ensures { overlays.new ≡ renewed_at private.now (entries_of ram.now) bits overlays.old place }
{
    let p = numbers::word_at(overlays, place);
    if is_private_ram(private, ram, p) {
        overlay_table::set_previous(overlays, place, bits);
    }
}

// All entries.
pub fn update_previous_permissions(overlays: &mut [u64], private: &[u8], ram: &[u64], bits: u64)
    ensures { overlays.new ≡ renewed private.now (entries_of ram.now) bits overlays.old }
{
    for index in 0..overlay_table::entry_count(overlays) {
        let place = 1 + overlay::WORDS * index;
        update_previous_at(overlays, private, ram, place, bits);
    }
}
