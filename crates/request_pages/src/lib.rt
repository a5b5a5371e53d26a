// The pages of the request under way, in a table of 1,024 words: pages in the first 512, then their places in the list
// as sent.
#![tactic(auto)]

ghost use Rattle.std.specs.Prelude.{◌≡◌, true, cond, ◌&&◌, ◌+◌, ◌<◌, ◌≤◌, length, get_or, set, take};
ghost use Rattle.abi.specs.Limits as limit;
ghost use Rattle.abi.specs.Lengths.{pages_len, places_start};
ghost use Rattle.bitmap.specs.Pages.{bit_at};
ghost use Rattle.mapping.specs.Maps.{perms_lent, same_maps};
ghost use Rattle.page_list.specs.Pages.{pages_of};
ghost use Rattle.page_list.specs.Runs.{run_at};
ghost use Rattle.request_pages.specs.Request.{pick, table_of, stop_at, is_readable_and_writable, wanted, run_end, put, put_flags};

use abi::PLACES_START;
use mapping::PermissionMapsMut;
use page_list::PageRun;
use permissions::HvMapGpaFlags;

// Whether a page is readable and writable.
fn is_readable_and_writable(read: &[u8], write: &[u8], gpn: u64) -> bool
    ensures { result ≡ (bit_at 8 read.now gpn && bit_at 8 write.now gpn) }
{
    bitmap::page_state(read, gpn) && bitmap::page_state(write, gpn)
}

// How many pages of a list come before the first that isn't readable and writable, where that is asked.
pub fn stop_at(read: &[u8], write: &[u8], asked: bool, list: &[u8]) -> u64
    ensures { result ≡ stop_at (is_readable_and_writable read.now write.now asked) (pages_of list.now) }
{
    let n = page_list::page_count(list);
    if !asked {
        return n;
    }
    for i in 0..n {
        if !is_readable_and_writable(read, write, page_list::page_at(list, i)) {
            return i;
        }
    }
    n
}

// Whether a page's shared mark isn't yet as asked.
fn is_wanted(shared: &[u8], share: bool, gpn: u64) -> bool
    ensures { result ≡ wanted shared.now share gpn }
{
    bitmap::page_state(shared, gpn) != share
}

// A page stored with its place behind those stored before, where it is kept; how many are stored then.
fn store_one(pages: &mut [u64], stored: u64, gpn: u64, place: u64, keep: bool) -> u64
    requires { (stored < limit.listed_pages) × (length pages.old ≡ pages_len) }
    ensures { (result ≡ cond keep (stored + 1) stored) × (pages.new ≡ cond keep (set (set pages.old stored gpn) (places_start + stored) place) pages.old) }
{
    if keep {
        let i = stored as usize;
        pages[i] = gpn;
        pages[PLACES_START + i] = place;
        stored + 1
    } else {
        stored
    }
}

// The pages before place `stop` of a list that are wanted, with their places; how many they are.
pub fn store(pages: &mut [u64], shared: &[u8], share: bool, list: &[u8], stop: u64) -> u64
    requires { (length pages.old ≡ pages_len) × (length list.now ≤ limit.list_bytes) }
    ensures { (result ≡ length (pick (wanted shared.now share) (take stop (pages_of list.now)))) × (pages.new ≡ table_of (wanted shared.now share) (take stop (pages_of list.now)) pages.old) }
{
    let n = numbers::min(stop, page_list::page_count(list));
    let mut stored: u64 = 0;
    for i in 0..n {
        let gpn = page_list::page_at(list, i);
        stored = store_one(pages, stored, gpn, i, is_wanted(shared, share, gpn));
    }
    stored
}

// All pages of a list, with their places.
pub fn store_all(pages: &mut [u64], list: &[u8])
    requires { (length pages.old ≡ pages_len) × (length list.now ≤ limit.list_bytes) }
    ensures { pages.new ≡ table_of (λ p. true) (pages_of list.now) pages.old }
{
    for i in 0..page_list::page_count(list) {
        let _ = store_one(pages, i, page_list::page_at(list, i), i, true);
    }
}

// The place in the list as sent of the page at place i of the table.
pub fn place_at(pages: &[u64], i: u64) -> u64
    ensures { result ≡ get_or pages.now (places_start + i) 0 }
{
    if i < pages.len() as u64 {
        numbers::word_at(pages, PLACES_START as u64 + i)
    } else {
        0
    }
}

// The place after the run of ascending neighbours that starts at a place, among the first `count`.
// Kept, here and wherever pages go with a count: the table and no slice of it, since the clauses of run_at and run_end speak of its first `count` words.
pub fn run_end(pages: &[u64], count: u64, at: u64) -> u64
    ensures { result ≡ run_end pages.now count at }
{
    let run = page_list::run_at(pages, count, at);
    at + run.count
}

// The permissions of the run at a place, of the first `count`.
pub fn update_permissions_at(
    maps: &mut PermissionMapsMut<'_>,
    pages: &[u64],
    count: u64,
    at: u64,
    run: PageRun,
    flags: HvMapGpaFlags,
)
    requires { (at < count) × (count ≤ length pages.now) × (run ≡ run_at pages.now count at) }
    ensures same { same_maps maps.old maps.new }
    ensures value { perms_lent maps.new ≡ put_flags pages.now at (run_end pages.now count at) flags (perms_lent maps.old) }
{
    let last = numbers::word_at(pages, at + (run.count - 1));
    mapping::update_permission_bitmaps(maps, run.first, last, flags);
}

// The pages at the places from `from` to before `to`, run by run.
pub fn set_places(map: &mut [u8], pages: &[u64], from: u64, to: u64, state: bool)
    ensures { map.new ≡ put pages.now from to state map.old }
{
    let stop = numbers::min(to, pages.len() as u64);
    // Kept: each turn passes as many pages as the run at `i` has.
    let mut i = from;
    while i < stop {
        let end = run_end(pages, to, i);
        bitmap::update(
            map,
            numbers::word_at(pages, i),
            numbers::word_at(pages, end - 1),
            state,
        );
        i = end;
    }
}

// The permissions of these pages, run by run.
pub fn update_permissions(
    maps: &mut PermissionMapsMut<'_>,
    pages: &[u64],
    from: u64,
    to: u64,
    flags: HvMapGpaFlags,
)
    ensures same { same_maps maps.old maps.new }
    ensures value { perms_lent maps.new ≡ put_flags pages.now from to flags (perms_lent maps.old) }
{
    let stop = numbers::min(to, pages.len() as u64);
    // Kept: each turn passes as many pages as the run at `i` has.
    let mut i = from;
    while i < stop {
        let end = run_end(pages, to, i);
        let first = numbers::word_at(pages, i);
        let last = numbers::word_at(pages, end - 1);
        mapping::update_permission_bitmaps(maps, first, last, flags);
        i = end;
    }
}
