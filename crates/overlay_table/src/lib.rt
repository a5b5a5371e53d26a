// The overlay pages of one VTL in a lent run of words: how many, then five words for each in order of registration.
#![tactic(auto)]

ghost use Rattle.std.specs.Prelude.{◌≡◌, ◌+◌, ◌*◌, ◌≤◌, ◌<◌, length, take, position, MatchOption};
ghost use Rattle.abi.specs.Refusals.{refused_by};
ghost use Rattle.abi.specs.Overlay as overlay;
ghost use Rattle.overlay_table.specs.Search.{is_of, find_from, key_in, loaded, place_for};
ghost use Rattle.overlay_table.specs.Overlays.{used, IsPlace, is_overlay, entry_at, add_code, add_words, previous_words, count_words, remove_words};

use abi::refusal::Refusal;
use abi::{limit, overlay, table};

// The words of a table.
const TABLE_WORDS: usize = table::OVERLAYS1 - table::OVERLAYS0;

// How many entries are loaded at a time at most.
const LOADED: u64 = 4;

// Permissions are flag bits. gpn_source: 0 guest memory, 1 Dma.
// Kept: numbers: the definition `entry_at` reads any words of a lent table.
#[derive(Clone, Copy)]
pub struct OverlayPage {
    pub gpn: u64,
    pub previous_permissions: u64,
    pub overlay_permissions: u64,
    pub ref_count: u64,
    pub gpn_source: u64,
}

// What tells entries apart: what a search reads of an entry, and compares with what it looks for.
#[derive(Clone, Copy, PartialEq, Eq)]
pub struct OverlayKey {
    pub gpn: u64,
}

// Of the first entries of a lent run, the first of a key.
fn find_in(entries: &[OverlayKey], used: usize, key: OverlayKey) -> Option<usize>
    requires { used ≤ length entries.now }
    ensures { result ≡ position (λ e. is_of e key) (take used entries.now) }
{
    entries[..used].iter().position(|entry| *entry == key)
}

// The same of entries by value, which are lent to it.
fn find_loaded(
    entries: [OverlayKey; LOADED as usize],
    used: usize,
    key: OverlayKey,
) -> Option<usize>
    requires { used ≤ 4 }
    ensures { result ≡ find_from (take used entries) key 0 }
{
    find_in(&entries, used, key)
}

// How many entries are in use.
pub fn entry_count(table: &[u64]) -> u64
    ensures { result ≡ used table.now }
{
    numbers::min(limit::OVERLAYS, numbers::word_at(table, 0))
}

// Where the first entry of a page stands.
fn find(table: &[u64], gpn: u64) -> Option<u64>
    ensures { IsPlace table.now gpn result }
{
    for index in 0..entry_count(table) {
        let place = 1 + overlay::WORDS * index;
        if gpn == numbers::word_at(table, place) {
            return Some(place);
        }
    }
    None
}

// The key of an entry from a place on: of no page where the entry isn't among the few that are loaded.
fn key_at(table: &[u64], place: u64, few: u64, index: u64) -> OverlayKey
    requires { place + overlay.words * few ≤ length table.now }
    ensures { result ≡ key_in table.now place few index }
{
    if index < few {
        let at = (place + overlay::WORDS * index) as usize;
        OverlayKey { gpn: table[at] }
    } else {
        OverlayKey { gpn: 0 }
    }
}

// The keys of a few entries from a place on, at most four.
fn load(table: &[u64], place: u64, few: u64) -> [OverlayKey; LOADED as usize]
    requires { place + overlay.words * few ≤ length table.now }
    ensures { result ≡ loaded table.now place few }
{
    let first = key_at(table, place, few, 0);
    let second = key_at(table, place, few, 1);
    let third = key_at(table, place, few, 2);
    let fourth = key_at(table, place, few, 3);
    [first, second, third, fourth]
}

// Of a few entries from a place on, at most four, where the first of a key stands.
fn find_few(table: &[u64], place: u64, few: u64, key: OverlayKey) -> Option<u64>
    requires { (few ≤ 4) × (place + overlay.words * few ≤ length table.now) }
    ensures { MatchOption result (place_for table.now few place key ≡ 0) (λ found. (found ≡ place_for table.now few place key) × (place ≤ found)) }
{
    let entries = load(table, place, few);
    let index = find_loaded(entries, few as usize, key)?;
    Some(place + overlay::WORDS * (index as u64))
}

// The same of any number of entries, one after the other.
fn find_left(table: &[u64], from: u64, count: u64, key: OverlayKey) -> Option<u64>
    requires { (0 < from) × (from + overlay.words * count ≤ length table.now) }
    ensures { MatchOption result (place_for table.now count from key ≡ 0) (λ found. (found ≡ place_for table.now count from key) × (0 < found)) }
{
    for index in 0..count {
        if let Some(found) = find_few(table, from + overlay::WORDS * index, 1, key) {
            return Some(found);
        }
    }
    None
}

// What `find` gives, by a search of lent entries, four at a time.
pub fn find_entry(table: &[u64], gpn: u64) -> Option<u64>
    ensures { IsPlace table.now gpn result }
{
    if table.len() < TABLE_WORDS {
        return find(table, gpn);
    }
    let key = OverlayKey { gpn: gpn };
    let count = entry_count(table);
    let loads = count / LOADED;
    for load in 0..loads {
        let from = 1 + LOADED * overlay::WORDS * load;
        if let Some(found) = find_few(table, from, LOADED, key) {
            return Some(found);
        }
    }
    let place = 1 + LOADED * overlay::WORDS * loads;
    find_left(table, place, count % LOADED, key)
}

pub fn is_overlay(table: &[u64], gpn: u64) -> bool
    ensures { result ≡ is_overlay table.now gpn }
{
    find(table, gpn).is_some()
}

pub fn entry_at(table: &[u64], place: u64) -> OverlayPage
    ensures { result ≡ entry_at table.now place }
{
    let page = numbers::word_at(table, place);
    let previous = words::word_after(table, place, overlay::PREVIOUS);
    let own = words::word_after(table, place, overlay::OWN);
    let count = words::word_after(table, place, overlay::COUNT);
    let source = words::word_after(table, place, overlay::SOURCE);
    OverlayPage {
        gpn: page,
        previous_permissions: previous,
        overlay_permissions: own,
        ref_count: count,
        gpn_source: source,
    }
}

// One entry more, unless 128 are there.
pub fn add(table: &mut [u64], entry: OverlayPage) -> Result<(), Refusal>
    ensures { (refused_by result ≡ add_code table.old) × (table.new ≡ add_words table.old entry) }
{
    let count = entry_count(table);
    if limit::OVERLAYS <= count {
        return Err(Refusal::Full);
    }
    let place = 1 + overlay::WORDS * count;
    words::put(table, place, entry.gpn);
    words::put(table, place + overlay::PREVIOUS, entry.previous_permissions);
    words::put(table, place + overlay::OWN, entry.overlay_permissions);
    words::put(table, place + overlay::COUNT, entry.ref_count);
    words::put(table, place + overlay::SOURCE, entry.gpn_source);
    words::put(table, 0, count + 1);
    Ok(())
}

pub fn set_previous(table: &mut [u64], place: u64, bits: u64)
    ensures { table.new ≡ previous_words table.old place bits }
{
    words::put_after(table, place, overlay::PREVIOUS, bits);
}

pub fn set_count(table: &mut [u64], place: u64, count: u64)
    ensures { table.new ≡ count_words table.old place count }
{
    words::put_after(table, place, overlay::COUNT, count);
}

// The entry at a place goes: those after it move down.
pub fn remove(table: &mut [u64], place: u64)
    ensures { table.new ≡ remove_words table.old place }
{
    let count = entry_count(table);
    words::remove_words(table, place, overlay::WORDS, 1 + overlay::WORDS * count);
    words::put(table, 0, numbers::saturating_sub(count, 1));
}
