// The locked page lists of one VTL in a lent run of words: how many, then how many pages the first k of them have together, then the pages of all.
#![tactic(auto)]

ghost use Rattle.std.specs.Prelude.{◌≡◌, ◌&&◌, ◌+◌, ◌-◌, ◌≤◌, ◌<◌, min, max, ltb, leb, get_or, MatchOption};
ghost use Rattle.std.proofs.lemmas.List.Edits.{sets};
ghost use Rattle.abi.specs.Limits as limit;
ghost use Rattle.abi.specs.Refusals.{refused_by};
ghost use Rattle.words.specs.Words.{swapped};
ghost use Rattle.page_list.specs.Pages.{among, pages_of};
ghost use Rattle.page_list.specs.Runs.{part};
ghost use Rattle.lock_table.specs.Locks.{same, used, end_of, pages_end, held_in, lock_code, lock_words, equal_from, moved, without, unlock_code, unlock_words};

use abi::limit;
use abi::refusal::Refusal;

// The place of the first page, behind the number of lists and their 64 ends.
pub const FIRST_PAGE: u64 = 65;

// How many lists are in use.
fn list_count(table: &[u64]) -> u64
    ensures { result ≡ used table.now }
{
    numbers::min(limit::LOCKED_LISTS, numbers::word_at(table, 0))
}

// How many pages the first k lists have together, k not 0.
fn end_at(table: &[u64], k: u64) -> u64
    ensures { result ≡ min limit.locked_pages (get_or table.now k 0) }
{
    numbers::min(limit::LOCKED_PAGES, numbers::word_at(table, k))
}

// The same of any k.
fn end_of(table: &[u64], k: u64) -> u64
    ensures value { result ≡ end_of table.now k }
    ensures upper_bound { result ≤ limit.locked_pages }
{
    if k == 0 { 0 } else { end_at(table, k) }
}

// The place after the last locked page.
pub fn pages_end(table: &[u64]) -> u64
    ensures { result ≡ pages_end table.now }
{
    FIRST_PAGE + end_of(table, list_count(table))
}

// Whether a page stands at the places from `from` to before `to`.
fn is_among(table: &[u64], from: u64, to: u64, gpn: u64) -> bool
    ensures { result ≡ among (part table.now to from) gpn }
{
    let end = numbers::min(to, table.len() as u64);
    for i in from..end {
        if gpn == numbers::word_at(table, i) {
            return true;
        }
    }
    false
}

// Whether some list holds a page.
pub fn holds(table: &[u64], gpn: u64) -> bool
    ensures { result ≡ held_in table.now gpn }
{
    is_among(table, FIRST_PAGE, pages_end(table), gpn)
}

// Whether n pages have room beside c lists with `sum` pages.
fn has_room(c: u64, sum: u64, n: u64) -> bool
    ensures { result ≡ (ltb c limit.locked_lists && leb (sum + n) limit.locked_pages) }
{
    c < limit::LOCKED_LISTS && sum <= limit::LOCKED_PAGES && n <= limit::LOCKED_PAGES - sum
}

// The pages of a list, written from a place on.
fn put_pages(table: &mut [u64], place: u64, list: &[u8])
    ensures { table.new ≡ sets table.old place (pages_of list.now) }
{
    for i in 0..page_list::page_count(list) {
        words::put_after(table, place, i, page_list::page_at(list, i));
    }
}

// A list is kept where there is room.
pub fn lock(table: &mut [u64], list: &[u8]) -> Result<(), Refusal>
    ensures { (refused_by result ≡ lock_code table.old (pages_of list.now)) × (table.new ≡ lock_words table.old (pages_of list.now)) }
{
    let n = page_list::page_count(list);
    let c = list_count(table);
    let end = end_of(table, c);
    if !has_room(c, end, n) {
        return Err(Refusal::Full);
    }
    put_pages(table, FIRST_PAGE + end, list);
    words::put(table, c + 1, end + n);
    words::put(table, 0, c + 1);
    Ok(())
}

// Whether the pages at the places from `from` to before `to` are those of a list.
fn is_same(table: &[u64], from: u64, to: u64, list: &[u8]) -> bool
    ensures { result ≡ same (part table.now to from) (pages_of list.now) }
{
    let n = page_list::page_count(list);
    let end = numbers::min(to, table.len() as u64);
    if numbers::saturating_sub(end, from) != n {
        return false;
    }
    for i in 0..n {
        if numbers::word_at(table, from + i) != page_list::page_at(list, i) {
            return false;
        }
    }
    true
}

// The first of n lists with the same pages.
fn find(table: &[u64], n: u64, list: &[u8]) -> Option<u64>
    ensures { MatchOption result (equal_from table.now n 0 (pages_of list.now) ≡ n) (λ k. (k ≡ equal_from table.now n 0 (pages_of list.now)) × (k < n)) }
{
    let mut from = FIRST_PAGE;
    for k in 0..n {
        let to = FIRST_PAGE + end_at(table, k + 1);
        if is_same(table, from, to, list) {
            return Some(k);
        }
        from = to;
    }
    None
}

// Of what stands from `end` on, the last list, from `last` to before `to`, comes first.
fn bring_last(table: &mut [u64], end: u64, last: u64, to: u64)
    ensures { table.new ≡ swapped table.old end (max end last - end) (to - max end last) }
{
    if end < last {
        words::swap_runs(table, end, last - end, numbers::saturating_sub(to, last));
    }
}

// The ends in the words from `from` to before `to`: some pages less, and some more.
fn move_ends(table: &mut [u64], from: u64, to: u64, less: u64, more: u64)
    requires { more ≤ limit.locked_pages + limit.locked_pages }
    ensures { table.new ≡ moved table.old (to - from) from less more }
{
    for k in from..to {
        let end = end_at(table, k);
        words::put(table, k, numbers::saturating_sub(end, less) + more);
    }
}

// List i of c goes, and the last takes its place.
fn remove_list(table: &mut [u64], c: u64, i: u64)
    requires { i < c }
    ensures { table.new ≡ without table.old c i }
{
    let start = end_of(table, i);
    let end = end_of(table, i + 1);
    let last = end_of(table, c - 1);
    let to = end_of(table, c);
    bring_last(table, FIRST_PAGE + end, FIRST_PAGE + last, FIRST_PAGE + to);
    words::remove_words(
        table,
        FIRST_PAGE + start,
        numbers::saturating_sub(end, start),
        FIRST_PAGE + to,
    );
    move_ends(
        table,
        i + 1,
        c,
        end,
        start + numbers::saturating_sub(to, last),
    );
    words::put(table, c, 0);
    words::put(table, 0, c - 1);
}

// The first list with the same pages goes, and the last takes its place.
pub fn unlock(table: &mut [u64], list: &[u8]) -> Result<(), Refusal>
    ensures { (refused_by result ≡ unlock_code table.old (pages_of list.now)) × (table.new ≡ unlock_words table.old (pages_of list.now)) }
{
    let c = list_count(table);
    let Some(i) = find(table, c, list) else {
        return Err(Refusal::NotLocked);
    };
    remove_list(table, c, i);
    Ok(())
}
