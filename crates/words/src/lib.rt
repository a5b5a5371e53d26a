// Words of a lent run written and moved. Nothing is written past its end.
#![tactic(auto)]

ghost use Rattle.std.specs.Prelude.{◌≡◌, ◌+◌, ◌≤◌, min, length, get_or, set, replicate};
ghost use Rattle.words.specs.Words.{closed, closed_to, swapped, turned};

pub fn put(t: &mut [u64], i: u64, v: u64)
    ensures { t.new ≡ set t.old i v }
{
    let k = i as usize;
    if k < t.len() {
        t[k] = v;
    }
}

pub fn clear(t: &mut [u64])
    ensures { t.new ≡ replicate (length t.old) 0 }
{
    t.fill(0);
}

// The place n words after a place: the end where there are fewer.
fn place_after(t: &[u64], place: u64, n: u64) -> u64
    ensures { result ≡ min (length t.now) (place + n) }
{
    (t.len() as u64).min(place.saturating_add(n))
}

// The word n places after a place: 0 past the end.
pub fn word_after(t: &[u64], place: u64, n: u64) -> u64
    ensures { result ≡ get_or t.now (place + n) 0 }
{
    numbers::word_at(t, place_after(t, place, n))
}

pub fn put_after(t: &mut [u64], place: u64, n: u64, v: u64)
    ensures { t.new ≡ set t.old (place + n) v }
{
    let i = place_after(t, place, n);
    put(t, i, v);
}

// n words at a place go: what follows closes the gap, and the freed words are zero.
fn close(t: &mut [u64], place: u64, n: u64)
    ensures { t.new ≡ closed t.old place n }
{
    let gap = place_after(t, place, 0) as usize;
    let rest = place_after(t, place, n) as usize;
    t.copy_within(rest.., gap);
    let freed = t.len() - (rest - gap);
    t[freed..].fill(0);
}

// The same of the words before `end`: what stands from there on is kept.
pub fn remove_words(t: &mut [u64], place: u64, n: u64, end: u64)
    ensures { t.new ≡ closed_to t.old place n end }
{
    let to = place_after(t, end, 0) as usize;
    close(&mut t[..to], place, n);
}

// The words from `from` to before `to`, the other way round.
fn reverse(t: &mut [u64], from: u64, to: u64)
    requires { (from ≤ to) × (to ≤ length t.old) }
    ensures { t.new ≡ turned t.old from to }
{
    t[from as usize..to as usize].reverse();
}

// n words at a place and the m words behind them change places: each part is turned, then both as one.
pub fn swap_runs(t: &mut [u64], place: u64, n: u64, m: u64)
    ensures { t.new ≡ swapped t.old place n m }
{
    let from = place_after(t, place, 0);
    let middle = place_after(t, from, n);
    let to = place_after(t, middle, m);
    // Kept: rotate_left calls memmove, and the C library is to need memset alone (docs/ABI.md).
    reverse(t, from, middle);
    reverse(t, middle, to);
    reverse(t, from, to);
}
