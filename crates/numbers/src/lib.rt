// Choices and reads of words that several crates make.
#![tactic(auto)]

ghost use Rattle.std.specs.Prelude.{◌≡◌, ◌-◌, min, max, get_or};

pub fn min(a: u64, b: u64) -> u64
    ensures { result ≡ min a b }
{
    a.min(b)
}

pub fn max(a: u64, b: u64) -> u64
    ensures { result ≡ max a b }
{
    a.max(b)
}

// A difference: 0 where there is none.
pub fn saturating_sub(a: u64, b: u64) -> u64
    ensures { result ≡ a - b }
{
    a.saturating_sub(b)
}

// A word of a run: 0 past the end.
pub fn word_at(t: &[u64], i: u64) -> u64
    ensures { result ≡ get_or t.now i 0 }
{
    t.get(i as usize).copied().unwrap_or(0)
}
