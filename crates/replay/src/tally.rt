// How many calls there were, how many were as recorded and how many were not; by 01's number; by kind and isolation, or the registrar.
ghost use Rattle.std.specs.Prelude.{◌≡◌};
ghost use Rattle.replay.specs.Tally.{recorded, result_of, is_same, bumped, noted_of};

use crate::{field, given};
use abi::refusal;
use playback::buffers::Call;

// Kept: the definition `noted_of` of specs counts in one list by these places.
// Where the counts stand: of all calls, of those as recorded, of the others.
pub const ALL: u64 = 0;

pub const ALL_SAME: u64 = 1;

pub const OTHERS: u64 = 2;

// By 01's number.
pub const BY_NUMBER: u64 = 16;

pub const NUMBERS: u64 = 32;

// By kind and column, of all and of those as recorded.
pub const CALLS: u64 = 64;

pub const SAME: u64 = 160;

pub const KINDS: u64 = 20;

pub const COLUMNS: u64 = 4;

// The columns are SNP, TDX, CCA and this.
pub const REGISTRAR: u64 = 3;

// A call that isn't as recorded: its number, the numbers of its line and the six given.
#[derive(Clone, Copy)]
pub struct Difference {
    pub call: u64,
    pub line: [u64; field::ALL],
    pub given: [u64; given::ALL],
}

// In the file: refused with a code.
const WITH_A_CODE: u64 = 1;

// The call that the numbers of a line name.
pub fn call_of(f: &[u64; field::ALL]) -> Call
    ensures { result ≡ recorded f.now }
{
    Call {
        kind: f[field::KIND],
        a: f[field::A],
        b: f[field::B],
        c: f[field::C],
        d: f[field::D],
        e: f[field::E],
        place: f[field::PLACE],
        code: f[field::FAILED_CODE],
        processed: f[field::PROCESSED],
        runs: f[field::RUNS],
    }
}

// How a number stands in the file: the original has none for what it refuses with a code.
// Kept: a number, and no `Refusal`: the definition `result_of` takes any that a line may hold.
pub fn result_of(number: u64) -> u64
    ensures { result ≡ result_of number }
{
    if number == refusal::NOT_RAM || refusal::LOCKED <= number && number < refusal::FULL {
        WITH_A_CODE
    } else {
        number
    }
}

#[tactic(auto, unfolding(crate::specs::Tally::is_same))]
fn is_same(f: &[u64; field::ALL], g: &[u64; given::ALL]) -> bool
    ensures { result ≡ is_same f.now g.now }
{
    f[field::RESULT] == g[given::RESULT]
        && f[field::CODE] == g[given::CODE]
        && f[field::INDEX] == g[given::INDEX]
        && f[field::COUNT] == g[given::COUNT]
        && f[field::ASKED] == g[given::ASKED]
        && f[field::LEFT] == g[given::LEFT]
}

fn bump(tally: &mut [u64], i: u64)
    ensures { tally.new ≡ bumped tally.old i }
{
    let k = i as usize;
    if k < tally.len() {
        tally[k] = tally[k].wrapping_add(1);
    }
}

// The first call that isn't as recorded is kept.
fn keep_first(
    first: &mut Option<Difference>,
    tally: &[u64],
    f: &[u64; field::ALL],
    g: &[u64; given::ALL],
) {
    if numbers::word_at(tally, OTHERS) == 1 {
        *first = Some(Difference {
            call: numbers::word_at(tally, ALL),
            line: *f,
            given: *g,
        });
    }
}

// A call is counted, by the numbers of its line and the six given. A column is an isolation, or the registrar.
pub fn note(
    tally: &mut [u64],
    first: &mut Option<Difference>,
    f: &[u64; field::ALL],
    g: &[u64; given::ALL],
    number: u64,
    column: u64,
)
    ensures { tally.new ≡ noted_of tally.old f.now g.now number column }
{
    let cell = f[field::KIND] % KINDS * COLUMNS + column % COLUMNS;
    bump(tally, ALL);
    bump(tally, BY_NUMBER + number % NUMBERS);
    bump(tally, CALLS + cell);
    if is_same(f, g) {
        bump(tally, ALL_SAME);
        bump(tally, SAME + cell);
    } else {
        bump(tally, OTHERS);
        keep_first(first, tally, f, g);
    }
}
