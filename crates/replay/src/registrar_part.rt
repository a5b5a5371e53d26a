// The registrar's part of the file.
// Kept: a line of each part has another contract, so one `run` for both is a trait with laws, longer than the two loops.
ghost use Rattle.std.specs.Prelude.{◌≡◌};
ghost use Rattle.recording.specs.Decode.{number_at};
ghost use Rattle.replay.specs.Lines.{fields_at, after_line, no_registry, registry_compared_to, registry_after, registry_tally};

use crate::tally::Difference;
use crate::{field, given, tally};
use abi::REGISTRAR_WORDS;
use playback::registry;
use playback::registry::Registry;
use recording::{decode, lists};

fn nothing() -> Registry
    ensures { result ≡ no_registry }
{
    Registry {
        state: [0; REGISTRAR_WORDS],
        registered: [0; registry::BITMAP_WORDS],
        failed: [0; registry::BITMAP_WORDS],
        reply: registrar_state::done(0),
        asked: 0,
    }
}

fn compare(w: &Registry, f: &[u64; field::ALL], tally: &mut [u64], first: &mut Option<Difference>)
    ensures { tally.new ≡ registry_compared_to w.now f.now tally.old }
{
    let r = w.reply;
    let result = tally::result_of(r.number);
    let asked = registry::asked(w);
    let left = registry::left(w);
    let g: [u64; given::ALL] = [result, 0, r.address, r.count, asked, left];
    tally::note(tally, first, f, &g, r.number, tally::REGISTRAR);
}

// The call of the line at a place is put and counted. The place after the line.
fn line(
    input: &[u8],
    at: usize,
    w: &mut Registry,
    tally: &mut [u64],
    first: &mut Option<Difference>,
) -> usize
    ensures { (w.new ≡ registry_after input.now w.old at) × (result ≡ after_line input.now at) × (tally.new ≡ registry_compared_to (registry_after input.now w.old at) (fields_at input.now at) tally.old) }
{
    let mut f = [0u64; field::ALL];
    let mut ram = [0u64; lists::RAM_WORDS];
    let runs = decode::numbers(input, at, &mut f);
    let c = tally::call_of(&f);
    let words = lists::ram(&mut ram, input, runs, c.runs);
    registry::call(w, c, lists::part(&ram, words));
    compare(w, &f, tally, first);
    lists::after_runs(input, runs, c.runs)
}

// The calls of this part are put and counted: how many lines, then a line for each.
pub fn run(input: &[u8], from: usize, tally: &mut [u64], first: &mut Option<Difference>)
    ensures { tally.new ≡ registry_tally (number_at input.now from).value input.now no_registry (number_at input.now from).next tally.old }
{
    let count = decode::number(input, from);
    let mut w = nothing();
    let lines = count.value;
    let mut next = count.next;
    for _ in 0..lines {
        next = line(input, next, &mut w, tally, first);
    }
}
