// The protector's part of the file.
ghost use Rattle.std.specs.Prelude.{◌≡◌};
ghost use Rattle.recording.specs.Decode.{number_at};
ghost use Rattle.playback.specs.Buffers.{no_buffers};
ghost use Rattle.replay.specs.Lines.{fields_at, after_line, put_of, times_before, put_often, compared_to, buffers_after, tally_after, after_lines};

use crate::tally::Difference;
use crate::{field, given, tally};
use abi::{limit, place};
use playback::buffers::{Buffers, Call};
use playback::{answers, buffers, calls, left};
use recording::{decode, kind, lists};

#[tactic(auto, unfolding(crate::specs::Lines::put_of))]
fn put(buffers: &mut Buffers, c: Call, list: &[u8], ram: &[u64])
    ensures { buffers.new ≡ put_of buffers.old c list.now ram.now }
{
    buffers.asked = recording::digest::START;
    if c.kind == kind::BUILD {
        calls::build(buffers, c, ram);
    } else {
        calls::call(buffers, c, list);
        answers::finish(buffers, c);
    }
}

// Of a call that fails nowhere the place of the code says how often it is put before.
fn times_before(c: Call) -> u64
    ensures { result ≡ times_before c }
{
    if c.place == 0 { c.code } else { 0 }
}

fn put_often(buffers: &mut Buffers, c: Call, list: &[u8], ram: &[u64])
    ensures { buffers.new ≡ put_often buffers.old c list.now ram.now }
{
    let times = times_before(c);
    for _ in 0..times {
        put(buffers, c, list, ram);
    }
    put(buffers, c, list, ram);
}

fn compare(
    buffers: &Buffers,
    f: &[u64; field::ALL],
    tally: &mut [u64],
    first: &mut Option<Difference>,
)
    ensures { tally.new ≡ compared_to buffers.now f.now tally.old }
{
    let r = buffers.reply;
    let result = tally::result_of(r.number);
    let left = left::left(buffers);
    let g: [u64; given::ALL] = [result, r.code, r.index, r.count, buffers.asked, left];
    let column = buffers.state[place::ISOLATION] % tally::COLUMNS + 2;
    tally::note(tally, first, f, &g, r.number, column);
}

// The call of the line at a place is put and counted. The place after the line.
fn line(
    input: &[u8],
    at: usize,
    buffers: &mut Buffers,
    tally: &mut [u64],
    first: &mut Option<Difference>,
) -> usize
    ensures { (buffers.new ≡ buffers_after input.now buffers.old at) × (result ≡ after_line input.now at) × (tally.new ≡ compared_to (buffers_after input.now buffers.old at) (fields_at input.now at) tally.old) }
{
    let mut f = [0u64; field::ALL];
    let mut list = [0u8; limit::LIST_BYTES];
    let mut ram = [0u64; lists::RAM_WORDS];
    let runs = decode::numbers(input, at, &mut f);
    let c = tally::call_of(&f);
    let filled = lists::fill(&mut list, input, runs, c.runs);
    let words = lists::ram(&mut ram, input, runs, c.runs);
    put_often(
        buffers,
        c,
        lists::part(&list, filled.len),
        lists::part(&ram, words),
    );
    compare(buffers, &f, tally, first);
    filled.next
}

// The calls of this part are put and counted: how many lines, then a line for each. The place after them.
pub fn run(input: &[u8], from: usize, tally: &mut [u64], first: &mut Option<Difference>) -> usize
    ensures { (tally.new ≡ tally_after (number_at input.now from).value input.now no_buffers (number_at input.now from).next tally.old) × (result ≡ after_lines (number_at input.now from).value input.now (number_at input.now from).next) }
{
    let count = decode::number(input, from);
    let mut buffers = buffers::nothing();
    let lines = count.value;
    let mut next = count.next;
    for _ in 0..lines {
        next = line(input, next, &mut buffers, tally, first);
    }
    next
}
