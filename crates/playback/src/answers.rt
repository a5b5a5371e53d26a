// A call run to its end: each operation that it asks for goes into the digest and is answered.
ghost use Rattle.std.specs.Prelude.{◌≡◌};
ghost use Rattle.playback.specs.Answers.{flags_of, fields_of, asked_of, answered, finished_of};

use crate::buffers::{ANSWERS, Buffers, Call};
use crate::{buffers, entries};
use abi::isolation::CCA;
use abi::{operation, place};
use protector_state::Reply;
use recording::digest;

// The original hands CCA's backend no flags.
fn flags_of(r: Reply, isolation: u64) -> u64
    ensures { result ≡ flags_of r isolation }
{
    if isolation == CCA { 0 } else { r.flags }
}

fn fields(h: u64, r: Reply, isolation: u64) -> u64
    ensures { result ≡ fields_of h r isolation }
{
    let flags = flags_of(r, isolation);
    digest::words(
        h,
        &[
            r.operation,
            r.vtl,
            flags,
            r.operand,
            r.first,
            r.pages,
            r.shared,
        ],
    )
}

#[tactic(auto, unfolding(crate::specs::Answers::asked_of))]
fn asked(h: u64, pages: &[u64], r: Reply, isolation: u64) -> u64
    ensures { result ≡ asked_of h pages.now r isolation }
{
    let all = fields(h, r, isolation);
    if r.operation == operation::MODIFY {
        return digest::words(all, recording::lists::part(pages, r.pages as usize));
    }
    all
}

#[tactic(auto, unfolding(crate::specs::Answers::answered))]
fn answer(buffers: &mut Buffers, c: Call, at: u64)
    ensures { buffers.new ≡ answered buffers.old c at }
{
    let n = buffers::bytes_in(buffers);
    let isolation = buffers.state[place::ISOLATION];
    buffers.asked = asked(buffers.asked, &buffers.pages, buffers.reply, isolation);
    if at == c.place {
        entries::failed(buffers, n, c);
    } else {
        entries::done(buffers, n);
    }
}

// Until the call asks for nothing more, or for so many answers.
pub fn finish(buffers: &mut Buffers, c: Call)
    ensures { buffers.new ≡ finished_of buffers.old c }
{
    for at in 0..ANSWERS {
        if buffers.reply.operation == 0 {
            return;
        }
        answer(buffers, c, at + 1);
    }
}
