// The registrar's calls.
ghost use Rattle.std.specs.Prelude.{◌≡◌};
ghost use Rattle.recording.specs.Digest.{start};
ghost use Rattle.playback.specs.Buffers.{answers};
ghost use Rattle.playback.specs.Registry.{lent_of, after, start_in, answered, finished_from, call_of, asked_of, left_of};

use crate::buffers::{ANSWERS, Call};
use abi::REGISTRAR_WORDS;
use recording::{digest, kind};
use registrar_state::Reply;

// Layouts end at chunk 512.
pub const BITMAP_WORDS: usize = 8;

#[derive(Clone, Copy)]
pub struct Registry {
    pub state: [u64; REGISTRAR_WORDS],
    pub registered: [u64; BITMAP_WORDS],
    pub failed: [u64; BITMAP_WORDS],
    pub reply: Reply,
    pub asked: u64,
}

#[tactic(auto, unfolding(crate::specs::Registry::answered))]
fn answer(w: &mut Registry, c: Call, at: u64)
    ensures { w.new ≡ answered w.old c at }
{
    w.asked = digest::word(digest::word(w.asked, w.reply.start), w.reply.end);
    if at == c.place {
        w.reply = registrar::registrar_answer_failed(
            &mut w.state,
            &mut w.registered,
            &mut w.failed,
        );
    } else {
        w.reply = registrar::registrar_answer_done(&mut w.state, &mut w.registered, &mut w.failed);
    }
}

#[tactic(auto, unfolding(crate::specs::Registry::start_in))]
fn start(w: &mut Registry, c: Call, ram: &[u64])
    ensures { w.new ≡ after (start_in (lent_of w.old) c ram.now) start }
{
    w.asked = digest::START;
    let state = &mut w.state;
    let registered = &mut w.registered;
    let failed = &mut w.failed;
    match c.kind {
        kind::REGISTRAR_BUILD => {
            w.reply = registrar::registrar_build(ram, c.a, c.b, state, registered, failed);
        }
        kind::REGISTER => {
            w.reply = registrar::registrar_register(state, registered, failed, c.a, c.b);
        }
        _ => {
            w.reply = registrar::registrar_register_all_aligned(
                state, registered, failed, c.a, c.b,
            );
        }
    }
}

// Kept: `answers::finish` of other buffers; a trait for the two, with its laws, is longer than the loop.
fn finish(w: &mut Registry, c: Call)
    ensures { w.new ≡ finished_from answers 0 w.old c }
{
    for at in 0..ANSWERS {
        if w.reply.asked == 0 {
            return;
        }
        answer(w, c, at + 1);
    }
}

// A call that is run to its end, or to so many answers.
pub fn call(w: &mut Registry, c: Call, ram: &[u64])
    ensures { w.new ≡ call_of w.old c ram.now }
{
    start(w, c, ram);
    finish(w, c);
}

// The digest of what a call asked for, with the fields of a span that is not aligned.
pub fn asked(w: &Registry) -> u64
    ensures { result ≡ asked_of w.now }
{
    let r = w.reply;
    let span = digest::word(digest::word(w.asked, r.span_start), r.span_end);
    let edge = digest::word(digest::word(span, r.edge_start), r.edge_end);
    let node = digest::word(digest::word(edge, r.vnode), r.node_start);
    digest::word(digest::word(node, r.node_end), r.alignment)
}

// The digest of the two bitmaps.
pub fn left(w: &Registry) -> u64
    ensures { result ≡ left_of w.now }
{
    digest::words(digest::words(digest::START, &w.registered), &w.failed)
}
