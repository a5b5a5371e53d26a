// What the registrar does next. Nothing here writes.
#![tactic(auto)]

ghost use Rattle.std.specs.Prelude.{◌≡◌, ℕ, ◌+◌, ◌*◌, ◌^◌, ◌<◌, ◌≤◌, min, true, not, ◌&&◌, ◌==◌, nat_lt};
ghost use Rattle.abi.specs.Lengths.{word_bits};
ghost use Rattle.bitmap.specs.Pages.{bit_at};
ghost use Rattle.layout.specs.Layout.{entries_of, spans};
ghost use Rattle.chunks.specs.Chunks.{chunk_count, empty};
ghost use Rattle.registrar_steps.specs.Steps.{chunk_state, ram_from, idle, is_idle, asked_of, asks, ends, piece_of, is_end, has_ram, stop, offer_of, stop_at, stretch_in, look_at, unaligned_at, stretch_of, is_nothing, found, all_from};

use abi::kind;
use layout::MemoryRange;

// The request under way. kind: 0 nothing asked, 1 register, else register_all_aligned. The chunks from `from` to before
// `to` are under way, of them the bytes from `start` to before `end`.
// Kept: numbers for the kind and for whether edges are ignored: the definitions idle and request_of read the state block's words
// as these fields.
#[derive(Clone, Copy, PartialEq, Eq)]
pub struct Request {
    pub kind: u64,
    pub count: u64,
    pub from: u64,
    pub to: u64,
    pub start: u64,
    pub end: u64,
    pub until: u64,
    pub alignment: u64,
    pub ignore: u64,
}

// The fields of UnalignedMemory.
#[derive(Clone, Copy)]
pub struct Unaligned {
    pub span: MemoryRange,
    pub edge: MemoryRange,
    pub vnode: u64,
    pub node_range: MemoryRange,
    pub alignment: u64,
}

// What a call gives: a finished one with the count of its operations.
// Kept: a number in `Refused`: `flat_of` of specs takes any.
#[derive(Clone, Copy)]
pub enum Answer {
    Done(u64),
    Register(MemoryRange),
    RegistrationFailed { address: u64, count: u64 },
    UnalignedMemory(Unaligned, u64),
    Refused(u64),
}

// Why `register` stops: at the end, at a chunk with RAM to ask for, at one that failed before. Of one chunk End is that it
// asks for nothing.
#[derive(Clone, Copy)]
pub enum Why {
    End,
    Ram,
    Failed,
}

// Where `register` stops, with the address of a chunk that failed before, or of the RAM to ask for.
// Kept: `why` beside the places, and no enum of them: the clauses of has_ram and stop_from, and plan_at in specs, name these fields.
#[derive(Clone, Copy)]
pub struct Stop {
    pub why: Why,
    pub chunk: u64,
    pub start: u64,
    pub end: u64,
}

// What is next in a span.
// Kept: four cases, of which `Nothing` is one, in place of an Option of three: `look_at` and `found` of specs name them.
#[derive(Clone, Copy)]
pub enum Look {
    Nothing,
    Edge(MemoryRange),
    FailedBefore(u64),
    Stretch {
        from: u64,
        to: u64,
        start: u64,
        end: u64,
    },
}

// The chunks from `from` to before `to` become registered; then the request under way, and what the call gives.
#[derive(Clone, Copy)]
pub struct Plan {
    pub from: u64,
    pub to: u64,
    pub request: Request,
    pub answer: Answer,
}

// A stop of its parts.
fn stop_of(why: Why, chunk: u64, start: u64, end: u64) -> Stop
    ensures { result ≡ stop why chunk start end }
{
    Stop {
        why,
        chunk,
        start,
        end,
    }
}

// Whether a stop is at the end.
fn is_end(stop: Stop) -> bool
    ensures { result ≡ is_end stop.why }
{
    matches!(stop.why, Why::End)
}

// Whether a stop is at RAM to ask for.
pub fn has_ram(stop: Stop) -> bool
    ensures { result ≡ has_ram stop.why }
{
    matches!(stop.why, Why::Ram)
}

// The chunks that a step looks at: the RAM in them, and which of them are registered and which have failed.
#[derive(Clone, Copy)]
struct View<'a> {
    ram: &'a [u64],
    granularity: u64,
    registered: &'a [u64],
    failed: &'a [u64],
}

impl<'a> View<'a> {
    // What a chunk asks for.
    fn offer_of(&self, chunk: u64) -> Stop
        requires { chunk * self.now.granularity < 2 ^ 64 }
        ensures { result ≡ offer_of (chunk_state self.now.granularity (entries_of self.now.ram.now) self.now.registered.now self.now.failed.now) chunk }
    {
        if bitmap::get(self.registered, chunk) {
            return stop_of(Why::End, chunk, 0, 0);
        }
        let start = chunk * self.granularity;
        let failed_before = bitmap::get(self.failed, chunk);
        if failed_before {
            return stop_of(Why::Failed, chunk, start, 0);
        }
        let first = chunks::chunk_ram(self.ram, self.granularity, start);
        if first.end <= first.start {
            return stop_of(Why::End, chunk, 0, 0);
        }
        stop_of(Why::Ram, chunk, first.start, first.end)
    }

    // The first chunk from `from` to before `to` that asks for something, and what it asks for.
    // Kept: `for`, with max(from, to) after it, takes 3 instructions more in each call (bench row register, a fresh page).
    fn walk(&self, from: u64, to: u64) -> Stop
        requires { (c : ℕ) → c < to → c * self.now.granularity < 2 ^ 64 }
        ensures { result ≡ stop_at (chunk_state self.now.granularity (entries_of self.now.ram.now) self.now.registered.now self.now.failed.now) from to }
    {
        let mut c = from;
        while c < to {
            let offer = self.offer_of(c);
            if !is_end(offer) {
                return offer;
            }
            c += 1;
        }
        stop_of(Why::End, c, 0, 0)
    }

    // The next unregistered stretch, or a chunk that failed before.
    fn stretch_in(&self, from: u64, to: u64) -> Look
        requires { to * self.now.granularity < 2 ^ 64 }
        ensures { result ≡ stretch_in self.now.granularity self.now.registered.now self.now.failed.now from to }
    {
        let a = chunks::run_end(self.registered, self.failed, true, from, to);
        if to <= a {
            return Look::Nothing;
        }
        if bitmap::get(self.failed, a) {
            return Look::FailedBefore(a * self.granularity);
        }
        let b = chunks::run_end(self.registered, self.failed, false, a, to);
        if is_failed_before(self.failed, b, to) {
            return Look::FailedBefore(b * self.granularity);
        }
        Look::Stretch {
            from: a,
            to: b,
            start: a * self.granularity,
            end: b * self.granularity,
        }
    }

    // What is next in a span from a chunk on.
    #[tactic(auto, unfolding(crate::specs::Steps::look_at))]
    fn look_at(&self, alignment: u64, ignore: u64, chunk: u64, span: MemoryRange) -> Look
        ensures { result ≡ look_at self.now.granularity self.now.registered.now self.now.failed.now alignment ignore chunk span }
    {
        let edge = chunks::unaligned_edge(alignment, span);
        if edge_refused(ignore, edge) {
            return Look::Edge(edge);
        }
        let p = chunks::aligned_subrange(alignment, span);
        if p.end <= p.start {
            return Look::Nothing;
        }
        self.stretch_in(
            numbers::max(chunk, chunks::div(p.start, self.granularity)),
            chunks::div(p.end, self.granularity),
        )
    }
}

// Where `register` stops, from chunk `from` on, of a request that ends before chunk `until`, where there are `total` chunks.
pub fn stop_from(
    ram: &[u64],
    granularity: u64,
    registered: &[u64],
    failed: &[u64],
    total: u64,
    from: u64,
    until: u64,
) -> Stop
    requires { total ≡ chunk_count granularity (entries_of ram.now) }
    ensures { (result ≡ stop_at (chunk_state granularity (entries_of ram.now) registered.now failed.now) from (min until total)) × (result.chunk < min until total → result.chunk * granularity < 2 ^ 64) }
{
    let view = View {
        ram,
        granularity,
        registered,
        failed,
    };
    view.walk(from, numbers::min(until, total))
}

// Whether a chunk ends at an address or before it. Is false of a chunk past the last.
// Kept: `start <= address && ..` takes 2 instructions more in each chunk (bench row register, 1 TiB fresh).
fn ends_by(chunk: u64, granularity: u64, total: u64, address: u64) -> bool
    requires { chunk < total → chunk * granularity < 2 ^ 64 }
    ensures { result ≡ true → (chunk + 1) * granularity ≤ address }
{
    if total <= chunk {
        return false;
    }
    let start = chunk * granularity;
    if address < start {
        return false;
    }
    granularity <= address - start
}

// The first RAM of a chunk from an address on, where there are `total` chunks: empty where there is none.
// Kept: an empty range, and no None: the clause gives one.
pub fn rest_of(ram: &[u64], granularity: u64, total: u64, chunk: u64, from: u64) -> MemoryRange
    requires { total ≡ chunk_count granularity (entries_of ram.now) }
    ensures { result ≡ ram_from granularity (entries_of ram.now) chunk from }
{
    if ends_by(chunk, granularity, total, from) {
        return MemoryRange { start: 0, end: 0 };
    }
    chunks::next_ram(ram, granularity, chunk, from)
}

// The operation that a request asks for.
fn asked(offset: u64, request: Request) -> Answer
    ensures { result ≡ asked_of offset request }
{
    Answer::Register(MemoryRange {
        start: offset.wrapping_add(request.start),
        end: offset.wrapping_add(request.end),
    })
}

// The plan that asks for a request's operation, once the chunks from `from` to before `to` are registered.
fn ask(offset: u64, from: u64, to: u64, request: Request) -> Plan
    ensures { result ≡ asks offset from to request }
{
    Plan {
        from,
        to,
        request,
        answer: asked(offset, request),
    }
}

// The request where nothing is asked: all its words are 0.
pub fn idle() -> Request
    ensures { result ≡ idle }
{
    Request {
        kind: kind::NONE,
        count: 0,
        from: 0,
        to: 0,
        start: 0,
        end: 0,
        until: 0,
        alignment: 0,
        ignore: 0,
    }
}

// Whether all words of a request are 0.
pub fn is_idle(request: Request) -> bool
    ensures { result ≡ is_idle request }
{
    request == idle()
}

// The plan that ends a call with an answer, once the chunks from `from` to before `to` are registered.
fn end(from: u64, to: u64, answer: Answer) -> Plan
    ensures { result ≡ ends from to answer }
{
    Plan {
        from,
        to,
        request: idle(),
        answer,
    }
}

// The request for a piece of RAM of the chunks from `from` to before `to`.
pub fn piece(count: u64, from: u64, to: u64, until: u64, range: MemoryRange) -> Request
    ensures { result ≡ piece_of count from to until range }
{
    Request {
        kind: kind::REGISTER,
        count: count.wrapping_add(1),
        from,
        to,
        start: range.start,
        end: range.end,
        until,
        alignment: 0,
        ignore: 0,
    }
}

// Whether a chunk is before `to` and has failed.
fn is_failed_before(failed: &[u64], chunk: u64, to: u64) -> bool
    ensures { result ≡ (nat_lt chunk to && bit_at word_bits failed.now chunk) }
{
    chunk < to && bitmap::get(failed, chunk)
}

// Whether an edge refuses the call: there is one, and edges aren't ignored.
fn edge_refused(ignore: u64, edge: MemoryRange) -> bool
    ensures { result ≡ (ignore == 0 && not (empty edge)) }
{
    ignore == 0 && edge.start < edge.end
}

// The fields of UnalignedMemory: the entry is the first that has a byte of the edge.
fn unaligned_fields(ram: &[u64], alignment: u64, span: MemoryRange, edge: MemoryRange) -> Unaligned
    ensures { result ≡ unaligned_at (entries_of ram.now) alignment span edge }
{
    let e = chunks::entry_with(ram, edge);
    Unaligned {
        span,
        edge,
        vnode: e.vnode,
        node_range: MemoryRange {
            start: e.start,
            end: e.end,
        },
        alignment,
    }
}

// Whether a span has nothing to ask for and nothing that ends the call.
fn is_nothing(look: Look) -> bool
    ensures { result ≡ is_nothing look }
{
    matches!(look, Look::Nothing)
}

// The request for the chunks from `from` to before `to`.
fn stretch_request(
    count: u64,
    alignment: u64,
    ignore: u64,
    from: u64,
    to: u64,
    start: u64,
    end: u64,
) -> Request
    ensures { result ≡ stretch_of count alignment ignore from to start end }
{
    Request {
        kind: kind::REGISTER_ALL,
        count: count.wrapping_add(1),
        from,
        to,
        start,
        end,
        until: 0,
        alignment,
        ignore,
    }
}

// What is found in a span ends the step.
fn act(
    ram: &[u64],
    offset: u64,
    count: u64,
    alignment: u64,
    ignore: u64,
    span: MemoryRange,
    look: Look,
) -> Plan
    ensures { result ≡ found (entries_of ram.now) offset count alignment ignore span look (ends 0 0 (Answer.Done count)) }
{
    match look {
        Look::Nothing => end(0, 0, Answer::Done(count)),
        Look::Edge(edge) => end(
            0,
            0,
            Answer::UnalignedMemory(unaligned_fields(ram, alignment, span, edge), count),
        ),
        Look::FailedBefore(address) => end(0, 0, Answer::RegistrationFailed { address, count }),
        Look::Stretch {
            from,
            to,
            start,
            end,
        } => ask(
            offset,
            0,
            0,
            stretch_request(count, alignment, ignore, from, to, start, end),
        ),
    }
}

// What `register_all_aligned` does next, from a chunk on, of a call that has asked `count` times.
pub fn all_from(
    ram: &[u64],
    offset: u64,
    granularity: u64,
    registered: &[u64],
    failed: &[u64],
    count: u64,
    alignment: u64,
    ignore: u64,
    chunk: u64,
) -> Plan
    ensures { result ≡ all_from (chunk_state granularity (entries_of ram.now) registered.now failed.now) offset count alignment ignore chunk (spans (entries_of ram.now)) }
{
    let view = View {
        ram,
        granularity,
        registered,
        failed,
    };
    let n = layout::entry_count(ram);
    let mut i: u64 = 0;
    // Kept: each turn passes a whole span.
    while i < n {
        let at = layout::span_at(ram, i);
        let span = MemoryRange {
            start: at.start,
            end: at.end,
        };
        let look = view.look_at(alignment, ignore, chunk, span);
        if !is_nothing(look) {
            return act(ram, offset, count, alignment, ignore, span, look);
        }
        i = at.next;
    }
    end(0, 0, Answer::Done(count))
}
