// The state block of the registrar: what it holds, what refuses a call, and what a call plans.
#![tactic(auto)]

ghost use Rattle.std.specs.Prelude.{◌≡◌, ◌*◌, ◌<◌, ◌^◌, min, ◌||◌, ◌&&◌, eqb, leb, length};
ghost use Rattle.abi.specs.Refusals as refusal;
ghost use Rattle.abi.specs.Refusals.{refused_by};
ghost use Rattle.abi.specs.Lengths.{registrar_len, word_bits};
ghost use Rattle.layout.specs.Layout.{range, spans};
ghost use Rattle.registrar_steps.specs.declared.Answer.TheVariants.{Done, Register, RegistrationFailed, Refused};
ghost use Rattle.chunks.specs.Chunks.{up, chunk_count, is_power};
ghost use Rattle.registrar_state.specs.Buffers.{buffers, simple, flat_unaligned, request_of, with_request, offset_of, granularity_of, ram_of, entries_in, chunk_state_in, flat_of, build_refusal, call_refusal, count_in, chunks_fit, all_refusal, is_known, answer_refusal, rest_of};
ghost use Rattle.registrar_steps.specs.Steps.{stop_at, all_from};
ghost use Rattle.laws.specs.Refusal.{unless};

use abi::refusal::{self, Refusal};
use abi::{
    FULL_WORD, PAGE_SIZE, RAM_ENTRY_WORDS, REGISTRAR_WORDS, kind, limit, registrar_place as place,
};
use layout::MemoryRange;
use registrar_steps::{Answer, Plan, Request, Stop, Unaligned};

// What crosses: 01's number (0 where none), whether a Register of start to before end is asked, the count of a finished
// call, the address of 23, the fields of 22.
// Kept: numbers for the refusal and for whether an operation is asked: this is registrar_reply of the C interface.
#[repr(C)]
#[derive(Clone, Copy)]
pub struct Reply {
    pub number: u64,
    pub asked: u64,
    pub count: u64,
    pub start: u64,
    pub end: u64,
    pub address: u64,
    pub span_start: u64,
    pub span_end: u64,
    pub edge_start: u64,
    pub edge_end: u64,
    pub vnode: u64,
    pub node_start: u64,
    pub node_end: u64,
    pub alignment: u64,
}

// A reply without the fields of 22.
fn simple(number: u64, asked: u64, count: u64, start: u64, end: u64, address: u64) -> Reply
    ensures { result ≡ simple number asked count start end address }
{
    Reply {
        number,
        asked,
        count,
        start,
        end,
        address,
        span_start: 0,
        span_end: 0,
        edge_start: 0,
        edge_end: 0,
        vnode: 0,
        node_start: 0,
        node_end: 0,
        alignment: 0,
    }
}

// The reply of a call that asked `count` times and is done.
pub fn done(count: u64) -> Reply
    ensures { result ≡ flat_of (Done count) }
{
    simple(0, 0, count, 0, 0, 0)
}

// The reply that asks for a Register of `start` to before `end`, offset added.
pub fn asked(start: u64, end: u64) -> Reply
    ensures { result ≡ flat_of (Register (range start end)) }
{
    simple(0, 1, 0, start, end, 0)
}

// The reply of 23, for a call that asked `count` times.
pub fn registration_failed(address: u64, count: u64) -> Reply
    ensures { result ≡ flat_of (RegistrationFailed address count) }
{
    simple(refusal::REGISTRATION_FAILED, 0, count, 0, 0, address)
}

// The reply of a refused call.
pub fn refused(number: u64) -> Reply
    ensures { result ≡ flat_of (Refused number) }
{
    simple(number, 0, 0, 0, 0, 0)
}

// The reply of 22.
fn unaligned_reply(unaligned: Unaligned, count: u64) -> Reply
    ensures { result ≡ flat_unaligned unaligned count }
{
    let span = unaligned.span;
    let edge = unaligned.edge;
    let node = unaligned.node_range;
    Reply {
        number: refusal::UNALIGNED_MEMORY,
        asked: 0,
        count,
        start: 0,
        end: 0,
        address: 0,
        span_start: span.start,
        span_end: span.end,
        edge_start: edge.start,
        edge_end: edge.end,
        vnode: unaligned.vnode,
        node_start: node.start,
        node_end: node.end,
        alignment: unaligned.alignment,
    }
}

// The reply that an answer crosses as.
pub fn to_reply(answer: Answer) -> Reply
    ensures { result ≡ flat_of answer }
{
    match answer {
        Answer::Done(count) => done(count),
        Answer::Register(r) => asked(r.start, r.end),
        Answer::RegistrationFailed { address, count } => registration_failed(address, count),
        Answer::UnalignedMemory(u, count) => unaligned_reply(u, count),
        Answer::Refused(number) => refused(number),
    }
}

// The request under way, as the state block has it.
pub fn load(state: &[u64]) -> Request
    requires { length state.now ≡ registrar_len }
    ensures { result ≡ request_of state.now }
{
    Request {
        kind: state[place::KIND],
        count: state[place::COUNT],
        from: state[place::FROM],
        to: state[place::TO],
        start: state[place::START],
        end: state[place::END],
        until: state[place::UNTIL],
        alignment: state[place::ALIGNMENT],
        ignore: state[place::IGNORE],
    }
}

// Stores the request under way; the other words of the state block stay.
pub fn save(state: &mut [u64], request: Request)
    requires { length state.old ≡ registrar_len }
    ensures { state.new ≡ with_request request state.old }
{
    state[place::KIND] = request.kind;
    state[place::COUNT] = request.count;
    state[place::FROM] = request.from;
    state[place::TO] = request.to;
    state[place::START] = request.start;
    state[place::END] = request.end;
    state[place::UNTIL] = request.until;
    state[place::ALIGNMENT] = request.alignment;
    state[place::IGNORE] = request.ignore;
}

// The words of the layout.
fn ram_of(state: &[u64]) -> &[u64]
    requires { length state.now ≡ registrar_len }
    ensures { result.now ≡ ram_of state.now }
{
    let n = numbers::min(state[place::ENTRIES], limit::RAM_ENTRIES) as usize;
    let end = place::RAM + RAM_ENTRY_WORDS * n;
    &state[place::RAM..end]
}

// Whether both bitmaps have the words of so many chunks.
fn lengths_fit(total: u64, registered: &[u64], failed: &[u64]) -> bool
    ensures { result ≡ (eqb (length registered.now) (up total word_bits) && eqb (length failed.now) (up total word_bits)) }
{
    let words = chunks::map_words(total);
    registered.len() as u64 == words && failed.len() as u64 == words
}

// How many chunks there are: 0 where the state block has another length.
pub fn chunk_count(state: &[u64]) -> u64
    ensures { result ≡ count_in state.now }
{
    if state.len() != REGISTRAR_WORDS {
        return 0;
    }
    chunks::chunk_count(ram_of(state), state[place::GRANULARITY])
}

// What refuses both requests alike: 4 of the state block, 19, 4 of the bitmaps.
fn call_refusal(
    state: &[u64],
    registered: &[u64],
    failed: &[u64],
    total: u64,
) -> Result<(), Refusal>
    requires { total ≡ count_in state.now }
    ensures { refused_by result ≡ call_refusal (buffers state.now registered.now failed.now) 0 }
{
    if state.len() != REGISTRAR_WORDS {
        return Err(Refusal::WrongLength);
    }
    if state[place::KIND] != kind::NONE {
        return Err(Refusal::Busy);
    }
    if !lengths_fit(total, registered, failed) {
        return Err(Refusal::WrongLength);
    }
    Ok(())
}

// Whether none of the chunks from `first` to before `end` is past the last.
fn chunks_fit(total: u64, first: u64, end: u64) -> bool
    ensures { result ≡ (leb end first || leb end total) }
{
    end <= first || end <= total
}

// The granularity: 0 where the state block is too short.
pub fn granularity(state: &[u64]) -> u64
    ensures { result ≡ granularity_of state.now }
{
    numbers::word_at(state, place::GRANULARITY as u64)
}

// What refuses a `register` that touches the chunks from `first` to before `end`.
#[tactic(auto, using(abi::proofs::Numbers::number_not_zero))]
pub fn register_refusal(
    state: &[u64],
    registered: &[u64],
    failed: &[u64],
    total: u64,
    first: u64,
    end: u64,
) -> Result<(), Refusal>
    requires { total ≡ count_in state.now }
    ensures { refused_by result ≡ call_refusal (buffers state.now registered.now failed.now) (unless (chunks_fit state.now first end) refusal.unfit_chunk 0) }
{
    call_refusal(state, registered, failed, total)?;
    if !chunks_fit(total, first, end) {
        return Err(Refusal::UnfitChunk);
    }
    Ok(())
}

// Whether a number is a power of two from `least` on.
fn is_power_from(least: u64, n: u64) -> bool
    ensures { result ≡ (leb least n && is_power n) }
{
    least <= n && chunks::is_power_of_two(n)
}

// What refuses a `register_all_aligned`.
#[tactic(auto, using(abi::proofs::Numbers::number_not_zero), unfolding(crate::specs::Buffers::all_refusal))]
pub fn all_refusal(
    state: &[u64],
    registered: &[u64],
    failed: &[u64],
    total: u64,
    alignment: u64,
    ignore: u64,
) -> Result<(), Refusal>
    requires { total ≡ count_in state.now }
    ensures { refused_by result ≡ all_refusal (buffers state.now registered.now failed.now) alignment ignore }
{
    call_refusal(state, registered, failed, total)?;
    if 1 < ignore {
        return Err(Refusal::UnfitNumber);
    }
    if !is_power_from(state[place::GRANULARITY], alignment) {
        return Err(Refusal::UnfitChunk);
    }
    Ok(())
}

// What refuses an answer, done or failed.
#[tactic(auto, unfolding(crate::specs::Buffers::answer_refusal))]
pub fn answer_refusal(
    state: &[u64],
    registered: &[u64],
    failed: &[u64],
    total: u64,
) -> Result<(), Refusal>
    requires { total ≡ count_in state.now }
    ensures { refused_by result ≡ answer_refusal (buffers state.now registered.now failed.now) }
{
    if state.len() != REGISTRAR_WORDS || !lengths_fit(total, registered, failed) {
        return Err(Refusal::WrongLength);
    }
    if state[place::KIND] == kind::NONE {
        return Err(Refusal::NothingAsked);
    }
    Ok(())
}

// What refuses a build: the bitmaps' 4 comes last, since their length hangs on the granularity.
#[tactic(auto, using(abi::proofs::Numbers::number_not_zero), unfolding(crate::specs::Buffers::build_refusal))]
pub fn build_refusal(
    ram: &[u64],
    offset: u64,
    granularity: u64,
    state: &[u64],
    registered: &[u64],
    failed: &[u64],
) -> Result<(), Refusal>
    ensures { refused_by result ≡ build_refusal (buffers state.now registered.now failed.now) ram.now offset granularity }
{
    let unfit = layout::refusal(ram);
    if unfit == Err(Refusal::UnfitLayout)
        || offset % PAGE_SIZE != 0
        || FULL_WORD - offset < layout::last_end(ram)
    {
        return Err(Refusal::UnfitLayout);
    }
    if unfit.is_err() {
        return Err(Refusal::BadAlignment);
    }
    if state.len() != REGISTRAR_WORDS {
        return Err(Refusal::WrongLength);
    }
    if !is_power_from(PAGE_SIZE, granularity) {
        return Err(Refusal::UnfitChunk);
    }
    if !lengths_fit(chunks::chunk_count(ram, granularity), registered, failed) {
        return Err(Refusal::WrongLength);
    }
    Ok(())
}

// Whether a request finds its chunks registered, and the state as a finished call leaves it.
pub fn is_known(state: &[u64], registered: &[u64], first: u64, end: u64) -> bool
    requires { length state.now ≡ registrar_len }
    ensures { result ≡ is_known state.now registered.now first end }
{
    registrar_steps::is_idle(load(state)) && end <= chunks::first_clear(registered, first, end)
}

// Where `register` stops, from chunk `from` on, of a request that ends before chunk `until`.
pub fn register_stop(
    state: &[u64],
    registered: &[u64],
    failed: &[u64],
    total: u64,
    from: u64,
    until: u64,
) -> Stop
    requires { (length state.now ≡ registrar_len) × (total ≡ chunk_count (granularity_of state.now) (entries_in state.now)) }
    ensures { (result ≡ stop_at (chunk_state_in (buffers state.now registered.now failed.now)) from (min until total)) × (result.chunk < min until total → result.chunk * granularity_of state.now < 2 ^ 64) }
{
    registrar_steps::stop_from(
        ram_of(state),
        state[place::GRANULARITY],
        registered,
        failed,
        total,
        from,
        until,
    )
}

// What `register_all_aligned` does next, from a chunk on, of a call that has asked `count` times.
pub fn all_plan(
    state: &[u64],
    registered: &[u64],
    failed: &[u64],
    count: u64,
    alignment: u64,
    ignore: u64,
    chunk: u64,
) -> Plan
    requires { length state.now ≡ registrar_len }
    ensures { result ≡ all_from (chunk_state_in (buffers state.now registered.now failed.now)) (offset_of state.now) count alignment ignore chunk (spans (entries_in state.now)) }
{
    registrar_steps::all_from(
        ram_of(state),
        state[place::OFFSET],
        state[place::GRANULARITY],
        registered,
        failed,
        count,
        alignment,
        ignore,
        chunk,
    )
}

// The first RAM of the chunk under way after what was taken: empty where none is left.
// Kept: an empty range, and no None: the clause gives one.
pub fn rest_of(state: &[u64], total: u64) -> MemoryRange
    requires { (length state.now ≡ registrar_len) × (total ≡ chunk_count (granularity_of state.now) (entries_in state.now)) }
    ensures { result ≡ rest_of state.now }
{
    registrar_steps::rest_of(
        ram_of(state),
        state[place::GRANULARITY],
        total,
        state[place::FROM],
        state[place::END],
    )
}
