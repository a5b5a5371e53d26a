// The registrar: which chunks of guest memory the kernel has been told of. It asks one operation at a time.
#![tactic(auto)]

ghost use Rattle.std.specs.Prelude.{◌≡◌, ℕ, ◌+◌, ◌*◌, ◌%◌, ◌^◌, ◌<◌, ◌≤◌, min, List, length, if◌then◌else◌, ◌≢◌, nat_eq, nat_lt, slice_index};
ghost use Rattle.abi.specs.Kinds as kind;
ghost use Rattle.abi.specs.Refusals as refusal;
ghost use Rattle.abi.specs.RegistrarPlaces as place;
ghost use Rattle.abi.specs.Lengths.{ram_len, registrar_len};
ghost use Rattle.layout.specs.Layout.{spans};
ghost use Rattle.chunks.specs.Chunks.{chunk_count};
ghost use Rattle.registrar_steps.specs.declared.Plan.{Plan};
ghost use Rattle.registrar_steps.specs.Steps.{asked_of, piece_of, register_from, all_from};
ghost use Rattle.registrar_state.specs.Buffers.{Buffers, buffers, outcome, with_request, offset_of, granularity_of, entries_in, chunk_state_in, simple, flat_of, built_state, marked, carried_out, build_of, register_of, all_of, failed_of, done_plan, after_taken, done_of};

use abi::{kind, registrar_place as place};
use layout::MemoryRange;
use registrar_state::Reply;
use registrar_steps::Answer;

// A piece of RAM of the chunks from `from` to before `to` is asked for.
fn ask(state: &mut [u64], count: u64, from: u64, to: u64, until: u64, range: MemoryRange) -> Reply
    requires { length state.old ≡ registrar_len }
    ensures { (state.new ≡ with_request (piece_of count from to until range) state.old) × (result ≡ flat_of (asked_of (offset_of state.old) (piece_of count from to until range))) }
{
    let offset = state[place::OFFSET];
    registrar_state::save(state, registrar_steps::piece(count, from, to, until, range));
    registrar_state::asked(
        offset.wrapping_add(range.start),
        offset.wrapping_add(range.end),
    )
}

// The state block of a registrar as built.
fn build_state(state: &mut [u64], ram: &[u64], offset: u64, granularity: u64)
    requires { (length state.old ≡ registrar_len) × (length ram.now ≤ ram_len) }
    ensures { state.new ≡ built_state ram.now offset granularity }
{
    words::clear(state);
    state[place::OFFSET] = offset;
    state[place::GRANULARITY] = granularity;
    state[place::ENTRIES] = layout::entry_count(ram);
    // Kept: copy_from_slice calls memmove, and the C library is to need memset alone (docs/ABI.md).
    for i in 0..ram.len() {
        state[place::RAM + i] = ram[i];
    }
}

// A registrar of a layout, with no chunk registered and none failed, whatever the runs held. Nothing is asked for, and a
// refusal changes nothing.
#[tactic(auto, using(abi::proofs::Numbers::number_not_zero), unfolding(registrar_state::specs::Buffers::build_of, registrar_state::specs::Buffers::build_refusal))]
pub fn registrar_build(
    ram: &[u64],
    offset: u64,
    granularity: u64,
    state: &mut [u64],
    registered: &mut [u64],
    failed: &mut [u64],
) -> Reply
    ensures { outcome state.new registered.new failed.new result ≡ build_of (buffers state.old registered.old failed.old) ram.now offset granularity }
{
    let tested = registrar_state::build_refusal(
        ram,
        offset,
        granularity,
        state,
        registered,
        failed,
    );
    if let Err(refusal) = tested {
        return registrar_state::refused(refusal.number());
    }
    build_state(state, ram, offset, granularity);
    words::clear(registered);
    words::clear(failed);
    registrar_state::done(0)
}

// From chunk `from` on, of a request that ends before chunk `until`: marks and stores what follows. Gives the chunk where it
// stops.
fn register_from(
    state: &mut [u64],
    registered: &mut [u64],
    failed: &[u64],
    total: u64,
    count: u64,
    from: u64,
    until: u64,
) -> u64
    requires { (length state.old ≡ registrar_len) × (total ≡ chunk_count (granularity_of state.old) (entries_in state.old)) }
    ensures planned { (let w : Buffers = buffers state.old registered.old failed.now in let p : Plan = register_from (chunk_state_in w) (offset_of w.state) count from until in (state.new ≡ with_request p.request w.state) × (registered.new ≡ marked p.from p.to w.registered) × (result ≡ p.to)) }
    ensures bounded { result < min until total → result * granularity_of state.old < 2 ^ 64 }
{
    let at = registrar_state::register_stop(state, registered, failed, total, from, until);
    chunks::set_chunks(registered, from, at.chunk);
    let request = if registrar_steps::has_ram(at) {
        let range = MemoryRange {
            start: at.start,
            end: at.end,
        };
        registrar_steps::piece(count, at.chunk, at.chunk + 1, until, range)
    } else {
        registrar_steps::idle()
    };
    registrar_state::save(state, request);
    at.chunk
}

// What is answered then, of a request that stops at a chunk.
fn answer(state: &[u64], total: u64, count: u64, until: u64, chunk: u64) -> Reply
    requires { (length state.now ≡ registrar_len) × (chunk < min until total → chunk * granularity_of state.now < 2 ^ 64) }
    ensures { (let s : List ℕ = state.now in result ≡ (if nat_eq (slice_index s place.kind) kind.register then simple 0 1 0 ((offset_of s + slice_index s place.start) % 2 ^ 64) ((offset_of s + slice_index s place.end) % 2 ^ 64) 0 else (if nat_lt chunk (min until total) then simple refusal.registration_failed 0 count 0 0 (chunk * granularity_of s) else simple 0 0 count 0 0 0))) }
{
    if state[place::KIND] == kind::REGISTER {
        let offset = state[place::OFFSET];
        return registrar_state::asked(
            offset.wrapping_add(state[place::START]),
            offset.wrapping_add(state[place::END]),
        );
    }
    if chunk < numbers::min(until, total) {
        return registrar_state::registration_failed(chunk * state[place::GRANULARITY], count);
    }
    registrar_state::done(count)
}

// The chunks that a range touches: asks for a Register of each span of RAM in those not registered, one at a time. 4, 9 and 19
// change nothing; 23 is for a chunk that failed before, and those passed on the way to it are registered.
#[tactic(auto, using(abi::proofs::Numbers::number_not_zero), unfolding(registrar_state::specs::Buffers::register_of, registrar_state::specs::Buffers::register_refusal))]
pub fn registrar_register(
    state: &mut [u64],
    registered: &mut [u64],
    failed: &mut [u64],
    address: u64,
    len: u64,
) -> Reply
    ensures { outcome state.new registered.new failed.new result ≡ register_of (buffers state.old registered.old failed.old) address len }
{
    let granularity = registrar_state::granularity(state);
    let first = chunks::first_chunk(granularity, address);
    let end = chunks::end_chunk(granularity, address, len);
    let total = registrar_state::chunk_count(state);
    let tested = registrar_state::register_refusal(state, registered, failed, total, first, end);
    if let Err(refusal) = tested {
        return registrar_state::refused(refusal.number());
    }
    if registrar_state::is_known(state, registered, first, end) {
        return registrar_state::done(0);
    }
    let chunk = register_from(state, registered, failed, total, 0, first, end);
    answer(state, total, 0, end, chunk)
}

// Asks or answers what follows from a chunk on, of a call of `register_all_aligned`.
fn register_all_from(
    state: &mut [u64],
    registered: &mut [u64],
    failed: &[u64],
    count: u64,
    alignment: u64,
    ignore: u64,
    chunk: u64,
) -> Reply
    requires { length state.old ≡ registrar_len }
    ensures { outcome state.new registered.new failed.now result ≡ carried_out (buffers state.old registered.old failed.now) (all_from (chunk_state_in (buffers state.old registered.old failed.now)) (offset_of state.old) count alignment ignore chunk (spans (entries_in state.old))) }
{
    let plan = registrar_state::all_plan(
        state, registered, failed, count, alignment, ignore, chunk,
    );
    chunks::set_chunks(registered, plan.from, plan.to);
    registrar_state::save(state, plan.request);
    registrar_state::to_reply(plan.answer)
}

// The aligned part of each span: asks for a Register of each stretch not registered, one at a time. 4, 8, 9 and 19 change
// nothing; 22, at an unaligned span, and 23, at a chunk that failed before, leave what is registered until then.
#[tactic(auto, using(abi::proofs::Numbers::number_not_zero), unfolding(registrar_state::specs::Buffers::all_of, registrar_state::specs::Buffers::all_refusal))]
pub fn registrar_register_all_aligned(
    state: &mut [u64],
    registered: &mut [u64],
    failed: &mut [u64],
    alignment: u64,
    ignore_unaligned_ranges: u64,
) -> Reply
    ensures { outcome state.new registered.new failed.new result ≡ all_of (buffers state.old registered.old failed.old) alignment ignore_unaligned_ranges }
{
    let ignore = ignore_unaligned_ranges;
    let total = registrar_state::chunk_count(state);
    let tested = registrar_state::all_refusal(state, registered, failed, total, alignment, ignore);
    if let Err(refusal) = tested {
        return registrar_state::refused(refusal.number());
    }
    register_all_from(state, registered, failed, 0, alignment, ignore, 0)
}

// A Register of `register` is done: the chunk under way becomes registered, unless some of its RAM is left.
fn register_done(state: &mut [u64], registered: &mut [u64], failed: &[u64], total: u64) -> Reply
    requires { (length state.old ≡ registrar_len) × (total ≡ chunk_count (granularity_of state.old) (entries_in state.old)) × (slice_index state.old place.kind ≡ kind.register) }
    ensures { outcome state.new registered.new failed.now result ≡ carried_out (after_taken (buffers state.old registered.old failed.now)) (done_plan (after_taken (buffers state.old registered.old failed.now))) }
{
    let request = registrar_state::load(state);
    let rest = registrar_state::rest_of(state, total);
    if rest.start < rest.end {
        return ask(
            state,
            request.count,
            request.from,
            request.to,
            request.until,
            rest,
        );
    }
    chunks::set_chunks(registered, request.from, request.to);
    let chunk = register_from(
        state,
        registered,
        failed,
        total,
        request.count,
        request.to,
        request.until,
    );
    answer(state, total, request.count, request.until, chunk)
}

// A Register of `register_all_aligned` is done: the stretch under way becomes registered.
fn register_all_done(state: &mut [u64], registered: &mut [u64], failed: &[u64]) -> Reply
    requires { (length state.old ≡ registrar_len) × (slice_index state.old place.kind ≢ kind.register) }
    ensures { outcome state.new registered.new failed.now result ≡ carried_out (after_taken (buffers state.old registered.old failed.now)) (done_plan (after_taken (buffers state.old registered.old failed.now))) }
{
    let request = registrar_state::load(state);
    let chunk = request.to;
    chunks::set_chunks(registered, request.from, chunk);
    register_all_from(
        state,
        registered,
        failed,
        request.count,
        request.alignment,
        request.ignore,
        chunk,
    )
}

// The Register asked for is done: its chunks are registered unless RAM of theirs is left, and the next Register is asked for or
// the call ends. 4 and 21 change nothing.
#[tactic(auto, using(abi::proofs::Numbers::number_not_zero), unfolding(registrar_state::specs::Buffers::done_of, registrar_state::specs::Buffers::answer_refusal))]
pub fn registrar_answer_done(state: &mut [u64], registered: &mut [u64], failed: &mut [u64]) -> Reply
    ensures { outcome state.new registered.new failed.new result ≡ done_of (buffers state.old registered.old failed.old) }
{
    let total = registrar_state::chunk_count(state);
    if let Err(refusal) = registrar_state::answer_refusal(state, registered, failed, total) {
        return registrar_state::refused(refusal.number());
    }
    if state[place::KIND] == kind::REGISTER {
        return register_done(state, registered, failed, total);
    }
    register_all_done(state, registered, failed)
}

// The Register asked for failed: its chunks are marked as failed, and the call ends with 23. 4 and 21 change nothing.
#[tactic(auto, using(abi::proofs::Numbers::number_not_zero), unfolding(registrar_state::specs::Buffers::failed_of, registrar_state::specs::Buffers::answer_refusal))]
pub fn registrar_answer_failed(
    state: &mut [u64],
    registered: &mut [u64],
    failed: &mut [u64],
) -> Reply
    ensures { outcome state.new registered.new failed.new result ≡ failed_of (buffers state.old registered.old failed.old) }
{
    let total = registrar_state::chunk_count(state);
    if let Err(refusal) = registrar_state::answer_refusal(state, registered, failed, total) {
        return registrar_state::refused(refusal.number());
    }
    let request = registrar_state::load(state);
    chunks::set_chunks(failed, request.from, request.to);
    registrar_state::save(state, registrar_steps::idle());
    registrar_state::to_reply(Answer::RegistrationFailed {
        address: request.start,
        count: request.count,
    })
}
