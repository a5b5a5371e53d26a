// The protector's entries: build, visibility changes, answers, queries and faults. Every one takes any lengths, any numbers, any bytes and words.
// Kept, in each entry: the maps one by one, as the C interface lends them.
#![tactic(auto)]

ghost use Rattle.std.specs.Prelude.{◌≡◌};
ghost use Rattle.mapping.specs.Maps.{maps};
ghost use Rattle.call_refusals.specs.Buffers.{buffers, outcome};
ghost use Rattle.protector.specs.Calls.{build_of, visibility_of, answer_done, answer_failed};
ghost use Rattle.queries.specs.Queries.{query, query_of, fault_in, lower_in, access_in};

use abi::refusal::{self, Refusal};
use abi::{STATE_WORDS, place};
use call_refusals::Lengths;
use mapping::{PageMaps, PermissionMapsMut};
use protector_state::{Reply, Value};

// A protector of a layout: RAM private with all permissions, and empty tables, whatever the runs held. No operation is asked
// for, and a refusal changes nothing.
#[tactic(auto, using(abi::proofs::Numbers::number_not_zero, crate::proofs::Laws::build_passed), unfolding(protector::specs::Calls::build_of, protector::specs::Calls::build_taken))]
pub fn protector_build(
    ram: &[u64],
    isolation: u64,
    tracked: u64,
    release: u64,
    private: &mut [u8],
    shared: &mut [u8],
    read: &mut [u8],
    write: &mut [u8],
    kernel: &mut [u8],
    user: &mut [u8],
    state: &mut [u64],
    pages: &mut [u64],
    tables: &mut [u64],
) -> Reply
    ensures { outcome (maps private.new shared.new read.new write.new kernel.new user.new) state.new pages.new tables.new result
        ≡ build_of (buffers (maps private.old shared.old read.old write.old kernel.old user.old) state.old pages.old tables.old) ram.now isolation tracked release }
{
    let lengths = Lengths::of(private, shared, read, write, kernel, user, pages, tables);
    let len = state.len() as u64;
    if let Err(refusal) = call_refusals::build_refusal(
        ram, isolation, tracked, release, len, lengths,
    ) {
        return protector_state::refused(refusal.number());
    }
    let mut maps = PermissionMapsMut {
        read,
        write,
        kernel,
        user,
    };
    mapping::build(private, shared, &mut maps, ram);
    protector_state::build_state(state, ram, isolation, tracked, release);
    words::clear(pages);
    words::clear(tables);
    protector_state::finished(0, 0, 0, 0)
}

// The pages of a list that aren't yet as wanted become shared or private: their old marks are cleared and Wait is asked for,
// then the answers lead on. A refusal changes nothing.
#[tactic(auto, using(abi::proofs::Numbers::number_not_zero, crate::proofs::Laws::visibility_passed), unfolding(protector::specs::Calls::visibility_of, protector::specs::Calls::visibility_taken, protector::specs::Calls::carried_out))]
pub fn protector_change_host_visibility(
    private: &mut [u8],
    shared: &mut [u8],
    read: &mut [u8],
    write: &mut [u8],
    kernel: &mut [u8],
    user: &mut [u8],
    state: &mut [u64],
    pages: &mut [u64],
    tables: &[u64],
    vtl: u64,
    visibility: u64,
    list: &[u8],
) -> Reply
    ensures { outcome (maps private.new shared.new read.new write.new kernel.new user.new) state.new pages.new tables.now result
        ≡ visibility_of (buffers (maps private.old shared.old read.old write.old kernel.old user.old) state.old pages.old tables.now) vtl visibility list.now }
{
    let lengths = Lengths::of(private, shared, read, write, kernel, user, pages, tables);
    if let Err(refusal) = call_refusals::visibility_refusal(
        state, lengths, tables, vtl, visibility, list,
    ) {
        return protector_state::refused(refusal.number());
    }
    let set = protector_state::settings(state);
    let v = permissions::vtl_of(vtl);
    let share = visibility == 1;
    let looks = protector::checks_permissions(set, v, share);
    let stop = request_pages::stop_at(read, write, looks, list);
    let count = request_pages::store(pages, shared, share, list, stop);
    let stopped = stop < page_list::page_count(list);
    let mut maps = PermissionMapsMut {
        read,
        write,
        kernel,
        user,
    };
    protector::begin(
        private, shared, &mut maps, state, pages, v, share, count, stop, stopped,
    )
}

// The operation asked for is done: the call's next one is asked for, or the call ends. An answer that isn't taken changes
// nothing.
#[tactic(auto, using(abi::proofs::Numbers::number_not_zero, crate::proofs::Laws::answer_passed), unfolding(protector::specs::Calls::answer_done, protector::specs::Calls::carried_out, protector::specs::Calls::carried_change))]
pub fn protector_answer_done(
    private: &mut [u8],
    shared: &mut [u8],
    read: &mut [u8],
    write: &mut [u8],
    kernel: &mut [u8],
    user: &mut [u8],
    state: &mut [u64],
    pages: &mut [u64],
    tables: &mut [u64],
) -> Reply
    ensures { outcome (maps private.new shared.new read.new write.new kernel.new user.new) state.new pages.new tables.new result
        ≡ answer_done (buffers (maps private.old shared.old read.old write.old kernel.old user.old) state.old pages.old tables.old) }
{
    let lengths = Lengths::of(private, shared, read, write, kernel, user, pages, tables);
    if let Err(refusal) = call_refusals::answer_refusal(state, lengths, false) {
        return protector_state::refused(refusal.number());
    }
    let mut maps = PermissionMapsMut {
        read,
        write,
        kernel,
        user,
    };
    if protector_state::change::is_changing(state) {
        return change_writes::answer_done(private, &mut maps, state, pages, tables);
    }
    protector::answer_done(private, shared, &mut maps, state, pages)
}

// The operation asked for failed: the call halts, ends with 16, or goes on with the pages that Modify processed, to end with 16
// then. An answer that isn't taken changes nothing.
#[tactic(auto, using(abi::proofs::Numbers::number_not_zero, crate::proofs::Laws::answer_passed), unfolding(protector::specs::Calls::answer_failed, protector::specs::Calls::carried_out, protector::specs::Calls::carried_change))]
pub fn protector_answer_failed(
    private: &mut [u8],
    shared: &mut [u8],
    read: &mut [u8],
    write: &mut [u8],
    kernel: &mut [u8],
    user: &mut [u8],
    state: &mut [u64],
    pages: &mut [u64],
    tables: &mut [u64],
    code: u16,
    processed: u64,
) -> Reply
    ensures { outcome (maps private.new shared.new read.new write.new kernel.new user.new) state.new pages.new tables.new result
        ≡ answer_failed (buffers (maps private.old shared.old read.old write.old kernel.old user.old) state.old pages.old tables.old) code processed }
{
    let lengths = Lengths::of(private, shared, read, write, kernel, user, pages, tables);
    if let Err(refusal) = call_refusals::answer_refusal(state, lengths, true) {
        return protector_state::refused(refusal.number());
    }
    let mut maps = PermissionMapsMut {
        read,
        write,
        kernel,
        user,
    };
    if protector_state::change::is_changing(state) {
        return change_writes::answer_failed(&mut maps, state, tables);
    }
    let set = protector_state::settings(state);
    let phase = protector_state::phase(state);
    let q = protector_state::load(state);
    let s = visibility_steps::failed(set, phase, q, pages, code as u64, processed);
    protector::apply_step(private, shared, &mut maps, state, pages, set, s)
}

// A byte for each page of a list: 0 private, 1 shared. A short output is filled as far as it goes. No operation is asked for,
// and a refusal writes nothing.
#[tactic(auto, using(abi::proofs::Numbers::number_not_zero, call_refusals::proofs::Laws::is_ready), unfolding(queries::specs::Queries::query_of, queries::specs::Queries::query_refusal))]
pub fn protector_query_host_visibility(
    state: &[u64],
    shared: &[u8],
    list: &[u8],
    out: &mut [u8],
) -> Reply
    ensures { query out.new result ≡ query_of state.now shared.now list.now out.old }
{
    if let Err(refusal) = queries::query_refusal(state, shared.len() as u64, list) {
        return protector_state::refused(refusal.number());
    }
    let before = queries::ram_before(protector_state::ram_of(state), list);
    if before < page_list::page_count(list) {
        let number = Refusal::NotRam.number();
        return protector_state::finished(number, permissions::hv_error(number), before, 0);
    }
    queries::fill(out, shared, list);
    protector_state::finished(0, 0, 0, 0)
}

// What a fault at an address gives: Retry, or what is in its way. It is answered while a call is under way or halted too, asks
// for no operation and writes nothing.
#[tactic(auto, unfolding(queries::specs::Queries::fault_in))]
pub fn protector_page_fault(
    private: &[u8],
    shared: &[u8],
    read: &[u8],
    write: &[u8],
    kernel: &[u8],
    user: &[u8],
    state: &[u64],
    mapping: u64,
    view: u64,
    address: u64,
    writes: u64,
    failure: u64,
) -> Value
    ensures { result ≡ fault_in state.now (maps private.now shared.now read.now write.now kernel.now user.now) mapping view address writes failure }
{
    if state.len() != STATE_WORDS {
        return queries::fault_value(Err(Refusal::WrongLength.number()));
    }
    let tracked = state[place::TRACKED] == 1;
    let ram = protector_state::ram_of(state);
    let maps = PageMaps::of(private, shared, read, write, kernel, user);
    let answer = fault::page_fault(maps, ram, tracked, mapping, view, address, writes, failure);
    queries::fault_value(refusal::numbered(answer))
}

// The flags that a VTL has for a page. It is answered while a call is under way or halted too, asks for no operation and writes
// nothing.
#[tactic(auto, unfolding(queries::specs::Queries::lower_in))]
pub fn protector_query_lower_vtl_permissions(
    private: &[u8],
    shared: &[u8],
    read: &[u8],
    write: &[u8],
    kernel: &[u8],
    user: &[u8],
    state: &[u64],
    vtl: u64,
    gpn: u64,
) -> Value
    ensures { result ≡ lower_in state.now (maps private.now shared.now read.now write.now kernel.now user.now) vtl gpn }
{
    if state.len() != STATE_WORDS {
        return queries::permissions_value(Err(Refusal::WrongLength.number()));
    }
    let tracked = state[place::TRACKED] == 1;
    let ram = protector_state::ram_of(state);
    let maps = PageMaps::of(private, shared, read, write, kernel, user);
    let answer = access::query_lower_vtl_permissions(maps, ram, tracked, vtl, gpn);
    queries::permissions_value(refusal::numbered(answer))
}

// The flags that the permission maps have for a page: 24 where there are no such maps. It is answered while a call is under way
// or halted too, asks for no operation and writes nothing.
#[tactic(auto, unfolding(queries::specs::Queries::access_in))]
pub fn protector_query_access_permission(
    private: &[u8],
    shared: &[u8],
    read: &[u8],
    write: &[u8],
    kernel: &[u8],
    user: &[u8],
    state: &[u64],
    gpn: u64,
) -> Value
    ensures { result ≡ access_in state.now (maps private.now shared.now read.now write.now kernel.now user.now) gpn }
{
    if state.len() != STATE_WORDS {
        return queries::permissions_value(Err(Refusal::WrongLength.number()));
    }
    let tracked = state[place::TRACKED] == 1;
    let ram = protector_state::ram_of(state);
    let maps = PageMaps::of(private, shared, read, write, kernel, user);
    let answer = access::query_access_permission(maps, ram, tracked, gpn);
    queries::permissions_value(refusal::numbered(answer))
}
