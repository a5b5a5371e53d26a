// The entries that change the protections of pages, and the default of a VTL.
// Kept, in each entry: the maps one by one, as the C interface lends them.
#![tactic(auto)]

ghost use Rattle.std.specs.Prelude.{◌≡◌, ◌+◌, ◌<◌, ◌≤◌, ◌^◌, length};
ghost use Rattle.abi.specs.Flags.{flags_end};
ghost use Rattle.abi.specs.Refusals.{refused_by};
ghost use Rattle.permissions.specs.Flags.{flags_of};
ghost use Rattle.page_list.specs.Pages.{pages_of};
ghost use Rattle.mapping.specs.Maps.{maps, perms_lent, same_maps};
ghost use Rattle.protector_state.specs.State.{state_len, settings_of};
ghost use Rattle.protector_state.specs.Reply.{flat_of};
ghost use Rattle.protector_state.specs.Changing.{with_change};
ghost use Rattle.call_refusals.specs.Buffers.{buffers, outcome, tables_len, fits_in};
ghost use Rattle.protector.specs.Writes.{permitted_run};
ghost use Rattle.protection_entries.specs.Calls.{default_refusal, stored_default, barred, renewed_tables, first_piece, default_step, default_of, any_shared, pages_refusal, protection_refusal, protection_step, protection_of};

use abi::refusal::Refusal;
use abi::{place, table};
use call_refusals::Lengths;
use change_steps::ChangeStep;
use mapping::PermissionMapsMut;
use page_list::PageRun;
use permissions::{GuestVtl, HvMapGpaFlags};
use protector_state::Reply;

// What refuses a default change.
#[tactic(auto, using(abi::proofs::Numbers::number_not_zero, call_refusals::proofs::Laws::is_ready, call_refusals::proofs::Laws::lent_refuses), unfolding(crate::specs::Calls::default_refusal, call_refusals::specs::Refusals::ready))]
fn default_refusal(state: &[u64], lengths: Lengths, vtl: u64, flags: u64) -> Result<(), Refusal>
    ensures { refused_by result ≡ default_refusal state.now (fits_in state.now lengths) vtl flags }
{
    call_refusals::lent_refusal(state, lengths)?;
    if !permissions::is_vtl(vtl) {
        return Err(Refusal::UnfitNumber);
    }
    if !permissions::is_flags(flags) {
        return Err(Refusal::UnfitNumber);
    }
    Ok(())
}

// The default of a VTL: the word of the other's stays as it is.
#[tactic(auto, using(protector_state::proofs::Laws::word_set))]
fn store_default(state: &mut [u64], vtl: GuestVtl, flags: u64)
    requires { (length state.old ≡ state_len) × (flags < flags_end) }
    ensures { state.new ≡ stored_default state.old vtl flags }
{
    let defaults = protector_state::defaults(state);
    let set = permissions::set_default(defaults, vtl, HvMapGpaFlags::from_bits(flags));
    let word = protector_state::default_word(set, vtl);
    let i = place::DEFAULT0 as u64 + permissions::vtl_number(vtl);
    state[i as usize] = word;
}

// Whether a locked page of a VTL bars a change of its default.
fn has_locked_page(private: &[u8], state: &[u64], tables: &[u64], vtl: GuestVtl) -> bool
    requires { (length state.now ≡ state_len) × (length tables.now ≡ tables_len) }
    ensures { result ≡ barred private.now state.now tables.now vtl }
{
    default_change::has_locked_page(
        private,
        call_refusals::overlays_of(tables, vtl),
        call_refusals::locks_of(tables, vtl),
        protector_state::ram_of(state),
    )
}

// The previous permissions of a VTL's overlays on private RAM pages.
fn update_previous_permissions(
    tables: &mut [u64],
    private: &[u8],
    state: &[u64],
    vtl: GuestVtl,
    flags: u64,
)
    requires { (length state.now ≡ state_len) × (length tables.old ≡ tables_len) }
    ensures { tables.new ≡ renewed_tables private.now state.now tables.old vtl flags }
{
    let ram = protector_state::ram_of(state);
    let start = call_refusals::overlays_start(vtl);
    let overlays = &mut tables[start..start + table::OVERLAYS_WORDS];
    default_change::update_previous_permissions(overlays, private, ram, flags);
}

fn first_piece(private: &[u8], state: &[u64], tables: &[u64], vtl: GuestVtl) -> PageRun
    requires { (length state.now ≡ state_len) × (length tables.now ≡ tables_len) }
    ensures value { result ≡ first_piece private.now state.now tables.now vtl }
    ensures count_bound { result.first + result.count < 2 ^ 64 }
{
    default_change::next_piece(
        private,
        call_refusals::overlays_of(tables, vtl),
        protector_state::ram_of(state),
        0,
    )
}

// The first step of a default change.
fn default_step(
    private: &[u8],
    state: &[u64],
    tables: &[u64],
    vtl: GuestVtl,
    flags: u64,
) -> ChangeStep
    requires { (length state.now ≡ state_len) × (length tables.now ≡ tables_len) }
    ensures value { result ≡ default_step private.now state.now tables.now vtl flags }
    ensures count_bound { result.written.first + result.written.count ≤ 2 ^ 64 }
{
    let piece = first_piece(private, state, tables, vtl);
    change_steps::start_ram(protector_state::is_tracked(state), vtl, flags, piece)
}

// A step that enters no overlay carried out.
fn apply_step(maps: &mut PermissionMapsMut<'_>, state: &mut [u64], step: ChangeStep) -> Reply
    requires { (length state.old ≡ state_len) × (step.written.first + step.written.count ≤ 2 ^ 64) }
    ensures same { same_maps maps.old maps.new }
    ensures permissions_after { perms_lent maps.new ≡ permitted_run step.written (flags_of step.change.flags) (perms_lent maps.old) }
    ensures state_after { state.new ≡ with_change step.stage step.change state.old }
    ensures value { result ≡ flat_of (settings_of state.old).isolation step.answer }
{
    let isolation = protector_state::isolation(state);
    change_writes::write_step(maps, state, isolation, step)
}

// A VTL has another default, to which its overlays on private RAM will return: asks for a Protect of each run of private RAM
// between them, then for Wait, Flush and TlbWait. 10 refuses it with the default stored; every other refusal changes nothing.
#[tactic(auto, using(crate::proofs::Laws::default_passed, crate::proofs::Laws::stored_length, call_refusals::proofs::Laws::tables_fit))]
pub fn protector_change_default_vtl_protections(
    private: &[u8],
    shared: &[u8],
    read: &mut [u8],
    write: &mut [u8],
    kernel: &mut [u8],
    user: &mut [u8],
    state: &mut [u64],
    pages: &[u64],
    tables: &mut [u64],
    vtl: u64,
    flags: u64,
) -> Reply
    ensures { outcome (maps private.now shared.now read.new write.new kernel.new user.new) state.new pages.now tables.new result
        ≡ default_of (buffers (maps private.now shared.now read.old write.old kernel.old user.old) state.old pages.now tables.old) vtl flags }
{
    let lengths = Lengths::of(private, shared, read, write, kernel, user, pages, tables);
    if let Err(refusal) = default_refusal(state, lengths, vtl, flags) {
        return protector_state::refused(refusal.number());
    }
    let v = permissions::vtl_of(vtl);
    store_default(state, v, flags);
    if has_locked_page(private, state, tables, v) {
        return protector_state::refused(Refusal::Locked.number());
    }
    update_previous_permissions(tables, private, state, v, flags);
    let step = default_step(private, state, tables, v, flags);
    let mut maps = PermissionMapsMut {
        read,
        write,
        kernel,
        user,
    };
    apply_step(&mut maps, state, step)
}

// Whether a page of a list is shared.
fn is_any_shared(shared: &[u8], list: &[u8]) -> bool
    ensures { result ≡ any_shared shared.now (pages_of list.now) }
{
    for i in 0..page_list::page_count(list) {
        if bitmap::page_state(shared, page_list::page_at(list, i)) {
            return true;
        }
    }
    false
}

// What refuses the pages of a protection change.
#[tactic(auto, using(abi::proofs::Numbers::number_not_zero))]
fn pages_refusal(
    state: &[u64],
    shared: &[u8],
    tables: &[u64],
    vtl: GuestVtl,
    list: &[u8],
) -> Result<(), Refusal>
    requires { (length state.now ≡ state_len) × (length tables.now ≡ tables_len) }
    ensures { refused_by result ≡ pages_refusal state.now shared.now tables.now vtl list.now }
{
    call_refusals::listed_refusal(state, tables, vtl, true, list)?;
    if is_any_shared(shared, list) {
        return Err(Refusal::Shared);
    }
    Ok(())
}

// What refuses a protection change.
#[tactic(auto, using(abi::proofs::Numbers::number_not_zero, call_refusals::proofs::Laws::is_ready, call_refusals::proofs::Laws::lent_refuses, call_refusals::proofs::Laws::tables_fit), unfolding(crate::specs::Calls::protection_refusal, call_refusals::specs::Refusals::ready))]
fn protection_refusal(
    state: &[u64],
    lengths: Lengths,
    shared: &[u8],
    tables: &[u64],
    vtl: u64,
    flags: u64,
    list: &[u8],
) -> Result<(), Refusal>
    requires { lengths.tables ≡ length tables.now }
    ensures { refused_by result ≡ protection_refusal state.now (fits_in state.now lengths) shared.now tables.now vtl flags list.now }
{
    call_refusals::lent_refusal(state, lengths)?;
    if page_list::is_long(list) {
        return Err(Refusal::LongList);
    }
    if !permissions::is_vtl(vtl) {
        return Err(Refusal::UnfitNumber);
    }
    if !permissions::is_flags(flags) {
        return Err(Refusal::UnfitNumber);
    }
    if page_list::is_ragged(list) {
        return Err(Refusal::UnfitNumber);
    }
    let v = permissions::vtl_of(vtl);
    pages_refusal(state, shared, tables, v, list)
}

// The first step of a protection change of the first n pages of a table.
fn protection_step(state: &[u64], pages: &[u64], vtl: GuestVtl, flags: u64, n: u64) -> ChangeStep
    requires { length state.now ≡ state_len }
    ensures value { result ≡ protection_step state.now pages.now vtl flags n }
    ensures count_bound { result.written.first + result.written.count ≤ 2 ^ 64 }
{
    change_steps::start_pages(protector_state::is_tracked(state), vtl, flags, n, pages)
}

// A VTL has other flags for the pages of a list: asks for a Protect of each run in it, then for Wait, Flush and TlbWait. A
// refusal changes nothing.
#[tactic(auto, using(crate::proofs::Laws::listed_passed, call_refusals::proofs::Laws::pages_fit))]
pub fn protector_change_vtl_protections(
    private: &[u8],
    shared: &[u8],
    read: &mut [u8],
    write: &mut [u8],
    kernel: &mut [u8],
    user: &mut [u8],
    state: &mut [u64],
    pages: &mut [u64],
    tables: &[u64],
    vtl: u64,
    flags: u64,
    list: &[u8],
) -> Reply
    ensures { outcome (maps private.now shared.now read.new write.new kernel.new user.new) state.new pages.new tables.now result
        ≡ protection_of (buffers (maps private.now shared.now read.old write.old kernel.old user.old) state.old pages.old tables.now) vtl flags list.now }
{
    let lengths = Lengths::of(private, shared, read, write, kernel, user, pages, tables);
    if let Err(refusal) = protection_refusal(state, lengths, shared, tables, vtl, flags, list) {
        return protector_state::refused(refusal.number());
    }
    let v = permissions::vtl_of(vtl);
    let count = page_list::page_count(list);
    request_pages::store_all(pages, list);
    let step = protection_step(state, pages, v, flags, count);
    let mut maps = PermissionMapsMut {
        read,
        write,
        kernel,
        user,
    };
    apply_step(&mut maps, state, step)
}
