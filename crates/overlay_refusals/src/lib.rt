// The tests of the calls on overlay pages, and the flags that a page has.
#![tactic(auto)]

ghost use Rattle.std.specs.Prelude.{◌≡◌, eqb, length, IfOk};
ghost use Rattle.abi.specs.Refusals.{refused_by};
ghost use Rattle.layout.specs.Layout.{entries_of};
ghost use Rattle.mapping.specs.Maps.{perms_in};
ghost use Rattle.permissions.specs.Flags.{vtl_of};
ghost use Rattle.overlay_table.specs.Overlays.{IsPlace, place_of, add_code};
ghost use Rattle.protector_state.specs.State.{state_len, entries_in};
ghost use Rattle.call_refusals.specs.Buffers.{tables_len, overlays_of, locks_of, fits_in};
ghost use Rattle.overlay_refusals.specs.Refusals.{call_refusal, unregister_refusal, flags_refusal, holds, within, needed_of, known_refusal, guest_refusal, dma_refusal, page_refusal, register_refusal, current_of};

use abi::refusal::Refusal;
use abi::{NO_FLAGS, TABLES_WORDS, limit, place};
use call_refusals::Lengths;
use mapping::PermissionMaps;
use overlay_table::OverlayPage;
use permissions::{GuestVtl, HvMapGpaFlags};

// What refuses a call that is lent the tables alone.
#[tactic(auto, using(abi::proofs::Numbers::number_not_zero, call_refusals::proofs::Laws::is_ready), unfolding(crate::specs::Refusals::call_refusal, call_refusals::specs::Refusals::ready))]
pub fn table_refusal(state: &[u64], tables: u64, vtl: u64) -> Result<(), Refusal>
    ensures { refused_by result ≡ call_refusal state.now (eqb tables tables_len) vtl 0 }
{
    call_refusals::state_refusal(state)?;
    if tables != TABLES_WORDS {
        return Err(Refusal::WrongLength);
    }
    if !permissions::is_vtl(vtl) {
        return Err(Refusal::UnfitNumber);
    }
    Ok(())
}

// What refuses a call that is lent all.
#[tactic(auto, using(abi::proofs::Numbers::number_not_zero, call_refusals::proofs::Laws::is_ready), unfolding(crate::specs::Refusals::call_refusal, call_refusals::specs::Refusals::ready))]
fn call_refusal(state: &[u64], lengths: Lengths, vtl: u64) -> Result<(), Refusal>
    ensures { refused_by result ≡ call_refusal state.now (fits_in state.now lengths) vtl 0 }
{
    call_refusals::lent_refusal(state, lengths)?;
    if !permissions::is_vtl(vtl) {
        return Err(Refusal::UnfitNumber);
    }
    Ok(())
}

// The tests of an unregister: where the page's entry stands.
#[tactic(auto, using(call_refusals::proofs::Laws::is_ready), unfolding(crate::specs::Refusals::call_refusal, call_refusals::specs::Refusals::ready))]
pub fn look_unregister(
    state: &[u64],
    lengths: Lengths,
    tables: &[u64],
    vtl: u64,
    gpn: u64,
) -> Result<u64, Refusal>
    requires { lengths.tables ≡ length tables.now }
    ensures refusal_value { refused_by result ≡ unregister_refusal state.now (fits_in state.now lengths) tables.now vtl gpn }
    ensures place_value { IfOk result (λ place. place ≡ place_of (overlays_of tables.now (vtl_of vtl)) gpn) }
{
    call_refusal(state, lengths, vtl)?;
    let v = permissions::vtl_of(vtl);
    let overlays = call_refusals::overlays_of(tables, v);
    overlay_table::find_entry(overlays, gpn).ok_or(Refusal::NoOverlay)
}

fn flags_refusal(source: u64, checked: u64, new: u64) -> Result<(), Refusal>
    ensures { refused_by result ≡ flags_refusal source checked new 0 }
{
    if 1 < source {
        return Err(Refusal::UnfitNumber);
    }
    if !permissions::is_flags(checked) {
        return Err(Refusal::UnfitNumber);
    }
    if NO_FLAGS < new {
        return Err(Refusal::UnfitNumber);
    }
    Ok(())
}

fn holds(own: bool, needed: bool) -> bool
    ensures { result ≡ holds own needed }
{
    own || !needed
}

// Whether each flag that is needed is among a page's own.
#[tactic(auto, unfolding(crate::specs::Refusals::within))]
fn is_within(own: HvMapGpaFlags, needed: HvMapGpaFlags) -> bool
    ensures { result ≡ within own needed }
{
    holds(own.readable, needed.readable)
        && holds(own.writable, needed.writable)
        && holds(own.kernel_executable, needed.kernel_executable)
        && holds(own.user_executable, needed.user_executable)
}

fn needed_of(checked: u64, new: u64) -> u64
    ensures { result ≡ needed_of checked new }
{
    if new < NO_FLAGS { new } else { checked }
}

#[tactic(auto, unfolding(crate::specs::Refusals::known_refusal))]
fn known_refusal(e: OverlayPage, checked: u64, new: u64) -> Result<(), Refusal>
    ensures { refused_by result ≡ known_refusal e checked new }
{
    let own = HvMapGpaFlags::from_bits(e.overlay_permissions);
    let needed = HvMapGpaFlags::from_bits(needed_of(checked, new));
    if !is_within(own, needed) {
        return Err(Refusal::Narrow);
    }
    if e.ref_count >= limit::REF_COUNT {
        return Err(Refusal::Full);
    }
    Ok(())
}

// What refuses one entry more.
fn add_code(overlays: &[u64]) -> Result<(), Refusal>
    ensures { refused_by result ≡ add_code overlays.now }
{
    if overlay_table::entry_count(overlays) >= limit::OVERLAYS {
        return Err(Refusal::Full);
    }
    Ok(())
}

#[tactic(auto, unfolding(crate::specs::Refusals::guest_refusal))]
fn guest_refusal(
    ram: &[u64],
    shared: &[u8],
    overlays: &[u64],
    locks: &[u64],
    gpn: u64,
    current: HvMapGpaFlags,
    checked: u64,
) -> Result<(), Refusal>
    requires { place_of overlays.now gpn ≡ 0 }
    ensures { refused_by result ≡ guest_refusal (entries_of ram.now) shared.now overlays.now locks.now gpn current checked }
{
    if !layout::is_in_guest_memory(ram, gpn) {
        return Err(Refusal::NotRam);
    }
    if !is_within(current, HvMapGpaFlags::from_bits(checked)) {
        return Err(Refusal::Narrow);
    }
    if bitmap::page_state(shared, gpn) {
        return Err(Refusal::Shared);
    }
    if lock_table::holds(locks, gpn) {
        return Err(Refusal::Locked);
    }
    add_code(overlays)
}

#[tactic(auto, unfolding(crate::specs::Refusals::dma_refusal))]
fn dma_refusal(ram: &[u64], overlays: &[u64], locks: &[u64], gpn: u64) -> Result<(), Refusal>
    requires { place_of overlays.now gpn ≡ 0 }
    ensures { refused_by result ≡ dma_refusal (entries_of ram.now) overlays.now locks.now gpn }
{
    if layout::is_in_guest_memory(ram, gpn) {
        return Err(Refusal::NotRam);
    }
    if lock_table::holds(locks, gpn) {
        return Err(Refusal::Locked);
    }
    add_code(overlays)
}

#[tactic(auto, unfolding(crate::specs::Refusals::page_refusal))]
fn page_refusal(
    ram: &[u64],
    shared: &[u8],
    overlays: &[u64],
    locks: &[u64],
    gpn: u64,
    source: u64,
    current: HvMapGpaFlags,
    checked: u64,
    new: u64,
    place: Option<u64>,
) -> Result<(), Refusal>
    requires { IsPlace overlays.now gpn place }
    ensures { refused_by result ≡ page_refusal (entries_of ram.now) shared.now overlays.now locks.now gpn source current checked new }
{
    if let Some(at) = place {
        return known_refusal(overlay_table::entry_at(overlays, at), checked, new);
    }
    if source == 1 {
        return dma_refusal(ram, overlays, locks, gpn);
    }
    guest_refusal(ram, shared, overlays, locks, gpn, current, checked)
}

// The same by the layout of the state and the tables of a VTL.
fn page_refusal_in(
    state: &[u64],
    shared: &[u8],
    tables: &[u64],
    vtl: GuestVtl,
    gpn: u64,
    source: u64,
    current: HvMapGpaFlags,
    checked: u64,
    new: u64,
    place: Option<u64>,
) -> Result<(), Refusal>
    requires { (length state.now ≡ state_len) × (length tables.now ≡ tables_len) × IsPlace (overlays_of tables.now vtl) gpn place }
    ensures { refused_by result ≡ page_refusal (entries_in state.now) shared.now (overlays_of tables.now vtl) (locks_of tables.now vtl) gpn source current checked new }
{
    let ram = protector_state::ram_of(state);
    let overlays = call_refusals::overlays_of(tables, vtl);
    let locks = call_refusals::locks_of(tables, vtl);
    page_refusal(
        ram, shared, overlays, locks, gpn, source, current, checked, new, place,
    )
}

// The tests of a register: where the page's entry stands, if it has one. The place is found once, after the tests that don't ask for it.
#[tactic(auto, using(call_refusals::proofs::Laws::is_ready), unfolding(crate::specs::Refusals::register_refusal, crate::specs::Refusals::call_refusal, call_refusals::specs::Refusals::ready))]
pub fn look_register(
    state: &[u64],
    lengths: Lengths,
    shared: &[u8],
    tables: &[u64],
    current: HvMapGpaFlags,
    vtl: u64,
    gpn: u64,
    source: u64,
    checked: u64,
    new: u64,
) -> Result<Option<u64>, Refusal>
    requires { lengths.tables ≡ length tables.now }
    ensures refusal_value { refused_by result ≡ register_refusal state.now (fits_in state.now lengths) shared.now tables.now current vtl gpn source checked new }
    ensures place_value { IfOk result (λ place. IsPlace (overlays_of tables.now (vtl_of vtl)) gpn place) }
{
    call_refusal(state, lengths, vtl)?;
    flags_refusal(source, checked, new)?;
    let v = permissions::vtl_of(vtl);
    let place = overlay_table::find_entry(call_refusals::overlays_of(tables, v), gpn);
    page_refusal_in(
        state, shared, tables, v, gpn, source, current, checked, new, place,
    )?;
    Ok(place)
}

// The flags that a page has: a Dma page none.
#[tactic(auto, unfolding(crate::specs::Refusals::current_of))]
pub fn current_flags(
    maps: PermissionMaps<'_>,
    state: &[u64],
    vtl: GuestVtl,
    gpn: u64,
    source: u64,
) -> HvMapGpaFlags
    ensures { result ≡ current_of state.now (perms_in maps.entry) vtl gpn source }
{
    if source == 1 {
        return HvMapGpaFlags::none();
    }
    let tracked = numbers::word_at(state, place::TRACKED as u64) == 1;
    access::lower_flags(maps, tracked, vtl, gpn)
}
