// What refuses a call of the protector: the lengths of what is lent, what is under way, the pages of a list; what refuses an answer and a build.
#![tactic(auto)]

ghost use Rattle.std.specs.Prelude.{◌≡◌, ◌+◌, ◌*◌, true, [], length};
ghost use Rattle.abi.specs.Lengths.{overlays_len, locks_len, locks_start};
ghost use Rattle.permissions.specs.Flags.{vtl_number};
ghost use Rattle.mapping.specs.Maps.{maps};
ghost use Rattle.abi.specs.Refusals.{refused_by};
ghost use Rattle.layout.specs.Layout.{entries_of, map_len};
ghost use Rattle.page_list.specs.Pages.{pages_of};
ghost use Rattle.protector_state.specs.State.{state_len, entries_in};
ghost use Rattle.call_refusals.specs.Buffers.{buffers, lengths_in, tables_len, overlays_of, locks_of, is_locked, lengths_fit, fits_in, status_of, status_in, takes, takes_at, takes_in};
ghost use Rattle.call_refusals.specs.Refusals.{ready, tested_of, build_fits, build_refusal, page_refusal, first_refusal, visibility_refusal, answer_refusal};

use abi::refusal::Refusal;
use abi::{PAGES_WORDS, STATE_WORDS, TABLES_WORDS, table};
use change_steps::Stage;
use mapping::{MapLengths, PageMaps};
use permissions::GuestVtl;
use visibility_steps::Phase;

// The lengths of what is lent beside the state block.
#[derive(Clone, Copy)]
pub struct Lengths {
    pub maps: MapLengths,
    pub pages: u64,
    pub tables: u64,
}

impl Lengths {
    // The lengths of what is lent to a call.
    pub fn of(
        private: &[u8],
        shared: &[u8],
        read: &[u8],
        write: &[u8],
        kernel: &[u8],
        user: &[u8],
        pages: &[u64],
        tables: &[u64],
    ) -> Self
        ensures { result ≡ lengths_in (buffers (maps private.now shared.now read.now write.now kernel.now user.now) [] pages.now tables.now) }
    {
        Self {
            maps: MapLengths::of(PageMaps::of(private, shared, read, write, kernel, user)),
            pages: pages.len() as u64,
            tables: tables.len() as u64,
        }
    }
}

// Whether what is lent fits a layout whose maps have `len` bytes.
fn lengths_fit(len: u64, tracked: bool, lengths: Lengths) -> bool
    ensures { result ≡ lengths_fit len tracked lengths }
{
    mapping::maps_fit(len, tracked, lengths.maps)
        && lengths.pages == PAGES_WORDS
        && lengths.tables == TABLES_WORDS
}

// The same by the state block.
fn fits_in(state: &[u64], lengths: Lengths) -> bool
    requires { length state.now ≡ state_len }
    ensures { result ≡ fits_in state.now lengths }
{
    let len = layout::map_len(protector_state::ram_of(state));
    lengths_fit(len, protector_state::is_tracked(state), lengths)
}

fn phase_status(phase: Phase) -> Result<(), Refusal>
    ensures { refused_by result ≡ status_of phase }
{
    match phase {
        Phase::Idle => Ok(()),
        Phase::Halted => Err(Refusal::Halted),
        _ => Err(Refusal::Busy),
    }
}

// Whether the state is halted, or an operation is outstanding.
fn status(state: &[u64]) -> Result<(), Refusal>
    requires { length state.now ≡ state_len }
    ensures { refused_by result ≡ status_in state.now }
{
    if protector_state::change::is_changing(state) {
        return Err(Refusal::Busy);
    }
    phase_status(protector_state::phase(state))
}

// What every call but an answer tests first: the length of the state block, then its status.
#[tactic(auto, using(abi::proofs::Numbers::number_not_zero), unfolding(crate::specs::Refusals::ready))]
pub fn state_refusal(state: &[u64]) -> Result<(), Refusal>
    ensures { refused_by result ≡ ready state.now true 0 }
{
    if state.len() != STATE_WORDS {
        return Err(Refusal::WrongLength);
    }
    status(state)
}

// The same, then the lengths of what else is lent, of a call that is lent all.
#[tactic(auto, using(abi::proofs::Numbers::number_not_zero), unfolding(crate::specs::Refusals::ready))]
pub fn lent_refusal(state: &[u64], lengths: Lengths) -> Result<(), Refusal>
    ensures { refused_by result ≡ ready state.now (fits_in state.now lengths) 0 }
{
    state_refusal(state)?;
    if !fits_in(state, lengths) {
        return Err(Refusal::WrongLength);
    }
    Ok(())
}

// Where the overlays of a VTL begin in the tables, and its locked lists.
pub fn overlays_start(vtl: GuestVtl) -> usize
    ensures { result ≡ overlays_len * vtl_number vtl }
{
    match vtl {
        GuestVtl::Vtl0 => table::OVERLAYS0,
        GuestVtl::Vtl1 => table::OVERLAYS1,
    }
}

pub fn locks_start(vtl: GuestVtl) -> usize
    ensures { result ≡ locks_start + locks_len * vtl_number vtl }
{
    match vtl {
        GuestVtl::Vtl0 => table::LOCKS0,
        GuestVtl::Vtl1 => table::LOCKS1,
    }
}

// The tables of one VTL.
pub fn overlays_of(tables: &[u64], vtl: GuestVtl) -> &[u64]
    requires { length tables.now ≡ tables_len }
    ensures { result.now ≡ overlays_of tables.now vtl }
{
    let start = overlays_start(vtl);
    &tables[start..start + table::OVERLAYS_WORDS]
}

pub fn locks_of(tables: &[u64], vtl: GuestVtl) -> &[u64]
    requires { length tables.now ≡ tables_len }
    ensures { result.now ≡ locks_of tables.now vtl }
{
    let start = locks_start(vtl);
    &tables[start..start + table::LOCKS_WORDS]
}

fn is_locked(overlays: &[u64], locks: &[u64], gpn: u64) -> bool
    ensures { result ≡ is_locked overlays.now locks.now gpn }
{
    lock_table::holds(locks, gpn) && !overlay_table::is_overlay(overlays, gpn)
}

fn page_refusal(
    ram: &[u64],
    overlays: &[u64],
    locks: &[u64],
    share: bool,
    gpn: u64,
) -> Result<(), Refusal>
    ensures { refused_by result ≡ page_refusal (entries_of ram.now) overlays.now locks.now share gpn }
{
    if !layout::is_in_guest_memory(ram, gpn) {
        return Err(Refusal::NotRam);
    }
    if is_locked(overlays, locks, gpn) {
        return Err(Refusal::Locked);
    }
    if share && overlay_table::is_overlay(overlays, gpn) {
        return Err(Refusal::Overlay);
    }
    Ok(())
}

// What refuses the first page of a list that is refused.
fn pages_refusal(
    ram: &[u64],
    overlays: &[u64],
    locks: &[u64],
    share: bool,
    list: &[u8],
) -> Result<(), Refusal>
    ensures { refused_by result ≡ first_refusal (page_refusal (entries_of ram.now) overlays.now locks.now share) (pages_of list.now) }
{
    for i in 0..page_list::page_count(list) {
        page_refusal(ram, overlays, locks, share, page_list::page_at(list, i))?;
    }
    Ok(())
}

// The same, by the layout of the state and the tables of a VTL.
pub fn listed_refusal(
    state: &[u64],
    tables: &[u64],
    vtl: GuestVtl,
    share: bool,
    list: &[u8],
) -> Result<(), Refusal>
    requires { (length state.now ≡ state_len) × (length tables.now ≡ tables_len) }
    ensures { refused_by result ≡ first_refusal (page_refusal (entries_in state.now) (overlays_of tables.now vtl) (locks_of tables.now vtl) share) (pages_of list.now) }
{
    let ram = protector_state::ram_of(state);
    pages_refusal(
        ram,
        overlays_of(tables, vtl),
        locks_of(tables, vtl),
        share,
        list,
    )
}

// What refuses a visibility change.
#[tactic(auto, using(abi::proofs::Numbers::number_not_zero), unfolding(crate::specs::Refusals::visibility_refusal, crate::specs::Refusals::ready))]
pub fn visibility_refusal(
    state: &[u64],
    lengths: Lengths,
    tables: &[u64],
    vtl: u64,
    visibility: u64,
    list: &[u8],
) -> Result<(), Refusal>
    requires { lengths.tables ≡ length tables.now }
    ensures { refused_by result ≡ visibility_refusal state.now (fits_in state.now lengths) tables.now vtl visibility list.now }
{
    lent_refusal(state, lengths)?;
    if page_list::is_long(list) {
        return Err(Refusal::LongList);
    }
    if page_list::has_repeat(list) {
        return Err(Refusal::RepeatedPage);
    }
    if !permissions::is_vtl(vtl) {
        return Err(Refusal::UnfitNumber);
    }
    if 1 < visibility {
        return Err(Refusal::UnfitNumber);
    }
    if page_list::is_ragged(list) {
        return Err(Refusal::UnfitNumber);
    }
    // One test more before the walk: so far down it is compiled as a function of its own, with the registers that it needs.
    if page_list::page_count(list) == 0 {
        return Ok(());
    }
    let v = permissions::vtl_of(vtl);
    listed_refusal(state, tables, v, visibility == 1, list)
}

// Whether an answer, done or failed, is one to the operation of a phase.
fn takes(phase: Phase, failed: bool) -> bool
    ensures { result ≡ takes phase failed }
{
    match phase {
        Phase::Idle | Phase::Halted => false,
        Phase::Wait | Phase::FlushAll => !failed,
        _ => true,
    }
}

fn takes_at(stage: Stage, failed: bool) -> bool
    ensures { result ≡ takes_at stage failed }
{
    match stage {
        Stage::Idle | Stage::Halted => false,
        Stage::Wait | Stage::Flush | Stage::TlbWait => !failed,
        _ => true,
    }
}

// Whether an answer is one to the operation outstanding: done wherever one is, a failure where it can fail.
fn takes_in(state: &[u64], failed: bool) -> bool
    requires { length state.now ≡ state_len }
    ensures { result ≡ takes_in state.now failed }
{
    if protector_state::change::is_changing(state) {
        return takes_at(protector_state::change::stage(state), failed);
    }
    takes(protector_state::phase(state), failed)
}

// What refuses an answer.
#[tactic(auto, using(abi::proofs::Numbers::number_not_zero), unfolding(crate::specs::Refusals::answer_refusal))]
pub fn answer_refusal(state: &[u64], lengths: Lengths, failed: bool) -> Result<(), Refusal>
    ensures { refused_by result ≡ answer_refusal state.now (fits_in state.now lengths) failed }
{
    if state.len() != STATE_WORDS {
        return Err(Refusal::WrongLength);
    }
    if status(state) == Err(Refusal::Halted) {
        return Err(Refusal::Halted);
    }
    if !fits_in(state, lengths) {
        return Err(Refusal::WrongLength);
    }
    if !takes_in(state, failed) {
        return Err(Refusal::NothingAsked);
    }
    Ok(())
}

// The lengths that a build tests: where `tracked` is unfit, no permission map has one to be tested.
fn tested(tracked: u64, lengths: Lengths) -> Lengths
    ensures { result ≡ tested_of tracked lengths }
{
    if tracked < 2 {
        return lengths;
    }
    Lengths {
        maps: MapLengths {
            read: 0,
            write: 0,
            kernel: 0,
            user: 0,
            ..lengths.maps
        },
        ..lengths
    }
}

// Whether what is lent to a build has its lengths.
fn build_fits(ram: &[u64], tracked: u64, state: u64, lengths: Lengths) -> bool
    ensures { result ≡ build_fits (map_len (entries_of ram.now)) tracked state lengths }
{
    state == STATE_WORDS as u64
        && lengths_fit(layout::map_len(ram), tracked == 1, tested(tracked, lengths))
}

// What refuses a build.
#[tactic(auto, using(abi::proofs::Numbers::number_not_zero), unfolding(crate::specs::Refusals::build_refusal))]
pub fn build_refusal(
    ram: &[u64],
    isolation: u64,
    tracked: u64,
    release: u64,
    state: u64,
    lengths: Lengths,
) -> Result<(), Refusal>
    ensures { refused_by result ≡ build_refusal ram.now isolation tracked release (build_fits (map_len (entries_of ram.now)) tracked state lengths) }
{
    layout::refusal(ram)?;
    if !permissions::is_isolation(isolation) {
        return Err(Refusal::UnfitIsolation);
    }
    if !build_fits(ram, tracked, state, lengths) {
        return Err(Refusal::WrongLength);
    }
    if 1 < tracked {
        return Err(Refusal::UnfitNumber);
    }
    if 1 < release {
        return Err(Refusal::UnfitNumber);
    }
    Ok(())
}
