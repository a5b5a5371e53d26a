// A step of a protection change, a default change or an overlay call carried out: what it writes, and what crosses.
#![tactic(auto)]

ghost use Rattle.std.specs.Prelude.{◌≡◌, ◌+◌, ◌<◌, ◌≤◌, ◌^◌, length};
ghost use Rattle.layout.specs.Layout.{entries_of};
ghost use Rattle.permissions.specs.Flags.{flags_of};
ghost use Rattle.mapping.specs.Maps.{perms_lent, same_maps};
ghost use Rattle.overlay_table.specs.Overlays.{entry, add_words};
ghost use Rattle.protector_state.specs.State.{state_len, settings_of};
ghost use Rattle.protector_state.specs.Reply.{flat_of};
ghost use Rattle.change_steps.specs.Changes.{flush_stage, flush_change};
ghost use Rattle.protector_state.specs.Changing.{stage_in, change_in, with_change};
ghost use Rattle.change_writes.specs.Flush.{flush_reply};
ghost use Rattle.call_refusals.specs.Buffers.{tables_len, overlays_of};
ghost use Rattle.protector.specs.Writes.{with_overlays, permitted_run, without_page, entered};
ghost use Rattle.protector.specs.Calls.{piece_after, next_in, after_done, after_failed};

use abi::{operation, table};
use change_steps::{Change, ChangeStep, Entry, Stage};
use mapping::PermissionMapsMut;
use overlay_table::OverlayPage;
use page_list::PageRun;
use permissions::{GuestVtl, HvMapGpaFlags, IsolationType};
use protector_state::Reply;

// The permissions of a run of pages, if it has any.
pub fn update_run(maps: &mut PermissionMapsMut<'_>, run: PageRun, flags: HvMapGpaFlags)
    requires { run.first + run.count ≤ 2 ^ 64 }
    ensures same { same_maps maps.old maps.new }
    ensures value { perms_lent maps.new ≡ permitted_run run flags (perms_lent maps.old) }
{
    if run.count == 0 {
        return;
    }
    let last = run.first + (run.count - 1);
    mapping::update_permission_bitmaps(maps, run.first, last, flags);
}

fn add_in(overlays: &mut [u64], change: Change)
    ensures { overlays.new ≡ add_words overlays.old (entry change.at change.previous change.flags 1 change.source) }
{
    let _ = overlay_table::add(
        overlays,
        OverlayPage {
            gpn: change.at,
            previous_permissions: change.previous,
            overlay_permissions: change.flags,
            ref_count: 1,
            gpn_source: change.source,
        },
    );
}

fn remove_in(overlays: &mut [u64], gpn: u64)
    ensures { overlays.new ≡ without_page overlays.old gpn }
{
    if let Some(place) = overlay_table::find_entry(overlays, gpn) {
        overlay_table::remove(overlays, place);
    }
}

fn add(tables: &mut [u64], change: Change)
    requires { length tables.old ≡ tables_len }
    ensures { tables.new ≡ with_overlays tables.old change.vtl (add_words (overlays_of tables.old change.vtl) (entry change.at change.previous change.flags 1 change.source)) }
{
    let start = call_refusals::overlays_start(change.vtl);
    add_in(&mut tables[start..start + table::OVERLAYS_WORDS], change);
}

fn remove(tables: &mut [u64], change: Change)
    requires { length tables.old ≡ tables_len }
    ensures { tables.new ≡ with_overlays tables.old change.vtl (without_page (overlays_of tables.old change.vtl) change.at) }
{
    let start = call_refusals::overlays_start(change.vtl);
    remove_in(&mut tables[start..start + table::OVERLAYS_WORDS], change.at);
}

// The overlay entry of a change.
#[tactic(auto, unfolding(protector::specs::Writes::entered))]
fn enter(tables: &mut [u64], entry: Entry, change: Change)
    requires { length tables.old ≡ tables_len }
    ensures { tables.new ≡ entered entry change tables.old }
{
    match entry {
        Entry::Keep => {}
        Entry::Add => add(tables, change),
        Entry::Remove => remove(tables, change),
    }
}

// A step carried out but for its entry: its permissions written, its stage and change kept.
pub fn write_step(
    maps: &mut PermissionMapsMut<'_>,
    state: &mut [u64],
    isolation: IsolationType,
    step: ChangeStep,
) -> Reply
    requires { (length state.old ≡ state_len) × (step.written.first + step.written.count ≤ 2 ^ 64) }
    ensures same { same_maps maps.old maps.new }
    ensures permissions_after { perms_lent maps.new ≡ permitted_run step.written (flags_of step.change.flags) (perms_lent maps.old) }
    ensures state_after { state.new ≡ with_change step.stage step.change state.old }
    ensures value { result ≡ flat_of isolation step.answer }
{
    let stage = step.stage;
    let change = step.change;
    let answer = step.answer;
    let run = step.written;
    let flags = HvMapGpaFlags::from_bits(change.flags);
    update_run(maps, run, flags);
    protector_state::change::save(state, stage, change);
    protector_state::to_reply(isolation, answer)
}

// A step carried out, with its entry.
pub fn apply_step(
    maps: &mut PermissionMapsMut<'_>,
    state: &mut [u64],
    tables: &mut [u64],
    isolation: IsolationType,
    step: ChangeStep,
) -> Reply
    requires { (length state.old ≡ state_len) × (length tables.old ≡ tables_len) × (step.written.first + step.written.count ≤ 2 ^ 64) }
    ensures same { same_maps maps.old maps.new }
    ensures permissions_after { perms_lent maps.new ≡ permitted_run step.written (flags_of step.change.flags) (perms_lent maps.old) }
    ensures state_after { state.new ≡ with_change step.stage step.change state.old }
    ensures tables_after { tables.new ≡ entered step.entry step.change tables.old }
    ensures value { result ≡ flat_of isolation step.answer }
{
    let entry = step.entry;
    let change = step.change;
    let reply = write_step(maps, state, isolation, step);
    enter(tables, entry, change);
    reply
}

// The next piece of a default change, where that is what waits.
fn piece_after(stage: Stage, private: &[u8], overlays: &[u64], ram: &[u64], at: u64) -> PageRun
    ensures value { result ≡ piece_after stage private.now overlays.now (entries_of ram.now) at }
    ensures count_bound { result.first + result.count < 2 ^ 64 }
{
    match stage {
        Stage::ProtectRam => default_change::next_piece(private, overlays, ram, at),
        _ => PageRun { first: 0, count: 0 },
    }
}

fn next_in(private: &[u8], state: &[u64], tables: &[u64]) -> PageRun
    requires { (length state.now ≡ state_len) × (length tables.now ≡ tables_len) }
    ensures value { result ≡ next_in private.now state.now tables.now }
    ensures count_bound { result.first + result.count < 2 ^ 64 }
{
    let stage = protector_state::change::stage(state);
    let change = protector_state::change::load(state);
    let vtl = change.vtl;
    let overlays = call_refusals::overlays_of(tables, vtl);
    let ram = protector_state::ram_of(state);
    piece_after(stage, private, overlays, ram, change.at)
}

// What the answer done leads a change to.
#[tactic(auto, unfolding(protector::specs::Calls::after_done))]
fn after_done(private: &[u8], state: &[u64], pages: &[u64], tables: &[u64]) -> ChangeStep
    requires { (length state.now ≡ state_len) × (length tables.now ≡ tables_len) }
    ensures value { result ≡ after_done private.now state.now pages.now tables.now }
    ensures count_bound { result.written.first + result.written.count ≤ 2 ^ 64 }
{
    let settings = protector_state::settings(state);
    let stage = protector_state::change::stage(state);
    let change = protector_state::change::load(state);
    let next = next_in(private, state, tables);
    change_steps::done(settings.tracked, stage, change, pages, next)
}

#[tactic(auto, unfolding(protector::specs::Calls::after_failed))]
fn after_failed(state: &[u64]) -> ChangeStep
    requires { length state.now ≡ state_len }
    ensures value { result ≡ after_failed state.now }
    ensures count_bound { result.written.first + result.written.count ≤ 2 ^ 64 }
{
    let stage = protector_state::change::stage(state);
    let change = protector_state::change::load(state);
    change_steps::failed(stage, change)
}

// What crosses for the stage that follows Wait, Flush or TlbWait.
fn flush_reply(stage: Stage, change: Change) -> Reply
    ensures { result ≡ flush_reply stage change }
{
    match stage {
        Stage::Flush => protector_state::on_vtl(operation::FLUSH, change.flush),
        Stage::TlbWait => protector_state::on_vtl(operation::TLB_WAIT, change.vtl),
        _ => protector_state::finished(0, 0, 0, change.count),
    }
}

// Wait, Flush or TlbWait is done: no map and no entry is written.
fn flush_done(state: &mut [u64]) -> Reply
    requires { length state.old ≡ state_len }
    ensures state_after { state.new ≡ with_change (flush_stage (stage_in state.old)) (flush_change (flush_stage (stage_in state.old)) (change_in state.old)) state.old }
    ensures value { result ≡ flush_reply (flush_stage (stage_in state.old)) (change_in state.old) }
{
    let change = protector_state::change::load(state);
    let next = change_steps::flush_stage(protector_state::change::stage(state));
    protector_state::change::save(state, next, change_steps::flush_change(next, change));
    flush_reply(next, change)
}

// The operation asked for is done.
pub fn answer_done(
    private: &[u8],
    maps: &mut PermissionMapsMut<'_>,
    state: &mut [u64],
    pages: &[u64],
    tables: &mut [u64],
) -> Reply
    requires { (length state.old ≡ state_len) × (length tables.old ≡ tables_len) }
    ensures same { same_maps maps.old maps.new }
    ensures permissions_after { perms_lent maps.new
        ≡ permitted_run (after_done private.now state.old pages.now tables.old).written (flags_of (after_done private.now state.old pages.now tables.old).change.flags) (perms_lent maps.old) }
    ensures state_after { state.new ≡ with_change (after_done private.now state.old pages.now tables.old).stage (after_done private.now state.old pages.now tables.old).change state.old }
    ensures tables_after { tables.new ≡ entered (after_done private.now state.old pages.now tables.old).entry (after_done private.now state.old pages.now tables.old).change tables.old }
    ensures value { result ≡ flat_of (settings_of state.old).isolation (after_done private.now state.old pages.now tables.old).answer }
{
    if change_steps::is_flushing(protector_state::change::stage(state)) {
        return flush_done(state);
    }
    let settings = protector_state::settings(state);
    let isolation = settings.isolation;
    let x = after_done(private, state, pages, tables);
    apply_step(maps, state, tables, isolation, x)
}

// The operation asked for failed.
pub fn answer_failed(
    maps: &mut PermissionMapsMut<'_>,
    state: &mut [u64],
    tables: &mut [u64],
) -> Reply
    requires { (length state.old ≡ state_len) × (length tables.old ≡ tables_len) }
    ensures same { same_maps maps.old maps.new }
    ensures permissions_after { perms_lent maps.new ≡ permitted_run (after_failed state.old).written (flags_of (after_failed state.old).change.flags) (perms_lent maps.old) }
    ensures state_after { state.new ≡ with_change (after_failed state.old).stage (after_failed state.old).change state.old }
    ensures tables_after { tables.new ≡ entered (after_failed state.old).entry (after_failed state.old).change tables.old }
    ensures value { result ≡ flat_of (settings_of state.old).isolation (after_failed state.old).answer }
{
    let settings = protector_state::settings(state);
    let isolation = settings.isolation;
    let x = after_failed(state);
    apply_step(maps, state, tables, isolation, x)
}
