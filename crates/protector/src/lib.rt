// What a visibility change writes at each step.
#![tactic(auto)]

ghost use Rattle.std.specs.Prelude.{◌≡◌, true, ◌≤◌, length};
ghost use Rattle.mapping.specs.Maps.{maps_lent, perms_lent, same_maps};
ghost use Rattle.request_pages.specs.Request.{put};
ghost use Rattle.visibility_steps.specs.Steps.{start_of};
ghost use Rattle.visibility_steps.specs.Next.{run_in, permitted_at, flags_at, next_step};
ghost use Rattle.protector_state.specs.State.{state_len, with_request, settings_of};
ghost use Rattle.protector_state.specs.Reply.{flat_of};
ghost use Rattle.call_refusals.specs.Buffers.{pages_len};
ghost use Rattle.protector.specs.Writes.{put_places, put_permissions, applied, is_empty, is_nothing};
ghost use Rattle.protector.specs.Calls.{checks_permissions, done_in};

use abi::operation;
use mapping::PermissionMapsMut;
use page_list::PageRun;
use permissions::GuestVtl;
use protector_state::Reply;
use visibility_steps::{Next, Phase, Places, Request, Settings, Step, Writes};

// Whether a visibility change looks at the permission maps.
pub fn checks_permissions(settings: Settings, vtl: GuestVtl, share: bool) -> bool
    ensures { result ≡ checks_permissions settings vtl share }
{
    share && permissions::is_vtl0(vtl) && settings.enabled
}

fn set_marks(map: &mut [u8], pages: &[u64], places: Places, state: bool)
    ensures { map.new ≡ put_places pages.now places state map.old }
{
    request_pages::set_places(map, pages, places.from, places.to, state);
}

fn is_empty(places: Places) -> bool
    ensures { result ≡ is_empty places }
{
    places.to <= places.from
}

// Whether a step writes nothing.
fn is_nothing(writes: Writes) -> bool
    ensures { result ≡ is_nothing writes }
{
    is_empty(writes.private) && is_empty(writes.shared) && is_empty(writes.permissions)
}

// What a step writes. Places of no page write nothing.
#[tactic(auto, unfolding(crate::specs::Writes::applied))]
fn apply(
    private: &mut [u8],
    shared: &mut [u8],
    maps: &mut PermissionMapsMut<'_>,
    pages: &[u64],
    writes: Writes,
)
    ensures same { same_maps maps.old maps.new }
    ensures value { maps_lent private.new shared.new maps.new ≡ applied pages.now writes (maps_lent private.old shared.old maps.old) }
{
    if is_nothing(writes) {
        return;
    }
    let Places { from, to } = writes.permissions;
    set_marks(private, pages, writes.private, writes.state);
    set_marks(shared, pages, writes.shared, writes.state);
    request_pages::update_permissions(maps, pages, from, to, writes.flags);
}

// A step carried out: its writes made, its phase and request kept.
#[tactic(auto, unfolding(crate::specs::Writes::applied))]
pub fn apply_step(
    private: &mut [u8],
    shared: &mut [u8],
    maps: &mut PermissionMapsMut<'_>,
    state: &mut [u64],
    pages: &[u64],
    settings: Settings,
    step: Step,
) -> Reply
    requires { length state.old ≡ state_len }
    ensures same { same_maps maps.old maps.new }
    ensures maps_after { maps_lent private.new shared.new maps.new ≡ applied pages.now step.writes (maps_lent private.old shared.old maps.old) }
    ensures state_after { state.new ≡ with_request step.phase step.request state.old }
    ensures value { result ≡ flat_of settings.isolation step.answer }
{
    apply(private, shared, maps, pages, step.writes);
    protector_state::save(state, step.phase, step.request);
    protector_state::to_reply(settings.isolation, step.answer)
}

// The marks at the places from `from` to before `to` are set.
fn mark(map: &mut [u8], pages: &[u64], from: u64, to: u64)
    ensures { map.new ≡ put pages.now from to true map.old }
{
    if to <= from {
        return;
    }
    request_pages::set_places(map, pages, from, to, true);
}

// The default permissions of VTL0 for the run of a phase that asks for them.
fn update_default_permissions(
    maps: &mut PermissionMapsMut<'_>,
    state: &[u64],
    pages: &[u64],
    phase: Phase,
    count: u64,
    at: u64,
    run: PageRun,
)
    requires { (length state.now ≡ state_len) × (count ≤ length pages.now) × (run ≡ run_in phase pages.now count at) }
    ensures same { same_maps maps.old maps.new }
    ensures value { perms_lent maps.new ≡ put_permissions pages.now (permitted_at (settings_of state.now) phase pages.now count at) (flags_at (settings_of state.now) phase) (perms_lent maps.old) }
{
    if !visibility_steps::is_default0(phase) {
        return;
    }
    if !protector_state::is_tracked(state) {
        return;
    }
    if count <= at {
        return;
    }
    let flags = protector_state::default_vtl0(state);
    request_pages::update_permissions_at(maps, pages, count, at, run, flags);
}

// What an answer leads to, carried out.
#[tactic(auto, unfolding(crate::specs::Writes::applied, visibility_steps::specs::Next::next_step))]
fn apply_done(
    private: &mut [u8],
    shared: &mut [u8],
    maps: &mut PermissionMapsMut<'_>,
    state: &mut [u64],
    pages: &[u64],
    request: Request,
    next: Next,
) -> Reply
    requires { (length state.old ≡ state_len) × (request.n ≤ length pages.now) }
    ensures same { same_maps maps.old maps.new }
    ensures maps_after { maps_lent private.new shared.new maps.new
        ≡ applied pages.now (next_step (settings_of state.old) request pages.now next).writes (maps_lent private.old shared.old maps.old) }
    ensures state_after { state.new ≡ with_request (next_step (settings_of state.old) request pages.now next).phase (next_step (settings_of state.old) request pages.now next).request state.old }
    ensures value { result ≡ flat_of (settings_of state.old).isolation (next_step (settings_of state.old) request pages.now next).answer }
{
    let Next {
        turn,
        phase,
        at,
        marks,
    } = next;
    let run = visibility_steps::run_in(phase, pages, request.n, at);
    mark(private, pages, 0, marks.private);
    mark(shared, pages, marks.from, marks.to);
    update_default_permissions(maps, state, pages, phase, request.n, at, run);
    let reply = protector_state::next_reply(state, turn, phase, request, run);
    let left = visibility_steps::next_request(turn, request, at);
    protector_state::save(state, phase, left);
    reply
}

// The operation asked for is done.
pub fn answer_done(
    private: &mut [u8],
    shared: &mut [u8],
    maps: &mut PermissionMapsMut<'_>,
    state: &mut [u64],
    pages: &[u64],
) -> Reply
    requires { (length state.old ≡ state_len) × (length pages.now ≡ pages_len) }
    ensures same { same_maps maps.old maps.new }
    ensures maps_after { maps_lent private.new shared.new maps.new ≡ applied pages.now (done_in state.old pages.now).writes (maps_lent private.old shared.old maps.old) }
    ensures state_after { state.new ≡ with_request (done_in state.old pages.now).phase (done_in state.old pages.now).request state.old }
    ensures value { result ≡ flat_of (settings_of state.old).isolation (done_in state.old pages.now).answer }
{
    let settings = protector_state::settings(state);
    let phase = protector_state::phase(state);
    let request = protector_state::load(state);
    let next = visibility_steps::done(settings, phase, request, pages);
    apply_done(private, shared, maps, state, pages, request, next)
}

// A visibility change that is taken: what it clears, then Wait is asked for.
#[tactic(auto, unfolding(crate::specs::Writes::applied, visibility_steps::specs::Steps::start_of, protector_state::specs::Reply::flat_of, protector_state::specs::Reply::asked_of))]
pub fn begin(
    private: &mut [u8],
    shared: &mut [u8],
    maps: &mut PermissionMapsMut<'_>,
    state: &mut [u64],
    pages: &[u64],
    vtl: GuestVtl,
    share: bool,
    count: u64,
    stop: u64,
    stopped: bool,
) -> Reply
    requires { length state.old ≡ state_len }
    ensures same { same_maps maps.old maps.new }
    ensures maps_after { maps_lent private.new shared.new maps.new ≡ applied pages.now (start_of (settings_of state.old) vtl share count stop stopped).writes (maps_lent private.old shared.old maps.old) }
    ensures state_after { state.new ≡ with_request (start_of (settings_of state.old) vtl share count stop stopped).phase (start_of (settings_of state.old) vtl share count stop stopped).request state.old }
    ensures value { result ≡ flat_of (settings_of state.old).isolation (start_of (settings_of state.old) vtl share count stop stopped).answer }
{
    let writes = visibility_steps::clears(protector_state::is_tracked(state), vtl, share, count);
    apply(private, shared, maps, pages, writes);
    let request = visibility_steps::asked(vtl, share, count, stop, stopped);
    protector_state::save(state, Phase::Wait, request);
    protector_state::plain(operation::WAIT)
}
