// The state block of the protector, and what crosses for an answer.
#![tactic(auto)]

ghost use Rattle.std.specs.Prelude.{◌≡◌, ◌≤◌, cond, length};
ghost use Rattle.abi.specs.Refusals as refusal;
ghost use Rattle.abi.specs.Lengths.{ram_len};
ghost use Rattle.visibility_steps.specs.Steps.{is_snp, or_none, operation_on};
ghost use Rattle.visibility_steps.specs.Next.{answer_by};
ghost use Rattle.permissions.specs.HvError.{code_of};
ghost use Rattle.permissions.specs.Rmpadjust.{operand_of};
ghost use Rattle.protector_state.specs.State.{state_len, phase_number, phase_of, phase_in, request_of, with_request, option_of, option_word, defaults_of, default_word, settings_of, ram_of, built_state};
ghost use Rattle.protector_state.specs.Reply.{finished, plain, on_vtl, on_run, protects, modifies, asked_of, ended_of, flat_of, value};

pub mod change;

use abi::{NO_FLAGS, RAM_ENTRY_WORDS, limit, operation, phase, place, refusal};
use page_list::PageRun;
use permissions::{DefaultVtlPermissions, GuestVtl, HvMapGpaFlags, IsolationType};
use visibility_steps::{Answer, Operation, Phase, Request, Settings, Turn};

// What crosses: 01's number (0 where none), code, index and count of a call, and the operation asked for (0 where none):
// 1 Wait, 2 FlushAll, 3 Protect, 4 Invalidate, 5 Release, 6 Modify, 7 Accept, 8 Zero, 9 Flush, 10 TlbWait.
#[repr(C)]
#[derive(Clone, Copy)]
pub struct Reply {
    pub number: u64,
    pub code: u64,
    pub index: u64,
    pub count: u64,
    pub operation: u64,
    pub vtl: u64,
    pub flags: u64,
    pub operand: u64,
    pub first: u64,
    pub pages: u64,
    pub shared: u64,
}

// 01's number (0 where none), and the value: an action, flags, or the code of a refusal.
#[repr(C)]
#[derive(Clone, Copy)]
pub struct Value {
    pub number: u64,
    pub value: u64,
}

// A call that ended, with its number, code, index and count; nothing is asked for.
pub fn finished(number: u64, code: u64, index: u64, count: u64) -> Reply
    ensures { result ≡ finished number code index count }
{
    Reply {
        number,
        code,
        index,
        count,
        operation: 0,
        vtl: 0,
        flags: 0,
        operand: 0,
        first: 0,
        pages: 0,
        shared: 0,
    }
}

// A call that a number refuses, with its code: Ok where it is 0.
pub fn refused(number: u64) -> Reply
    ensures { result ≡ finished number (code_of number) 0 0 }
{
    finished(number, permissions::hv_error(number), 0, 0)
}

// A reading that a number refuses, with its code.
pub fn refused_value(number: u64) -> Value
    ensures { result ≡ value number (code_of number) }
{
    Value {
        number,
        value: permissions::hv_error(number),
    }
}

// What a reading gives.
pub fn ok_value(v: u64) -> Value
    ensures { result ≡ value 0 v }
{
    Value {
        number: 0,
        value: v,
    }
}

// An operation is asked for that names neither a VTL nor pages.
pub fn plain(operation: u64) -> Reply
    ensures { result ≡ plain operation }
{
    Reply {
        operation,
        ..finished(0, 0, 0, 0)
    }
}

// An operation is asked for that names a VTL alone.
pub fn on_vtl(operation: u64, vtl: GuestVtl) -> Reply
    ensures { result ≡ on_vtl operation vtl }
{
    Reply {
        vtl: permissions::vtl_number(vtl),
        ..plain(operation)
    }
}

fn on_run(operation: u64, run: PageRun) -> Reply
    ensures { result ≡ on_run operation run }
{
    Reply {
        first: run.first,
        pages: run.count,
        ..plain(operation)
    }
}

// The RMPADJUST operand on SNP.
fn operand(isolation: IsolationType, vtl: GuestVtl, flags: HvMapGpaFlags) -> u64
    ensures { result ≡ cond (is_snp isolation) (operand_of vtl flags) 0 }
{
    match isolation {
        IsolationType::Snp => permissions::rmpadjust(vtl, flags),
        _ => 0,
    }
}

fn protect(isolation: IsolationType, vtl: GuestVtl, flags: HvMapGpaFlags, run: PageRun) -> Reply
    ensures { result ≡ protects isolation vtl flags run }
{
    Reply {
        vtl: permissions::vtl_number(vtl),
        flags: flags.into_bits(),
        operand: operand(isolation, vtl, flags),
        ..on_run(operation::PROTECT, run)
    }
}

fn modify(share: bool, n: u64) -> Reply
    ensures { result ≡ modifies share n }
{
    Reply {
        pages: n,
        shared: permissions::bool_to_u64(share),
        ..plain(operation::MODIFY)
    }
}

#[tactic(auto, unfolding(crate::specs::Reply::asked_of))]
fn asked(isolation: IsolationType, operation: Operation) -> Reply
    ensures { result ≡ asked_of isolation operation }
{
    match operation {
        Operation::Wait => plain(operation::WAIT),
        Operation::FlushAll => plain(operation::FLUSH_ALL),
        Operation::Protect { vtl, flags, run } => protect(isolation, vtl, flags, run),
        Operation::Invalidate(run) => on_run(operation::INVALIDATE, run),
        Operation::Release(run) => on_run(operation::RELEASE, run),
        Operation::Modify { share, count } => modify(share, count),
        Operation::Accept(run) => on_run(operation::ACCEPT, run),
        Operation::Zero(run) => on_run(operation::ZERO, run),
        Operation::Flush(vtl) => on_vtl(operation::FLUSH, vtl),
        Operation::TlbWait(vtl) => on_vtl(operation::TLB_WAIT, vtl),
    }
}

fn stopped(index: u64, count: u64) -> Reply
    ensures { result ≡ finished refusal.access_denied (code_of refusal.access_denied) index count }
{
    finished(
        refusal::ACCESS_DENIED,
        permissions::hv_error(refusal::ACCESS_DENIED),
        index,
        count,
    )
}

// What crosses for an answer; the isolation tells whether a Protect has an operand.
#[tactic(auto, unfolding(crate::specs::Reply::flat_of))]
pub fn to_reply(isolation: IsolationType, answer: Answer) -> Reply
    ensures { result ≡ flat_of isolation answer }
{
    match answer {
        Answer::Done(count) => finished(0, 0, 0, count),
        Answer::AccessDenied { index, count } => stopped(index, count),
        Answer::Failed { code, index, count } => finished(
            refusal::BACKEND_FAILED,
            code,
            index,
            count,
        ),
        Answer::Halted(count) => finished(refusal::HALTED, 0, 0, count),
        Answer::Ask(operation) => asked(isolation, operation),
        Answer::Refused(number) => refused(number),
    }
}

fn ended(request: Request) -> Reply
    ensures { result ≡ ended_of request }
{
    if request.stopped {
        return stopped(request.index, request.count);
    }
    if request.failed {
        return finished(
            refusal::BACKEND_FAILED,
            request.code,
            request.index,
            request.count,
        );
    }
    finished(0, 0, 0, request.count)
}

fn phase_number(phase: Phase) -> u64
    ensures { result ≡ phase_number phase }
{
    match phase {
        Phase::Idle => phase::IDLE,
        Phase::Halted => phase::HALTED,
        Phase::Wait => phase::WAIT,
        Phase::FlushAll => phase::FLUSH_ALL,
        Phase::ProtectNone0 => phase::PROTECT_NONE0,
        Phase::ProtectNone1 => phase::PROTECT_NONE1,
        Phase::Invalidate => phase::INVALIDATE,
        Phase::Release => phase::RELEASE,
        Phase::Modify => phase::MODIFY,
        Phase::Accept => phase::ACCEPT,
        Phase::Zero => phase::ZERO,
        Phase::ProtectDefault0 => phase::PROTECT_DEFAULT0,
        Phase::ProtectDefault1 => phase::PROTECT_DEFAULT1,
    }
}

#[tactic(auto, unfolding(crate::specs::State::first_phases, crate::specs::State::phase_of))]
fn phase_of(n: u64) -> Phase
    ensures { result ≡ phase_of n }
{
    match n {
        phase::IDLE => Phase::Idle,
        phase::WAIT => Phase::Wait,
        phase::FLUSH_ALL => Phase::FlushAll,
        phase::PROTECT_NONE0 => Phase::ProtectNone0,
        phase::PROTECT_NONE1 => Phase::ProtectNone1,
        phase::INVALIDATE => Phase::Invalidate,
        phase::RELEASE => Phase::Release,
        phase::MODIFY => Phase::Modify,
        phase::ACCEPT => Phase::Accept,
        phase::ZERO => Phase::Zero,
        phase::PROTECT_DEFAULT0 => Phase::ProtectDefault0,
        phase::PROTECT_DEFAULT1 => Phase::ProtectDefault1,
        _ => Phase::Halted,
    }
}

// The phase by its number in the state block: Halted where it is the number of none.
pub fn phase(state: &[u64]) -> Phase
    requires { length state.now ≡ state_len }
    ensures { result ≡ phase_in state.now }
{
    phase_of(state[place::PHASE])
}

// The request under way.
pub fn load(state: &[u64]) -> Request
    requires { length state.now ≡ state_len }
    ensures { result ≡ request_of state.now }
{
    Request {
        share: state[place::SHARE] == 1,
        vtl: permissions::vtl_of(state[place::VTL]),
        n: numbers::min(state[place::USED], limit::LISTED_PAGES),
        at: state[place::AT],
        stopped: state[place::STOPPED] == 1,
        failed: state[place::FAILED] == 1,
        index: state[place::INDEX],
        code: state[place::CODE],
        count: state[place::COUNT],
    }
}

// A phase and its request are stored: no other word is written.
pub fn save(state: &mut [u64], phase: Phase, request: Request)
    requires { length state.old ≡ state_len }
    ensures { state.new ≡ with_request phase request state.old }
{
    state[place::PHASE] = phase_number(phase);
    state[place::SHARE] = permissions::bool_to_u64(request.share);
    state[place::VTL] = permissions::vtl_number(request.vtl);
    state[place::USED] = request.n;
    state[place::AT] = request.at;
    state[place::STOPPED] = permissions::bool_to_u64(request.stopped);
    state[place::FAILED] = permissions::bool_to_u64(request.failed);
    state[place::INDEX] = request.index;
    state[place::CODE] = request.code;
    state[place::COUNT] = request.count;
}

fn option_of(n: u64) -> Option<HvMapGpaFlags>
    ensures { result ≡ option_of n }
{
    permissions::is_flags(n).then(|| HvMapGpaFlags::from_bits(n))
}

fn option_word(flags: Option<HvMapGpaFlags>) -> u64
    ensures { result ≡ option_word flags }
{
    match flags {
        Some(given) => given.into_bits(),
        None => NO_FLAGS,
    }
}

// The defaults in the state block.
pub fn defaults(state: &[u64]) -> DefaultVtlPermissions
    requires { length state.now ≡ state_len }
    ensures { result ≡ defaults_of state.now }
{
    DefaultVtlPermissions {
        vtl0: HvMapGpaFlags::from_bits(state[place::DEFAULT0]),
        vtl1: option_of(state[place::DEFAULT1]),
    }
}

// The word of a VTL's default.
pub fn default_word(defaults: DefaultVtlPermissions, vtl: GuestVtl) -> u64
    ensures { result ≡ default_word defaults vtl }
{
    match vtl {
        GuestVtl::Vtl0 => defaults.vtl0.into_bits(),
        GuestVtl::Vtl1 => option_word(defaults.vtl1),
    }
}

// The settings in the state block.
pub fn settings(state: &[u64]) -> Settings
    requires { length state.now ≡ state_len }
    ensures { result ≡ settings_of state.now }
{
    Settings {
        isolation: isolation(state),
        tracked: is_tracked(state),
        release: state[place::RELEASE] == 1,
        enabled: state[place::ENABLED] == 1,
        defaults: defaults(state),
    }
}

// The isolation type.
pub fn isolation(state: &[u64]) -> IsolationType
    requires { length state.now ≡ state_len }
    ensures { result ≡ (settings_of state.now).isolation }
{
    permissions::isolation_of(state[place::ISOLATION])
}

// Whether permissions are tracked.
pub fn is_tracked(state: &[u64]) -> bool
    requires { length state.now ≡ state_len }
    ensures { result ≡ (settings_of state.now).tracked }
{
    state[place::TRACKED] == 1
}

// The flags of VTL0's default.
pub fn default_vtl0(state: &[u64]) -> HvMapGpaFlags
    requires { length state.now ≡ state_len }
    ensures { result ≡ (settings_of state.now).defaults.vtl0 }
{
    HvMapGpaFlags::from_bits(state[place::DEFAULT0])
}

fn default_vtl1(state: &[u64]) -> HvMapGpaFlags
    requires { length state.now ≡ state_len }
    ensures { result ≡ or_none (settings_of state.now).defaults.vtl1 }
{
    visibility_steps::or_none(option_of(state[place::DEFAULT1]))
}

// What crosses for the operation of a phase. Only what it needs is read from the state.
#[tactic(auto, unfolding(crate::specs::Reply::asked_of))]
fn asked_at(state: &[u64], phase: Phase, request: Request, run: PageRun) -> Reply
    requires { length state.now ≡ state_len }
    ensures { result ≡ asked_of (settings_of state.now).isolation (operation_on (settings_of state.now) phase request run) }
{
    let vtl0 = GuestVtl::Vtl0;
    let vtl1 = GuestVtl::Vtl1;
    match phase {
        Phase::Idle | Phase::Halted | Phase::Wait => plain(operation::WAIT),
        Phase::FlushAll => plain(operation::FLUSH_ALL),
        Phase::ProtectNone0 => protect(isolation(state), vtl0, HvMapGpaFlags::none(), run),
        Phase::ProtectNone1 => protect(isolation(state), vtl1, HvMapGpaFlags::none(), run),
        Phase::Invalidate => on_run(operation::INVALIDATE, run),
        Phase::Release => on_run(operation::RELEASE, run),
        Phase::Modify => modify(request.share, request.n),
        Phase::Accept => on_run(operation::ACCEPT, run),
        Phase::Zero => on_run(operation::ZERO, run),
        Phase::ProtectDefault0 => protect(isolation(state), vtl0, default_vtl0(state), run),
        Phase::ProtectDefault1 => protect(isolation(state), vtl1, default_vtl1(state), run),
    }
}

// What crosses for what an answer leads to.
#[tactic(auto, unfolding(crate::specs::Reply::flat_of))]
pub fn next_reply(state: &[u64], turn: Turn, phase: Phase, request: Request, run: PageRun) -> Reply
    requires { length state.now ≡ state_len }
    ensures { result ≡ flat_of (settings_of state.now).isolation (answer_by turn (settings_of state.now) phase request run) }
{
    match turn {
        Turn::Ask => asked_at(state, phase, request, run),
        Turn::End => ended(request),
        Turn::Keep => refused(refusal::NOTHING_ASKED),
    }
}

// The words of the layout.
// Kept beside registrar_state's: they share one line, and a common function would have both blocks' places in its clause.
pub fn ram_of(state: &[u64]) -> &[u64]
    requires { length state.now ≡ state_len }
    ensures { result.now ≡ ram_of state.now }
{
    let n = numbers::min(state[place::ENTRIES], limit::RAM_ENTRIES) as usize;
    let end = place::RAM + RAM_ENTRY_WORDS * n;
    &state[place::RAM..end]
}

// The state block as built.
pub fn build_state(state: &mut [u64], ram: &[u64], isolation: u64, tracked: u64, release: u64)
    requires { (length state.old ≡ state_len) × (length ram.now ≤ ram_len) }
    ensures { state.new ≡ built_state ram.now isolation tracked release }
{
    let first = DefaultVtlPermissions::new();
    words::clear(state);
    state[place::ISOLATION] = isolation;
    state[place::TRACKED] = tracked;
    state[place::RELEASE] = release;
    state[place::DEFAULT0] = default_word(first, GuestVtl::Vtl0);
    state[place::DEFAULT1] = default_word(first, GuestVtl::Vtl1);
    state[place::ENTRIES] = layout::entry_count(ram);
    // Kept: copy_from_slice calls memmove, and the C library is to need memset alone (docs/ABI.md).
    for i in 0..ram.len() {
        state[place::RAM + i] = ram[i];
    }
}
