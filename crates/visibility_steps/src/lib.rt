// What each answer leads a visibility change to: the operation asked for next, what is written, and the end. Nothing here
// touches a map.
#![tactic(auto)]

ghost use Rattle.std.specs.Prelude.{◌≡◌, ◌&&◌, if◌then◌else◌};
ghost use Rattle.request_pages.specs.Request.{run_end};
ghost use Rattle.visibility_steps.specs.Steps.{is_snp, is_cca, releases, no_writes, or_none, operation_on, counted, no_request, finished, halt, keep, share_run, default_run, return_run, after_flush, after_wait, after_modify, after_accept, after_default0, failed_modify, done_of, failed_of, asked, is_vtl0, cleared};
ghost use Rattle.visibility_steps.specs.Next.{marks, marked_by, asks, ends, keeps, has_run, is_default0, run_in, answer_by, request_by, permitted_at, flags_at, next_step};

use abi::refusal;
use page_list::PageRun;
use permissions::{DefaultVtlPermissions, GuestVtl, HvMapGpaFlags, IsolationType};

// What a protector is built with, and what calls set.
#[derive(Clone, Copy)]
pub struct Settings {
    pub isolation: IsolationType,
    pub tracked: bool,
    pub release: bool,
    pub enabled: bool,
    pub defaults: DefaultVtlPermissions,
}

// Nothing under way, or the operation outstanding.
// Kept: matched on, and no closure for what follows: between calls the phase is a word of the caller's state block.
#[derive(Clone, Copy, Debug, PartialEq, Eq)]
pub enum Phase {
    Idle,
    Halted,
    Wait,
    FlushAll,
    ProtectNone0,
    ProtectNone1,
    Invalidate,
    Release,
    Modify,
    Accept,
    Zero,
    ProtectDefault0,
    ProtectDefault1,
}

// Kept: `stopped` and `failed` beside `index` and `code`: request_of and with_request of specs read and write each as a word.
// The request under way: its first `n` pages of the table are in use, the run at place `at` is under way.
#[derive(Clone, Copy)]
pub struct Request {
    pub share: bool,
    pub vtl: GuestVtl,
    pub n: u64,
    pub at: u64,
    pub stopped: bool,
    pub failed: bool,
    pub index: u64,
    pub code: u64,
    pub count: u64,
}

// What the paravisor is asked to do.
#[derive(Clone, Copy)]
pub enum Operation {
    Wait,
    FlushAll,
    Protect {
        vtl: GuestVtl,
        flags: HvMapGpaFlags,
        run: PageRun,
    },
    Invalidate(PageRun),
    Release(PageRun),
    Modify {
        share: bool,
        count: u64,
    },
    Accept(PageRun),
    Zero(PageRun),
    Flush(GuestVtl),
    TlbWait(GuestVtl),
}

// What a call gives: a finished one with the count of its operations.
// Kept: a number in `Refused`: the definition `told` of visibility_claims gives it any.
#[derive(Clone, Copy)]
pub enum Answer {
    Done(u64),
    AccessDenied { index: u64, count: u64 },
    Failed { code: u64, index: u64, count: u64 },
    Halted(u64),
    Ask(Operation),
    Refused(u64),
}

// The places of the table from `from` to before `to`.
#[derive(Clone, Copy)]
pub struct Places {
    pub from: u64,
    pub to: u64,
}

// The marks that become `state`, and the permissions that become `flags`.
#[derive(Clone, Copy)]
pub struct Writes {
    pub state: bool,
    pub private: Places,
    pub shared: Places,
    pub permissions: Places,
    pub flags: HvMapGpaFlags,
}

#[derive(Clone, Copy)]
pub struct Step {
    pub phase: Phase,
    pub request: Request,
    pub answer: Answer,
    pub writes: Writes,
}

// The marks that an answer sets: private before a place of the table, shared from a place to before another.
#[derive(Clone, Copy)]
pub struct Marks {
    pub private: u64,
    pub from: u64,
    pub to: u64,
}

// An operation is asked for, the call ends, or the answer isn't taken.
#[derive(Clone, Copy, Debug, PartialEq, Eq)]
pub enum Turn {
    Ask,
    End,
    Keep,
}

// A step as far as it isn't told by the request and its table: the phase asked for, its place in the table, and the marks set.
#[derive(Clone, Copy)]
pub struct Next {
    pub turn: Turn,
    pub phase: Phase,
    pub at: u64,
    pub marks: Marks,
}

fn is_snp(settings: Settings) -> bool
    ensures { result ≡ is_snp settings.isolation }
{
    settings.isolation == IsolationType::Snp
}

fn is_cca(settings: Settings) -> bool
    ensures { result ≡ is_cca settings.isolation }
{
    settings.isolation == IsolationType::Cca
}

fn is_releasing(settings: Settings) -> bool
    ensures { result ≡ releases settings.isolation settings.release }
{
    settings.isolation == IsolationType::Tdx && settings.release
}

fn no_writes() -> Writes
    ensures { result ≡ no_writes }
{
    Writes {
        state: true,
        private: Places { from: 0, to: 0 },
        shared: Places { from: 0, to: 0 },
        permissions: Places { from: 0, to: 0 },
        flags: HvMapGpaFlags::none(),
    }
}

pub fn or_none(flags: Option<HvMapGpaFlags>) -> HvMapGpaFlags
    ensures { result ≡ or_none flags }
{
    flags.unwrap_or(HvMapGpaFlags::none())
}

// The operation of a phase, on a run.
fn operation_on(settings: Settings, phase: Phase, request: Request, run: PageRun) -> Operation
    ensures { result ≡ operation_on settings phase request run }
{
    match phase {
        Phase::Idle | Phase::Halted | Phase::Wait => Operation::Wait,
        Phase::FlushAll => Operation::FlushAll,
        Phase::ProtectNone0 => Operation::Protect {
            vtl: GuestVtl::Vtl0,
            flags: HvMapGpaFlags::none(),
            run,
        },
        Phase::ProtectNone1 => Operation::Protect {
            vtl: GuestVtl::Vtl1,
            flags: HvMapGpaFlags::none(),
            run,
        },
        Phase::Invalidate => Operation::Invalidate(run),
        Phase::Release => Operation::Release(run),
        Phase::Modify => Operation::Modify {
            share: request.share,
            count: request.n,
        },
        Phase::Accept => Operation::Accept(run),
        Phase::Zero => Operation::Zero(run),
        Phase::ProtectDefault0 => Operation::Protect {
            vtl: GuestVtl::Vtl0,
            flags: settings.defaults.vtl0,
            run,
        },
        Phase::ProtectDefault1 => Operation::Protect {
            vtl: GuestVtl::Vtl1,
            flags: or_none(settings.defaults.vtl1),
            run,
        },
    }
}

// The request with one operation more, at a place.
fn counted(request: Request, at: u64) -> Request
    ensures { result ≡ counted request at }
{
    Request {
        at,
        count: request.count.wrapping_add(1),
        ..request
    }
}

fn no_request() -> Request
    ensures { result ≡ no_request }
{
    Request {
        share: false,
        vtl: GuestVtl::Vtl0,
        n: 0,
        at: 0,
        stopped: false,
        failed: false,
        index: 0,
        code: 0,
        count: 0,
    }
}

// What a call that ends gives.
fn finished(request: Request) -> Answer
    ensures { result ≡ finished request }
{
    if request.stopped {
        return Answer::AccessDenied {
            index: request.index,
            count: request.count,
        };
    }
    if request.failed {
        return Answer::Failed {
            code: request.code,
            index: request.index,
            count: request.count,
        };
    }
    Answer::Done(request.count)
}

// The marks remain as they are.
#[tactic(auto, unfolding(crate::specs::Steps::halt))]
fn halt(request: Request) -> Step
    ensures { result ≡ halt request }
{
    Step {
        phase: Phase::Halted,
        request,
        answer: Answer::Halted(request.count),
        writes: Writes {
            state: true,
            private: Places { from: 0, to: 0 },
            shared: Places { from: 0, to: 0 },
            permissions: Places { from: 0, to: 0 },
            flags: HvMapGpaFlags::none(),
        },
    }
}

// An answer that isn't taken: the operation still waits.
#[tactic(auto, unfolding(crate::specs::Steps::keep))]
fn keep(phase: Phase, request: Request) -> Step
    ensures { result ≡ keep phase request }
{
    Step {
        phase,
        request,
        answer: Answer::Refused(refusal::NOTHING_ASKED),
        writes: no_writes(),
    }
}

fn no_marks() -> Marks
    ensures { result ≡ marks 0 0 0 }
{
    Marks {
        private: 0,
        from: 0,
        to: 0,
    }
}

fn with_private(old: Marks, private: u64) -> Marks
    ensures { result ≡ marks private old.from old.to }
{
    Marks {
        private,
        from: old.from,
        to: old.to,
    }
}

fn asks(phase: Phase, at: u64, marks: Marks) -> Next
    ensures { result ≡ asks phase at marks }
{
    Next {
        turn: Turn::Ask,
        phase,
        at,
        marks,
    }
}

fn ends(marks: Marks) -> Next
    ensures { result ≡ ends marks }
{
    Next {
        turn: Turn::End,
        phase: Phase::Idle,
        at: 0,
        marks,
    }
}

fn keeps(phase: Phase) -> Next
    ensures { result ≡ keeps phase }
{
    Next {
        turn: Turn::Keep,
        phase,
        at: 0,
        marks: no_marks(),
    }
}

// Up to `done` the table is what the contracts speak of; only the end of a run is read from it.

// Sharing, from the run at a place on.
#[tactic(auto, unfolding(crate::specs::Steps::share_run, crate::specs::Next::next_step, crate::specs::Steps::ask, crate::specs::Steps::operation_of))]
fn share_run(settings: Settings, request: Request, pages: &[u64], at: u64) -> Next
    ensures { next_step settings request pages.now result ≡ share_run settings request pages.now at }
{
    if request.n <= at {
        return asks(Phase::Modify, 0, no_marks());
    }
    if is_snp(settings) {
        return asks(Phase::ProtectNone0, at, no_marks());
    }
    if is_releasing(settings) {
        return asks(Phase::Release, at, no_marks());
    }
    asks(Phase::Modify, 0, no_marks())
}

// The default permissions, from the run at a place on; then the end.
#[tactic(auto, unfolding(crate::specs::Steps::default_run, crate::specs::Next::next_step, crate::specs::Steps::ask, crate::specs::Steps::operation_of, crate::specs::Steps::end))]
fn default_run(settings: Settings, request: Request, pages: &[u64], at: u64, marks: Marks) -> Next
    ensures { next_step settings request pages.now result ≡ default_run settings request pages.now at (marked_by marks) }
{
    if request.n <= at {
        return ends(marks);
    }
    asks(Phase::ProtectDefault0, at, marks)
}

// Acceptance, from the run at a place on; then the private marks.
#[tactic(auto, unfolding(crate::specs::Steps::return_run, crate::specs::Next::next_step, crate::specs::Steps::ask, crate::specs::Steps::operation_of))]
fn return_run(settings: Settings, request: Request, pages: &[u64], at: u64, marks: Marks) -> Next
    ensures { next_step settings request pages.now result ≡ return_run settings request pages.now at (marked_by marks) }
{
    if request.n <= at {
        return default_run(settings, request, pages, 0, with_private(marks, request.n));
    }
    if is_cca(settings) {
        return default_run(settings, request, pages, 0, with_private(marks, request.n));
    }
    asks(Phase::Accept, at, marks)
}

#[tactic(auto, unfolding(crate::specs::Steps::after_flush, crate::specs::Next::next_step, crate::specs::Steps::ask, crate::specs::Steps::operation_of))]
fn after_flush(settings: Settings, request: Request, pages: &[u64]) -> Next
    ensures { next_step settings request pages.now result ≡ after_flush settings request pages.now }
{
    if request.share {
        return share_run(settings, request, pages, 0);
    }
    asks(Phase::Modify, 0, no_marks())
}

#[tactic(auto, unfolding(crate::specs::Steps::after_wait, crate::specs::Next::next_step, crate::specs::Steps::ask, crate::specs::Steps::operation_of))]
fn after_wait(settings: Settings, request: Request, pages: &[u64]) -> Next
    ensures { next_step settings request pages.now result ≡ after_wait settings request pages.now }
{
    if is_snp(settings) {
        return asks(Phase::FlushAll, 0, no_marks());
    }
    after_flush(settings, request, pages)
}

#[tactic(auto, unfolding(crate::specs::Steps::after_modify, crate::specs::Next::next_step, crate::specs::Steps::end))]
fn after_modify(settings: Settings, request: Request, pages: &[u64]) -> Next
    ensures { next_step settings request pages.now result ≡ after_modify settings request pages.now }
{
    if request.share {
        return ends(Marks {
            private: 0,
            from: 0,
            to: request.n,
        });
    }
    return_run(settings, request, pages, 0, no_marks())
}

#[tactic(auto, unfolding(crate::specs::Steps::after_accept, crate::specs::Next::next_step, crate::specs::Steps::ask, crate::specs::Steps::operation_of))]
fn after_accept(settings: Settings, request: Request, pages: &[u64]) -> Next
    ensures { next_step settings request pages.now result ≡ after_accept settings request pages.now }
{
    if is_snp(settings) {
        return asks(Phase::Zero, request.at, no_marks());
    }
    let next = request_pages::run_end(pages, request.n, request.at);
    return_run(settings, request, pages, next, no_marks())
}

#[tactic(auto, unfolding(crate::specs::Next::next_step, crate::specs::Steps::ask, crate::specs::Steps::operation_of))]
fn after_default0(settings: Settings, request: Request, pages: &[u64]) -> Next
    ensures { next_step settings request pages.now result ≡ after_default0 settings.defaults.vtl1 settings request pages.now }
{
    match settings.defaults.vtl1 {
        Some(_) => asks(Phase::ProtectDefault1, request.at, no_marks()),
        None => {
            let next = request_pages::run_end(pages, request.n, request.at);
            default_run(settings, request, pages, next, no_marks())
        }
    }
}

// The operation outstanding is done.
#[tactic(auto, unfolding(crate::specs::Steps::done_of, crate::specs::Next::next_step, crate::specs::Steps::ask, crate::specs::Steps::operation_of, crate::specs::Steps::keep))]
pub fn done(settings: Settings, phase: Phase, request: Request, pages: &[u64]) -> Next
    ensures { next_step settings request pages.now result ≡ done_of settings phase request pages.now }
{
    match phase {
        Phase::Idle | Phase::Halted => keeps(phase),
        Phase::Wait => after_wait(settings, request, pages),
        Phase::FlushAll => after_flush(settings, request, pages),
        Phase::ProtectNone0 => asks(Phase::ProtectNone1, request.at, no_marks()),
        Phase::ProtectNone1 => asks(Phase::Invalidate, request.at, no_marks()),
        Phase::Invalidate | Phase::Release => {
            let next = request_pages::run_end(pages, request.n, request.at);
            share_run(settings, request, pages, next)
        }
        Phase::Modify => after_modify(settings, request, pages),
        Phase::Accept => after_accept(settings, request, pages),
        Phase::Zero => {
            let next = request_pages::run_end(pages, request.n, request.at);
            return_run(settings, request, pages, next, no_marks())
        }
        Phase::ProtectDefault0 => after_default0(settings, request, pages),
        Phase::ProtectDefault1 => {
            let next = request_pages::run_end(pages, request.n, request.at);
            default_run(settings, request, pages, next, no_marks())
        }
    }
}

// Whether the operation of a phase is on a run of pages.
fn has_run(phase: Phase) -> bool
    ensures { result ≡ has_run phase }
{
    !matches!(
        phase,
        Phase::Idle | Phase::Halted | Phase::Wait | Phase::FlushAll | Phase::Modify
    )
}

// Whether the operation of a phase gives VTL0 its default.
pub fn is_default0(phase: Phase) -> bool
    ensures { result ≡ is_default0 phase }
{
    phase == Phase::ProtectDefault0
}

// The run that a phase asks for at a place, of the first `count` pages.
pub fn run_in(phase: Phase, pages: &[u64], count: u64, at: u64) -> PageRun
    ensures { result ≡ run_in phase pages.now count at }
{
    if has_run(phase) {
        return page_list::run_at(pages, count, at);
    }
    PageRun { first: 0, count: 0 }
}

// The request that is left.
pub fn next_request(turn: Turn, request: Request, at: u64) -> Request
    ensures { result ≡ request_by turn request at }
{
    match turn {
        Turn::Ask => counted(request, at),
        Turn::End => no_request(),
        Turn::Keep => request,
    }
}

fn next_answer(
    turn: Turn,
    settings: Settings,
    phase: Phase,
    request: Request,
    run: PageRun,
) -> Answer
    ensures { result ≡ answer_by turn settings phase request run }
{
    match turn {
        Turn::Ask => Answer::Ask(operation_on(settings, phase, request, run)),
        Turn::End => finished(request),
        Turn::Keep => Answer::Refused(refusal::NOTHING_ASKED),
    }
}

// The place to which a run's permissions are written.
fn permission_end(tracked: bool, pages: &[u64], count: u64, at: u64) -> u64
    ensures { result ≡ (if tracked then run_end pages.now count at else at) }
{
    if tracked {
        request_pages::run_end(pages, count, at)
    } else {
        at
    }
}

fn permitted_at(settings: Settings, phase: Phase, pages: &[u64], count: u64, at: u64) -> Places
    ensures { result ≡ permitted_at settings phase pages.now count at }
{
    if is_default0(phase) {
        return Places {
            from: at,
            to: permission_end(settings.tracked, pages, count, at),
        };
    }
    Places { from: 0, to: 0 }
}

fn flags_at(settings: Settings, phase: Phase) -> HvMapGpaFlags
    ensures { result ≡ flags_at settings phase }
{
    if is_default0(phase) {
        return settings.defaults.vtl0;
    }
    HvMapGpaFlags::none()
}

// The step in full.
#[tactic(auto, unfolding(crate::specs::Next::next_step))]
fn step_of(settings: Settings, request: Request, pages: &[u64], next: Next) -> Step
    ensures { result ≡ next_step settings request pages.now next }
{
    let Next {
        turn,
        phase,
        at,
        marks,
    } = next;
    let run = run_in(phase, pages, request.n, at);
    Step {
        phase,
        request: next_request(turn, request, at),
        answer: next_answer(turn, settings, phase, request, run),
        writes: Writes {
            state: true,
            private: Places {
                from: 0,
                to: marks.private,
            },
            shared: Places {
                from: marks.from,
                to: marks.to,
            },
            permissions: permitted_at(settings, phase, pages, request.n, at),
            flags: flags_at(settings, phase),
        },
    }
}

// Modify failed: of a return with fewer pages processed than asked for, the others are shared again.
#[tactic(auto, unfolding(crate::specs::Steps::failed_modify))]
fn failed_modify(
    settings: Settings,
    request: Request,
    pages: &[u64],
    code: u64,
    processed: u64,
) -> Step
    ensures { result ≡ failed_modify settings request pages.now code processed }
{
    if request.share {
        return halt(request);
    }
    if request.n <= processed {
        return halt(request);
    }
    let cut = Request {
        n: processed,
        failed: true,
        code,
        index: request_pages::place_at(pages, processed),
        ..request
    };
    let restored = Marks {
        private: 0,
        from: processed,
        to: request.n,
    };
    let next = return_run(settings, cut, pages, 0, restored);
    step_of(settings, cut, pages, next)
}

// The operation outstanding failed.
#[tactic(auto, unfolding(crate::specs::Steps::failed_of))]
pub fn failed(
    settings: Settings,
    phase: Phase,
    request: Request,
    pages: &[u64],
    code: u64,
    processed: u64,
) -> Step
    ensures { result ≡ failed_of settings phase request pages.now code processed }
{
    match phase {
        Phase::Idle | Phase::Halted | Phase::Wait | Phase::FlushAll => keep(phase, request),
        Phase::Modify => failed_modify(settings, request, pages, code, processed),
        _ => halt(request),
    }
}

// How many pages of VTL0's permissions a sharing clears.
fn cleared_permissions(tracked: bool, vtl: GuestVtl, count: u64) -> u64
    ensures { result ≡ (if is_vtl0 vtl && tracked then count else 0) }
{
    if permissions::is_vtl0(vtl) && tracked {
        count
    } else {
        0
    }
}

// What a taken call clears at once.
#[tactic(auto, unfolding(crate::specs::Steps::cleared))]
pub fn clears(tracked: bool, vtl: GuestVtl, share: bool, count: u64) -> Writes
    ensures { result ≡ cleared tracked vtl share count }
{
    let none = Places { from: 0, to: 0 };
    if share {
        return Writes {
            state: false,
            private: Places { from: 0, to: count },
            shared: none,
            permissions: Places {
                from: 0,
                to: cleared_permissions(tracked, vtl, count),
            },
            flags: HvMapGpaFlags::none(),
        };
    }
    Writes {
        state: false,
        private: none,
        shared: Places { from: 0, to: count },
        permissions: none,
        flags: HvMapGpaFlags::none(),
    }
}

// The request of a call that is taken, `n` pages asked for; `stopped` before the end of its list, at place `stop`, or not.
pub fn asked(vtl: GuestVtl, share: bool, n: u64, stop: u64, stopped: bool) -> Request
    ensures { result ≡ asked vtl share n stop stopped }
{
    Request {
        share,
        vtl,
        n,
        at: 0,
        stopped,
        failed: false,
        index: stop,
        code: 0,
        count: 1,
    }
}
