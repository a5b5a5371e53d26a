// What each answer leads a protection change, a default change and an overlay call to: the operation asked for next, what
// is written, and the end. Nothing here writes a map or a table of overlays.
#![tactic(auto)]

ghost use Rattle.std.specs.Prelude.{◌≡◌, ◌+◌, ◌^◌, ◌<◌, ◌&&◌, ◌==◌};
ghost use Rattle.visibility_steps.specs.declared.Answer.TheVariants.{Failed};
ghost use Rattle.visibility_steps.specs.Steps.{is_vtl0};
ghost use Rattle.change_steps.specs.Changes.{no_run, no_change, written_by, counted, protect, ask, wait, finish, halt, keep, protect_pages, protect_ram, is_flushing, flush_stage, flush_change, operation_denied, done_of, failed_of, change_of, overlay_of, start_pages, start_ram, start_new, start_old};

use abi::{NO_FLAGS, code, refusal};
use page_list::PageRun;
use permissions::{GuestVtl, HvMapGpaFlags};
use visibility_steps::{Answer, Operation};

// Nothing under way, or the operation outstanding.
// Kept: matched on, and no closure for what follows: between calls the stage is a word of the caller's state block.
#[derive(Clone, Copy, Debug, PartialEq, Eq)]
pub enum Stage {
    Idle,
    Halted,
    ProtectPages,
    ProtectRam,
    ProtectNew,
    ProtectOld,
    Wait,
    Flush,
    TlbWait,
}

// The change under way: `flags` for `vtl`, `flush` the VTL whose TLB is flushed. Of a protection change the first `n` pages
// of the table are in use, the run at place `at` is under way; of a default change `at` is the page after the piece under
// way; of an overlay call it is the page, with the permissions it had and its source. Flags are bits.
#[derive(Clone, Copy)]
pub struct Change {
    pub vtl: GuestVtl,
    pub flush: GuestVtl,
    pub n: u64,
    pub at: u64,
    pub flags: u64,
    pub previous: u64,
    pub source: u64,
    pub count: u64,
}

// What becomes of the overlay entry of the change's page.
#[derive(Clone, Copy, Debug, PartialEq, Eq)]
pub enum Entry {
    Keep,
    Add,
    Remove,
}

// `written`: the pages whose permissions become the change's flags.
#[derive(Clone, Copy)]
pub struct ChangeStep {
    pub stage: Stage,
    pub change: Change,
    pub answer: Answer,
    pub written: PageRun,
    pub entry: Entry,
}

fn no_run() -> PageRun
    ensures { result ≡ no_run }
{
    PageRun { first: 0, count: 0 }
}

fn change_of(vtl: GuestVtl, flags: u64, n: u64) -> Change
    ensures { result ≡ change_of vtl flags n }
{
    Change {
        vtl,
        flush: GuestVtl::Vtl0,
        n,
        at: 0,
        flags,
        previous: 0,
        source: 0,
        count: 0,
    }
}

fn no_change() -> Change
    ensures { result ≡ no_change }
{
    change_of(GuestVtl::Vtl0, 0, 0)
}

// Whether a Protect writes the permission maps.
fn is_tracked(tracked: bool, change: Change) -> bool
    ensures { result ≡ (is_vtl0 change.vtl && (tracked && change.source == 0)) }
{
    permissions::is_vtl0(change.vtl) && tracked && change.source == 0
}

fn written_by(tracked: bool, change: Change, run: PageRun) -> PageRun
    ensures { result ≡ written_by tracked change run }
{
    if is_tracked(tracked, change) {
        run
    } else {
        no_run()
    }
}

// One operation more, at a place.
fn counted(change: Change, at: u64) -> Change
    ensures { result ≡ counted change at }
{
    Change {
        at,
        count: change.count.wrapping_add(1),
        ..change
    }
}

// A Protect is asked for.
#[tactic(auto, unfolding(crate::specs::Changes::protect))]
fn protect(tracked: bool, stage: Stage, change: Change, at: u64, run: PageRun) -> ChangeStep
    ensures { result ≡ protect tracked stage change at run }
{
    ChangeStep {
        stage,
        change: counted(change, at),
        answer: Answer::Ask(Operation::Protect {
            vtl: change.vtl,
            flags: HvMapGpaFlags::from_bits(change.flags),
            run,
        }),
        written: written_by(tracked, change, run),
        entry: Entry::Keep,
    }
}

// An operation on no page is asked for.
#[tactic(auto, unfolding(crate::specs::Changes::ask))]
fn ask(stage: Stage, change: Change, operation: Operation, entry: Entry) -> ChangeStep
    ensures { result ≡ ask stage change operation entry }
{
    ChangeStep {
        stage,
        change: counted(change, change.at),
        answer: Answer::Ask(operation),
        written: no_run(),
        entry,
    }
}

#[tactic(auto, unfolding(crate::specs::Changes::wait))]
fn wait(change: Change, entry: Entry) -> ChangeStep
    ensures { result ≡ wait change entry }
{
    ask(Stage::Wait, change, Operation::Wait, entry)
}

// The call ends.
#[tactic(auto, unfolding(crate::specs::Changes::finish))]
fn finish(answer: Answer) -> ChangeStep
    ensures { result ≡ finish answer }
{
    ChangeStep {
        stage: Stage::Idle,
        change: no_change(),
        answer,
        written: no_run(),
        entry: Entry::Keep,
    }
}

#[tactic(auto, unfolding(crate::specs::Changes::halt))]
fn halt(change: Change) -> ChangeStep
    ensures { result ≡ halt change }
{
    ChangeStep {
        stage: Stage::Halted,
        change,
        answer: Answer::Halted(change.count),
        written: no_run(),
        entry: Entry::Keep,
    }
}

// An answer that isn't taken: the operation is still outstanding.
#[tactic(auto, unfolding(crate::specs::Changes::keep))]
fn keep(stage: Stage, change: Change) -> ChangeStep
    ensures { result ≡ keep stage change }
{
    ChangeStep {
        stage,
        change,
        answer: Answer::Refused(refusal::NOTHING_ASKED),
        written: no_run(),
        entry: Entry::Keep,
    }
}

// The pages of a table, from the run at a place on.
#[tactic(auto, unfolding(crate::specs::Changes::protect_pages))]
fn protect_pages(tracked: bool, change: Change, pages: &[u64], at: u64) -> ChangeStep
    ensures { result ≡ protect_pages tracked change pages.now at }
{
    if change.n <= at {
        return wait(change, Entry::Keep);
    }
    protect(
        tracked,
        Stage::ProtectPages,
        change,
        at,
        page_list::run_at(pages, change.n, at),
    )
}

// A piece of RAM: none where all are done.
#[tactic(auto, unfolding(crate::specs::Changes::protect_ram))]
fn protect_ram(tracked: bool, change: Change, piece: PageRun) -> ChangeStep
    requires { piece.first + piece.count < 2 ^ 64 }
    ensures { result ≡ protect_ram tracked change piece }
{
    if piece.count == 0 {
        return wait(change, Entry::Keep);
    }
    protect(
        tracked,
        Stage::ProtectRam,
        change,
        piece.first + piece.count,
        piece,
    )
}

// The operation outstanding is done; `next` is the next piece of a default change.
#[tactic(auto, unfolding(crate::specs::Changes::done_of))]
pub fn done(tracked: bool, stage: Stage, change: Change, pages: &[u64], next: PageRun) -> ChangeStep
    requires { next.first + next.count < 2 ^ 64 }
    ensures { result ≡ done_of tracked stage change pages.now next }
{
    match stage {
        Stage::Idle | Stage::Halted => keep(stage, change),
        Stage::ProtectPages => protect_pages(
            tracked,
            change,
            pages,
            request_pages::run_end(pages, change.n, change.at),
        ),
        Stage::ProtectRam => protect_ram(tracked, change, next),
        Stage::ProtectNew => wait(change, Entry::Add),
        Stage::ProtectOld => wait(change, Entry::Remove),
        Stage::Wait => ask(
            Stage::Flush,
            change,
            Operation::Flush(change.flush),
            Entry::Keep,
        ),
        Stage::Flush => ask(
            Stage::TlbWait,
            change,
            Operation::TlbWait(change.vtl),
            Entry::Keep,
        ),
        Stage::TlbWait => finish(Answer::Done(change.count)),
    }
}

// Whether Wait, Flush or TlbWait is outstanding, which write nothing.
pub fn is_flushing(stage: Stage) -> bool
    ensures { result ≡ is_flushing stage }
{
    matches!(stage, Stage::Wait | Stage::Flush | Stage::TlbWait)
}

// The one of them that follows: Idle behind the last.
pub fn flush_stage(stage: Stage) -> Stage
    ensures { result ≡ flush_stage stage }
{
    match stage {
        Stage::Wait => Stage::Flush,
        Stage::Flush => Stage::TlbWait,
        _ => Stage::Idle,
    }
}

// The change that is left at the stage that follows.
pub fn flush_change(stage: Stage, change: Change) -> Change
    ensures { result ≡ flush_change stage change }
{
    match stage {
        Stage::Flush | Stage::TlbWait => counted(change, change.at),
        _ => no_change(),
    }
}

// A failed overlay call: OperationDenied.
fn denied(change: Change) -> ChangeStep
    ensures { result ≡ finish (Failed operation_denied 0 change.count) }
{
    finish(Answer::Failed {
        code: code::OPERATION_DENIED,
        index: 0,
        count: change.count,
    })
}

// The operation outstanding failed.
#[tactic(auto, unfolding(crate::specs::Changes::failed_of))]
pub fn failed(stage: Stage, change: Change) -> ChangeStep
    ensures { result ≡ failed_of stage change }
{
    match stage {
        Stage::ProtectPages | Stage::ProtectRam => halt(change),
        Stage::ProtectNew | Stage::ProtectOld => denied(change),
        _ => keep(stage, change),
    }
}

fn overlay_of(vtl: GuestVtl, gpn: u64, flags: u64, previous: u64, source: u64) -> Change
    ensures { result ≡ overlay_of vtl gpn flags previous source }
{
    Change {
        vtl,
        flush: vtl,
        n: 0,
        at: gpn,
        flags,
        previous,
        source,
        count: 0,
    }
}

// A protection change of the first `count` pages of a table.
pub fn start_pages(
    tracked: bool,
    vtl: GuestVtl,
    flags: u64,
    count: u64,
    pages: &[u64],
) -> ChangeStep
    ensures { result ≡ start_pages tracked vtl flags count pages.now }
{
    protect_pages(tracked, change_of(vtl, flags, count), pages, 0)
}

// A default change, by its first piece.
pub fn start_ram(tracked: bool, vtl: GuestVtl, flags: u64, first: PageRun) -> ChangeStep
    requires { first.first + first.count < 2 ^ 64 }
    ensures { result ≡ start_ram tracked vtl flags first }
{
    protect_ram(tracked, change_of(vtl, flags, 0), first)
}

// A new overlay page; `new` is 16 where no new flags are given.
#[tactic(auto, unfolding(crate::specs::Changes::start_new))]
pub fn start_new(
    tracked: bool,
    vtl: GuestVtl,
    gpn: u64,
    source: u64,
    current: u64,
    new: u64,
) -> ChangeStep
    ensures { result ≡ start_new tracked vtl gpn source current new }
{
    if NO_FLAGS <= new {
        return wait(overlay_of(vtl, gpn, current, current, source), Entry::Add);
    }
    protect(
        tracked,
        Stage::ProtectNew,
        overlay_of(vtl, gpn, new, current, source),
        gpn,
        PageRun {
            first: gpn,
            count: 1,
        },
    )
}

// An overlay page is unregistered.
#[tactic(auto, unfolding(crate::specs::Changes::start_old))]
pub fn start_old(tracked: bool, vtl: GuestVtl, gpn: u64, previous: u64, source: u64) -> ChangeStep
    ensures { result ≡ start_old tracked vtl gpn previous source }
{
    protect(
        tracked,
        Stage::ProtectOld,
        overlay_of(vtl, gpn, previous, previous, source),
        gpn,
        PageRun {
            first: gpn,
            count: 1,
        },
    )
}
