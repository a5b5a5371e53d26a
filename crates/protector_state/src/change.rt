// A protection change, a default change or an overlay call under way, in the state block of the protector.
ghost use Rattle.std.specs.Prelude.{◌≡◌, length};
ghost use Rattle.protector_state.specs.State.{state_len};
ghost use Rattle.protector_state.specs.Changing.{stage_number, stage_of, stage_in, is_changing, change_in, with_change};

use abi::{limit, phase, place, stage};
use change_steps::{Change, Stage};

fn stage_number(stage: Stage) -> u64
    ensures { result ≡ stage_number stage }
{
    match stage {
        Stage::Idle => phase::IDLE,
        Stage::Halted => phase::HALTED,
        Stage::ProtectPages => stage::PROTECT_PAGES,
        Stage::ProtectRam => stage::PROTECT_RAM,
        Stage::ProtectNew => stage::PROTECT_NEW,
        Stage::ProtectOld => stage::PROTECT_OLD,
        Stage::Wait => stage::WAIT,
        Stage::Flush => stage::FLUSH,
        Stage::TlbWait => stage::TLB_WAIT,
    }
}

#[tactic(auto, unfolding(crate::specs::Changing::stage_of))]
fn stage_of(n: u64) -> Stage
    ensures { result ≡ stage_of n }
{
    match n {
        stage::PROTECT_PAGES => Stage::ProtectPages,
        stage::PROTECT_RAM => Stage::ProtectRam,
        stage::PROTECT_NEW => Stage::ProtectNew,
        stage::PROTECT_OLD => Stage::ProtectOld,
        stage::WAIT => Stage::Wait,
        stage::FLUSH => Stage::Flush,
        stage::TLB_WAIT => Stage::TlbWait,
        _ => Stage::Halted,
    }
}

pub fn stage(state: &[u64]) -> Stage
    requires { length state.now ≡ state_len }
    ensures { result ≡ stage_in state.now }
{
    stage_of(state[place::PHASE])
}

// Whether a change other than of visibility is under way.
pub fn is_changing(state: &[u64]) -> bool
    requires { length state.now ≡ state_len }
    ensures { result ≡ is_changing state.now }
{
    stage::PROTECT_PAGES <= state[place::PHASE] && state[place::PHASE] < stage::END
}

pub fn load(state: &[u64]) -> Change
    requires { length state.now ≡ state_len }
    ensures { result ≡ change_in state.now }
{
    Change {
        vtl: permissions::vtl_of(state[place::VTL]),
        flush: permissions::vtl_of(state[place::FLUSH]),
        n: numbers::min(state[place::USED], limit::LISTED_PAGES),
        at: state[place::AT],
        flags: state[place::FLAGS],
        previous: state[place::PREVIOUS],
        source: state[place::SOURCE],
        count: state[place::COUNT],
    }
}

pub fn save(state: &mut [u64], stage: Stage, change: Change)
    requires { length state.old ≡ state_len }
    ensures { state.new ≡ with_change stage change state.old }
{
    state[place::PHASE] = stage_number(stage);
    state[place::SHARE] = 0;
    state[place::VTL] = permissions::vtl_number(change.vtl);
    state[place::USED] = change.n;
    state[place::AT] = change.at;
    state[place::STOPPED] = 0;
    state[place::FAILED] = 0;
    state[place::INDEX] = 0;
    state[place::CODE] = 0;
    state[place::COUNT] = change.count;
    state[place::FLUSH] = permissions::vtl_number(change.flush);
    state[place::FLAGS] = change.flags;
    state[place::PREVIOUS] = change.previous;
    state[place::SOURCE] = change.source;
}
