// The protector's entries for VTL1's protections: the setter, its getter, and the default of VTL0. Each takes any length and any words.
#![tactic(auto)]

ghost use Rattle.std.specs.Prelude.{◌≡◌};
ghost use Rattle.abi.specs.Refusals.{refused_by};
ghost use Rattle.setting_entries.specs.Calls.{enable_refusal, enabled, enable_of, enabled_in, default_in};

use abi::place;
use abi::refusal::Refusal;
use protector_state::{Reply, Value};

// What refuses the setter.
#[tactic(auto, using(abi::proofs::Numbers::number_not_zero, call_refusals::proofs::Laws::is_ready), unfolding(crate::specs::Calls::enable_refusal, call_refusals::specs::Refusals::ready))]
fn enable_refusal(state: &[u64]) -> Result<(), Refusal>
    ensures { refused_by result ≡ enable_refusal state.now }
{
    call_refusals::state_refusal(state)?;
    if state[place::TRACKED] != 1 {
        return Err(Refusal::Untracked);
    }
    Ok(())
}

// VTL1's protections are enabled: 24 where permissions aren't tracked. No operation is asked for, and a refusal changes
// nothing.
#[tactic(auto, using(abi::proofs::Numbers::number_not_zero, call_refusals::proofs::Laws::is_ready), unfolding(crate::specs::Calls::enable_of, crate::specs::Calls::enable_refusal))]
pub fn protector_set_vtl1_protections_enabled(state: &mut [u64]) -> Reply
    ensures { enabled state.new result ≡ enable_of state.old }
{
    if let Err(refusal) = enable_refusal(state) {
        return protector_state::refused(refusal.number());
    }
    state[place::ENABLED] = 1;
    protector_state::finished(0, 0, 0, 0)
}

// Whether VTL1's protections are enabled, 1 or 0. Nothing is written, and no operation is asked for.
#[tactic(auto, using(abi::proofs::Numbers::number_not_zero, call_refusals::proofs::Laws::is_ready), unfolding(crate::specs::Calls::enabled_in))]
pub fn protector_vtl1_protections_enabled(state: &[u64]) -> Value
    ensures { result ≡ enabled_in state.now }
{
    if let Err(refusal) = call_refusals::state_refusal(state) {
        return protector_state::refused_value(refusal.number());
    }
    let enabled = protector_state::settings(state).enabled;
    protector_state::ok_value(permissions::bool_to_u64(enabled))
}

// The flags of VTL0's default. Nothing is written, and no operation is asked for.
#[tactic(auto, using(abi::proofs::Numbers::number_not_zero, call_refusals::proofs::Laws::is_ready), unfolding(crate::specs::Calls::default_in))]
pub fn protector_default_vtl0_protections(state: &[u64]) -> Value
    ensures { result ≡ default_in state.now }
{
    if let Err(refusal) = call_refusals::state_refusal(state) {
        return protector_state::refused_value(refusal.number());
    }
    let flags = protector_state::settings(state).defaults.vtl0;
    protector_state::ok_value(flags.into_bits())
}
