// What is set of VTL1's protections, as `setting_entries` has it.

ghost use Rattle.std.specs.Prelude.{◌≡◌};
ghost use Rattle.setting_entries.specs.Calls.{enabled, enable_of, enabled_in, default_in};

use protector_state::{Reply, Value};

#[unsafe(no_mangle)]
pub extern "C" fn protector_set_vtl1_protections_enabled(state: &mut [u64]) -> Reply
    ensures { enabled state.new result ≡ enable_of state.old }
{
    setting_entries::protector_set_vtl1_protections_enabled(state)
}

#[unsafe(no_mangle)]
pub extern "C" fn protector_vtl1_protections_enabled(state: &[u64]) -> Value
    ensures { result ≡ enabled_in state.now }
{
    setting_entries::protector_vtl1_protections_enabled(state)
}

#[unsafe(no_mangle)]
pub extern "C" fn protector_default_vtl0_protections(state: &[u64]) -> Value
    ensures { result ≡ default_in state.now }
{
    setting_entries::protector_default_vtl0_protections(state)
}
