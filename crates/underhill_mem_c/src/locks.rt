// The calls that lock and unlock lists of pages, as `lock_entries` has them.

ghost use Rattle.std.specs.Prelude.{◌≡◌};
ghost use Rattle.lock_entries.specs.Calls.{kept, lock_of, unlock_of};

use protector_state::Reply;

#[unsafe(no_mangle)]
pub extern "C" fn protector_lock_gpns(
    state: &[u64],
    tables: &mut [u64],
    vtl: u64,
    list: &[u8],
) -> Reply
    ensures { kept tables.new result ≡ lock_of state.now tables.old vtl list.now }
{
    lock_entries::protector_lock_gpns(state, tables, vtl, list)
}

#[unsafe(no_mangle)]
pub extern "C" fn protector_unlock_gpns(
    state: &[u64],
    tables: &mut [u64],
    vtl: u64,
    list: &[u8],
) -> Reply
    ensures { kept tables.new result ≡ unlock_of state.now tables.old vtl list.now }
{
    lock_entries::protector_unlock_gpns(state, tables, vtl, list)
}
