// The changes of protections, as `protection_entries` has them.

ghost use Rattle.std.specs.Prelude.{◌≡◌};
ghost use Rattle.mapping.specs.Maps.{maps};
ghost use Rattle.call_refusals.specs.Buffers.{buffers, outcome};
ghost use Rattle.protection_entries.specs.Calls.{default_of, protection_of};

use protector_state::Reply;

#[unsafe(no_mangle)]
pub extern "C" fn protector_change_default_vtl_protections(
    private: &[u8],
    shared: &[u8],
    read: &mut [u8],
    write: &mut [u8],
    kernel: &mut [u8],
    user: &mut [u8],
    state: &mut [u64],
    pages: &[u64],
    tables: &mut [u64],
    vtl: u64,
    flags: u64,
) -> Reply
    ensures { outcome (maps private.now shared.now read.new write.new kernel.new user.new) state.new pages.now tables.new result
        ≡ default_of (buffers (maps private.now shared.now read.old write.old kernel.old user.old) state.old pages.now tables.old) vtl flags }
{
    protection_entries::protector_change_default_vtl_protections(
        private, shared, read, write, kernel, user, state, pages, tables, vtl, flags,
    )
}

#[unsafe(no_mangle)]
pub extern "C" fn protector_change_vtl_protections(
    private: &[u8],
    shared: &[u8],
    read: &mut [u8],
    write: &mut [u8],
    kernel: &mut [u8],
    user: &mut [u8],
    state: &mut [u64],
    pages: &mut [u64],
    tables: &[u64],
    vtl: u64,
    flags: u64,
    list: &[u8],
) -> Reply
    ensures { outcome (maps private.now shared.now read.new write.new kernel.new user.new) state.new pages.new tables.now result
        ≡ protection_of (buffers (maps private.now shared.now read.old write.old kernel.old user.old) state.old pages.old tables.now) vtl flags list.now }
{
    protection_entries::protector_change_vtl_protections(
        private, shared, read, write, kernel, user, state, pages, tables, vtl, flags, list,
    )
}
