// The calls on overlay pages, as `overlay_entries` has them.

ghost use Rattle.std.specs.Prelude.{◌≡◌};
ghost use Rattle.mapping.specs.Maps.{maps};
ghost use Rattle.call_refusals.specs.Buffers.{buffers, outcome};
ghost use Rattle.overlay_entries.specs.Calls.{is_overlay_in, unregister_of, register_of};

use protector_state::{Reply, Value};

#[unsafe(no_mangle)]
pub extern "C" fn protector_is_overlay_page(
    state: &[u64],
    tables: &[u64],
    vtl: u64,
    gpn: u64,
) -> Value
    ensures { result ≡ is_overlay_in state.now tables.now vtl gpn }
{
    overlay_entries::protector_is_overlay_page(state, tables, vtl, gpn)
}

#[unsafe(no_mangle)]
pub extern "C" fn protector_unregister_overlay_page(
    private: &[u8],
    shared: &[u8],
    read: &mut [u8],
    write: &mut [u8],
    kernel: &mut [u8],
    user: &mut [u8],
    state: &mut [u64],
    pages: &[u64],
    tables: &mut [u64],
    vtl: u64,
    gpn: u64,
) -> Reply
    ensures { outcome (maps private.now shared.now read.new write.new kernel.new user.new) state.new pages.now tables.new result
        ≡ unregister_of (buffers (maps private.now shared.now read.old write.old kernel.old user.old) state.old pages.now tables.old) vtl gpn }
{
    overlay_entries::protector_unregister_overlay_page(
        private, shared, read, write, kernel, user, state, pages, tables, vtl, gpn,
    )
}

#[unsafe(no_mangle)]
pub extern "C" fn protector_register_overlay_page(
    private: &[u8],
    shared: &[u8],
    read: &mut [u8],
    write: &mut [u8],
    kernel: &mut [u8],
    user: &mut [u8],
    state: &mut [u64],
    pages: &[u64],
    tables: &mut [u64],
    vtl: u64,
    gpn: u64,
    source: u64,
    checked: u64,
    new: u64,
) -> Reply
    ensures { outcome (maps private.now shared.now read.new write.new kernel.new user.new) state.new pages.now tables.new result
        ≡ register_of (buffers (maps private.now shared.now read.old write.old kernel.old user.old) state.old pages.now tables.old) vtl gpn source checked new }
{
    overlay_entries::protector_register_overlay_page(
        private, shared, read, write, kernel, user, state, pages, tables, vtl, gpn, source,
        checked, new,
    )
}
