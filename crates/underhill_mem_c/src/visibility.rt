// Build, visibility changes, answers, queries and faults, as `underhill_mem` has them.

ghost use Rattle.std.specs.Prelude.{◌≡◌};
ghost use Rattle.mapping.specs.Maps.{maps};
ghost use Rattle.call_refusals.specs.Buffers.{buffers, outcome};
ghost use Rattle.protector.specs.Calls.{build_of, visibility_of, answer_done, answer_failed};
ghost use Rattle.queries.specs.Queries.{query, query_of, fault_in, lower_in, access_in};

use protector_state::{Reply, Value};

#[unsafe(no_mangle)]
pub extern "C" fn protector_build(
    ram: &[u64],
    isolation: u64,
    tracked: u64,
    release: u64,
    private: &mut [u8],
    shared: &mut [u8],
    read: &mut [u8],
    write: &mut [u8],
    kernel: &mut [u8],
    user: &mut [u8],
    state: &mut [u64],
    pages: &mut [u64],
    tables: &mut [u64],
) -> Reply
    ensures { outcome (maps private.new shared.new read.new write.new kernel.new user.new) state.new pages.new tables.new result
        ≡ build_of (buffers (maps private.old shared.old read.old write.old kernel.old user.old) state.old pages.old tables.old) ram.now isolation tracked release }
{
    underhill_mem::protector_build(
        ram, isolation, tracked, release, private, shared, read, write, kernel, user, state, pages,
        tables,
    )
}

#[unsafe(no_mangle)]
pub extern "C" fn protector_change_host_visibility(
    private: &mut [u8],
    shared: &mut [u8],
    read: &mut [u8],
    write: &mut [u8],
    kernel: &mut [u8],
    user: &mut [u8],
    state: &mut [u64],
    pages: &mut [u64],
    tables: &[u64],
    vtl: u64,
    visibility: u64,
    list: &[u8],
) -> Reply
    ensures { outcome (maps private.new shared.new read.new write.new kernel.new user.new) state.new pages.new tables.now result
        ≡ visibility_of (buffers (maps private.old shared.old read.old write.old kernel.old user.old) state.old pages.old tables.now) vtl visibility list.now }
{
    underhill_mem::protector_change_host_visibility(
        private, shared, read, write, kernel, user, state, pages, tables, vtl, visibility, list,
    )
}

#[unsafe(no_mangle)]
pub extern "C" fn protector_answer_done(
    private: &mut [u8],
    shared: &mut [u8],
    read: &mut [u8],
    write: &mut [u8],
    kernel: &mut [u8],
    user: &mut [u8],
    state: &mut [u64],
    pages: &mut [u64],
    tables: &mut [u64],
) -> Reply
    ensures { outcome (maps private.new shared.new read.new write.new kernel.new user.new) state.new pages.new tables.new result
        ≡ answer_done (buffers (maps private.old shared.old read.old write.old kernel.old user.old) state.old pages.old tables.old) }
{
    underhill_mem::protector_answer_done(
        private, shared, read, write, kernel, user, state, pages, tables,
    )
}

#[unsafe(no_mangle)]
pub extern "C" fn protector_answer_failed(
    private: &mut [u8],
    shared: &mut [u8],
    read: &mut [u8],
    write: &mut [u8],
    kernel: &mut [u8],
    user: &mut [u8],
    state: &mut [u64],
    pages: &mut [u64],
    tables: &mut [u64],
    code: u16,
    processed: u64,
) -> Reply
    ensures { outcome (maps private.new shared.new read.new write.new kernel.new user.new) state.new pages.new tables.new result
        ≡ answer_failed (buffers (maps private.old shared.old read.old write.old kernel.old user.old) state.old pages.old tables.old) code processed }
{
    underhill_mem::protector_answer_failed(
        private, shared, read, write, kernel, user, state, pages, tables, code, processed,
    )
}

#[unsafe(no_mangle)]
pub extern "C" fn protector_query_host_visibility(
    state: &[u64],
    shared: &[u8],
    list: &[u8],
    out: &mut [u8],
) -> Reply
    ensures { query out.new result ≡ query_of state.now shared.now list.now out.old }
{
    underhill_mem::protector_query_host_visibility(state, shared, list, out)
}

#[unsafe(no_mangle)]
pub extern "C" fn protector_page_fault(
    private: &[u8],
    shared: &[u8],
    read: &[u8],
    write: &[u8],
    kernel: &[u8],
    user: &[u8],
    state: &[u64],
    mapping: u64,
    view: u64,
    address: u64,
    writes: u64,
    failure: u64,
) -> Value
    ensures { result ≡ fault_in state.now (maps private.now shared.now read.now write.now kernel.now user.now) mapping view address writes failure }
{
    underhill_mem::protector_page_fault(
        private, shared, read, write, kernel, user, state, mapping, view, address, writes, failure,
    )
}

#[unsafe(no_mangle)]
pub extern "C" fn protector_query_lower_vtl_permissions(
    private: &[u8],
    shared: &[u8],
    read: &[u8],
    write: &[u8],
    kernel: &[u8],
    user: &[u8],
    state: &[u64],
    vtl: u64,
    gpn: u64,
) -> Value
    ensures { result ≡ lower_in state.now (maps private.now shared.now read.now write.now kernel.now user.now) vtl gpn }
{
    underhill_mem::protector_query_lower_vtl_permissions(
        private, shared, read, write, kernel, user, state, vtl, gpn,
    )
}

#[unsafe(no_mangle)]
pub extern "C" fn protector_query_access_permission(
    private: &[u8],
    shared: &[u8],
    read: &[u8],
    write: &[u8],
    kernel: &[u8],
    user: &[u8],
    state: &[u64],
    gpn: u64,
) -> Value
    ensures { result ≡ access_in state.now (maps private.now shared.now read.now write.now kernel.now user.now) gpn }
{
    underhill_mem::protector_query_access_permission(
        private, shared, read, write, kernel, user, state, gpn,
    )
}
