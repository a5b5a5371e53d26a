// The registrar's calls, as `registrar` has them.

ghost use Rattle.std.specs.Prelude.{◌≡◌};
ghost use Rattle.registrar_state.specs.Buffers.{buffers, outcome, build_of, register_of, all_of, failed_of, done_of};

use registrar_state::Reply;

#[unsafe(no_mangle)]
pub extern "C" fn registrar_build(
    ram: &[u64],
    offset: u64,
    granularity: u64,
    state: &mut [u64],
    registered: &mut [u64],
    failed: &mut [u64],
) -> Reply
    ensures { outcome state.new registered.new failed.new result ≡ build_of (buffers state.old registered.old failed.old) ram.now offset granularity }
{
    registrar::registrar_build(ram, offset, granularity, state, registered, failed)
}

#[unsafe(no_mangle)]
pub extern "C" fn registrar_register(
    state: &mut [u64],
    registered: &mut [u64],
    failed: &mut [u64],
    address: u64,
    len: u64,
) -> Reply
    ensures { outcome state.new registered.new failed.new result ≡ register_of (buffers state.old registered.old failed.old) address len }
{
    registrar::registrar_register(state, registered, failed, address, len)
}

#[unsafe(no_mangle)]
pub extern "C" fn registrar_register_all_aligned(
    state: &mut [u64],
    registered: &mut [u64],
    failed: &mut [u64],
    alignment: u64,
    ignore_unaligned_ranges: u64,
) -> Reply
    ensures { outcome state.new registered.new failed.new result ≡ all_of (buffers state.old registered.old failed.old) alignment ignore_unaligned_ranges }
{
    registrar::registrar_register_all_aligned(
        state,
        registered,
        failed,
        alignment,
        ignore_unaligned_ranges,
    )
}

#[unsafe(no_mangle)]
pub extern "C" fn registrar_answer_done(
    state: &mut [u64],
    registered: &mut [u64],
    failed: &mut [u64],
) -> Reply
    ensures { outcome state.new registered.new failed.new result ≡ done_of (buffers state.old registered.old failed.old) }
{
    registrar::registrar_answer_done(state, registered, failed)
}

#[unsafe(no_mangle)]
pub extern "C" fn registrar_answer_failed(
    state: &mut [u64],
    registered: &mut [u64],
    failed: &mut [u64],
) -> Reply
    ensures { outcome state.new registered.new failed.new result ≡ failed_of (buffers state.old registered.old failed.old) }
{
    registrar::registrar_answer_failed(state, registered, failed)
}
