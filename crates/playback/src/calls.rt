// A recorded call put to the entry of its kind.
ghost use Rattle.std.specs.Prelude.{◌≡◌, ◌≤◌};
ghost use Rattle.queries.specs.Queries.{query_of};
ghost use Rattle.lock_entries.specs.Calls.{lock_of, unlock_of};
ghost use Rattle.setting_entries.specs.Calls.{enable_of};
ghost use Rattle.overlay_entries.specs.Calls.{is_overlay_in};
ghost use Rattle.playback.specs.Buffers.{map_bytes, bytes_in, lent_of, after, valued};
ghost use Rattle.playback.specs.Calls.{build_of, change_in, change_of, kept_in, enabled_of, queried_of, out_of, setting_of, look_value, look_of, call_of};

use crate::buffers::{Buffers, Call, OUT_BYTES, UNWRITTEN};
use crate::{buffers, entries};
use protector_state::Value;
use recording::{digest, kind};

fn valued(buffers: &mut Buffers, r: Value)
    ensures { buffers.new ≡ valued buffers.old r }
{
    buffers.reply = protector_state::finished(r.number, 0, r.value, 0);
}

#[tactic(auto, unfolding(crate::specs::Calls::change_in))]
fn change_in(buffers: &mut Buffers, n: usize, c: Call, list: &[u8])
    requires { n ≤ map_bytes }
    ensures { buffers.new ≡ after n buffers.old (change_in (lent_of n buffers.old) c list.now) }
{
    match c.kind {
        kind::CHANGE_HOST_VISIBILITY => entries::visibility(buffers, n, c, list),
        kind::CHANGE_VTL_PROTECTIONS => entries::protections(buffers, n, c, list),
        kind::CHANGE_DEFAULT_VTL_PROTECTIONS => entries::default(buffers, n, c),
        kind::REGISTER_OVERLAY_PAGE => entries::register(buffers, n, c),
        _ => entries::unregister(buffers, n, c),
    }
}

fn change(buffers: &mut Buffers, c: Call, list: &[u8])
    ensures { buffers.new ≡ change_of buffers.old c list.now }
{
    let n = buffers::bytes_in(buffers);
    change_in(buffers, n, c, list);
}

// A build.
pub fn build(buffers: &mut Buffers, c: Call, ram: &[u64])
    ensures { buffers.new ≡ build_of buffers.old c ram.now }
{
    entries::build(buffers, buffers::bytes_if(c.b), c, ram);
}

// Kept: `lock` beside `unlock`, each a call of its entry with the clause of its definition.
fn lock(buffers: &mut Buffers, c: Call, list: &[u8])
    ensures { buffers.new ≡ kept_in buffers.old (lock_of buffers.old.state buffers.old.tables c.a list.now) }
{
    buffers.reply = lock_entries::protector_lock_gpns(
        &buffers.state,
        &mut buffers.tables,
        c.a,
        list,
    );
}

fn unlock(buffers: &mut Buffers, c: Call, list: &[u8])
    ensures { buffers.new ≡ kept_in buffers.old (unlock_of buffers.old.state buffers.old.tables c.a list.now) }
{
    buffers.reply = lock_entries::protector_unlock_gpns(
        &buffers.state,
        &mut buffers.tables,
        c.a,
        list,
    );
}

fn enable(buffers: &mut Buffers)
    ensures { buffers.new ≡ enabled_of buffers.old (enable_of buffers.old.state) }
{
    buffers.reply = setting_entries::protector_set_vtl1_protections_enabled(&mut buffers.state);
}

fn is_overlay(buffers: &mut Buffers, c: Call)
    ensures { buffers.new ≡ valued buffers.old (is_overlay_in buffers.old.state buffers.old.tables c.a c.b) }
{
    let seen = overlay_entries::protector_is_overlay_page(
        &buffers.state,
        &buffers.tables,
        c.a,
        c.b,
    );
    valued(buffers, seen);
}

fn setting_in(state: &[u64], c: Call) -> Value
    ensures { result ≡ setting_of state.now c }
{
    if c.kind == kind::VTL1_PROTECTIONS_ENABLED {
        setting_entries::protector_vtl1_protections_enabled(state)
    } else {
        setting_entries::protector_default_vtl0_protections(state)
    }
}

fn setting(buffers: &mut Buffers, c: Call)
    ensures { buffers.new ≡ valued buffers.old (setting_of buffers.old.state c) }
{
    let seen = setting_in(&buffers.state, c);
    valued(buffers, seen);
}

// The output goes into the digest.
fn query_in(buffers: &mut Buffers, list: &[u8], out: &mut [u8])
    ensures { buffers.new ≡ queried_of buffers.old (query_of buffers.old.state buffers.old.shared list.now out.old) }
{
    buffers.reply = underhill_mem::protector_query_host_visibility(
        &buffers.state,
        &buffers.shared,
        list,
        out,
    );
    buffers.asked = digest::bytes(buffers.asked, out);
}

fn query(buffers: &mut Buffers, c: Call, list: &[u8])
    ensures { buffers.new ≡ queried_of buffers.old (query_of buffers.old.state buffers.old.shared list.now (out_of c)) }
{
    let mut out = [UNWRITTEN; OUT_BYTES];
    let n = c.a.min(OUT_BYTES as u64) as usize;
    query_in(buffers, list, &mut out[..n]);
}

#[tactic(auto, unfolding(crate::specs::Calls::look_value))]
fn look_in(buffers: &Buffers, c: Call) -> Value
    ensures { result ≡ look_value buffers.now.state (lent_of (bytes_in buffers.now) buffers.now).maps c }
{
    let n = buffers::bytes_in(buffers);
    let private = &buffers.private;
    let shared = &buffers.shared;
    let read = &buffers.read[..n];
    let write = &buffers.write[..n];
    let kernel = &buffers.kernel[..n];
    let user = &buffers.user[..n];
    let state = &buffers.state;
    match c.kind {
        kind::PAGE_FAULT => underhill_mem::protector_page_fault(
            private, shared, read, write, kernel, user, state, c.a, c.b, c.c, c.d, c.e,
        ),
        kind::QUERY_LOWER_VTL_PERMISSIONS => underhill_mem::protector_query_lower_vtl_permissions(
            private, shared, read, write, kernel, user, state, c.a, c.b,
        ),
        _ => underhill_mem::protector_query_access_permission(
            private, shared, read, write, kernel, user, state, c.a,
        ),
    }
}

fn look(buffers: &mut Buffers, c: Call)
    ensures { buffers.new ≡ look_of buffers.old c }
{
    let seen = look_in(buffers, c);
    valued(buffers, seen);
}

// A call that is no build, before its operations are answered.
#[tactic(auto, unfolding(crate::specs::Calls::call_of))]
pub fn call(buffers: &mut Buffers, c: Call, list: &[u8])
    ensures { buffers.new ≡ call_of buffers.old c list.now }
{
    match c.kind {
        kind::BUILD..=kind::UNREGISTER_OVERLAY_PAGE => change(buffers, c, list),
        kind::LOCK_GPNS => lock(buffers, c, list),
        kind::UNLOCK_GPNS => unlock(buffers, c, list),
        kind::SET_VTL1_PROTECTIONS_ENABLED => enable(buffers),
        kind::VTL1_PROTECTIONS_ENABLED | kind::DEFAULT_VTL0_PROTECTIONS => setting(buffers, c),
        kind::IS_OVERLAY_PAGE => is_overlay(buffers, c),
        kind::QUERY_HOST_VISIBILITY => query(buffers, c, list),
        _ => look(buffers, c),
    }
}
