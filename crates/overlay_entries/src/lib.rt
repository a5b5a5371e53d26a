// The calls on overlay pages: register, unregister, and whether a page is one. Every entry takes any lengths, any numbers, any bytes and words.
// Kept, in each entry: the maps one by one, as the C interface lends them.
#![tactic(auto)]

ghost use Rattle.std.specs.Prelude.{◌≡◌, length};
ghost use Rattle.mapping.specs.Maps.{maps};
ghost use Rattle.overlay_table.specs.Overlays.{entry_at, count_words};
ghost use Rattle.call_refusals.specs.Buffers.{buffers, outcome, tables_len, overlays_of};
ghost use Rattle.protector.specs.Writes.{with_overlays};
ghost use Rattle.overlay_entries.specs.Calls.{is_overlay_in, unregister_of, register_of};

use abi::table;
use call_refusals::Lengths;
use mapping::{PermissionMaps, PermissionMapsMut};
use overlay_table::OverlayPage;
use permissions::GuestVtl;
use protector_state::{Reply, Value};

// The entry at a place.
fn entry_of(tables: &[u64], vtl: GuestVtl, place: u64) -> OverlayPage
    requires { length tables.now ≡ tables_len }
    ensures { result ≡ entry_at (overlays_of tables.now vtl) place }
{
    overlay_table::entry_at(call_refusals::overlays_of(tables, vtl), place)
}

// Another count in the entry at a place.
fn set_ref_count(tables: &mut [u64], vtl: GuestVtl, place: u64, count: u64)
    requires { length tables.old ≡ tables_len }
    ensures { tables.new ≡ with_overlays tables.old vtl (count_words (overlays_of tables.old vtl) place count) }
{
    let start = call_refusals::overlays_start(vtl);
    let overlays = &mut tables[start..start + table::OVERLAYS_WORDS];
    overlay_table::set_count(overlays, place, count);
}

// Whether a VTL has an overlay entry of a page, 1 or 0. Nothing is written, and no operation is asked for.
#[tactic(auto, using(abi::proofs::Numbers::number_not_zero, crate::proofs::Laws::query_tables), unfolding(crate::specs::Calls::is_overlay_in))]
pub fn protector_is_overlay_page(state: &[u64], tables: &[u64], vtl: u64, gpn: u64) -> Value
    ensures { result ≡ is_overlay_in state.now tables.now vtl gpn }
{
    if let Err(refusal) = overlay_refusals::table_refusal(state, tables.len() as u64, vtl) {
        return protector_state::refused_value(refusal.number());
    }
    let v = permissions::vtl_of(vtl);
    let place = overlay_table::find_entry(call_refusals::overlays_of(tables, v), gpn);
    protector_state::ok_value(permissions::bool_to_u64(place.is_some()))
}

// An overlay page has one registration fewer. The last one asks for a Protect with the flags that the page had, then for Wait,
// Flush and TlbWait; the entry goes as the Protect is done. A refusal changes nothing.
#[tactic(auto, using(abi::proofs::Numbers::number_not_zero, crate::proofs::Laws::unregister_state), unfolding(crate::specs::Calls::unregister_of))]
pub fn protector_unregister_overlay_page(
    private: &[u8],
    shared: &[u8],
    read: &mut [u8],
    write: &mut [u8],
    kernel: &mut [u8],
    user: &mut [u8],
    state: &mut [u64],
    pages: &[u64],
    tables: &mut [u64],
    vtl: u64,
    gpn: u64,
) -> Reply
    ensures { outcome (maps private.now shared.now read.new write.new kernel.new user.new) state.new pages.now tables.new result
        ≡ unregister_of (buffers (maps private.now shared.now read.old write.old kernel.old user.old) state.old pages.now tables.old) vtl gpn }
{
    let lengths = Lengths::of(private, shared, read, write, kernel, user, pages, tables);
    let place = match overlay_refusals::look_unregister(state, lengths, tables, vtl, gpn) {
        Ok(place) => place,
        Err(refusal) => return protector_state::refused(refusal.number()),
    };
    let v = permissions::vtl_of(vtl);
    let e = entry_of(tables, v, place);
    if 1 < e.ref_count {
        set_ref_count(tables, v, place, e.ref_count - 1);
        return protector_state::finished(0, 0, 0, 0);
    }
    let set = protector_state::settings(state);
    let isolation = set.isolation;
    let x = change_steps::start_old(set.tracked, v, gpn, e.previous_permissions, e.gpn_source);
    let mut maps = PermissionMapsMut {
        read,
        write,
        kernel,
        user,
    };
    change_writes::apply_step(&mut maps, state, tables, isolation, x)
}

// An overlay page has one registration more. The first one asks for a Protect if new flags are given, then for Wait, Flush and
// TlbWait; the entry comes as Wait is asked for. A refusal changes nothing.
#[tactic(auto, using(abi::proofs::Numbers::number_not_zero, crate::proofs::Laws::register_state), unfolding(crate::specs::Calls::register_of))]
pub fn protector_register_overlay_page(
    private: &[u8],
    shared: &[u8],
    read: &mut [u8],
    write: &mut [u8],
    kernel: &mut [u8],
    user: &mut [u8],
    state: &mut [u64],
    pages: &[u64],
    tables: &mut [u64],
    vtl: u64,
    gpn: u64,
    source: u64,
    checked: u64,
    new: u64,
) -> Reply
    ensures { outcome (maps private.now shared.now read.new write.new kernel.new user.new) state.new pages.now tables.new result
        ≡ register_of (buffers (maps private.now shared.now read.old write.old kernel.old user.old) state.old pages.now tables.old) vtl gpn source checked new }
{
    let v = permissions::vtl_of(vtl);
    let permissions = PermissionMaps {
        read,
        write,
        kernel,
        user,
    };
    let current = overlay_refusals::current_flags(permissions, state, v, gpn, source);
    let lengths = Lengths::of(private, shared, read, write, kernel, user, pages, tables);
    let known = match overlay_refusals::look_register(
        state, lengths, shared, tables, current, vtl, gpn, source, checked, new,
    ) {
        Ok(known) => known,
        Err(refusal) => return protector_state::refused(refusal.number()),
    };
    if let Some(place) = known {
        let e = entry_of(tables, v, place);
        set_ref_count(tables, v, place, e.ref_count + 1);
        return protector_state::finished(0, 0, 0, 0);
    }
    let set = protector_state::settings(state);
    let isolation = set.isolation;
    let bits = current.into_bits();
    let x = change_steps::start_new(set.tracked, v, gpn, source, bits, new);
    let mut maps = PermissionMapsMut {
        read,
        write,
        kernel,
        user,
    };
    change_writes::apply_step(&mut maps, state, tables, isolation, x)
}
