// What a permission query gives: the permissions of a page as the maps have them, or as a VTL has them.
#![tactic(auto)]

ghost use Rattle.std.specs.Prelude.{not, ◌&&◌, ◌≡◌};
ghost use Rattle.abi.specs.Refusals.{refused_by, numbered};
ghost use Rattle.layout.specs.Layout.{entries_of, is_ram};
ghost use Rattle.mapping.specs.Maps.{perms_in, maps_in};
ghost use Rattle.access.specs.Query.{access_refusal, access_permission, lower_refusal, lower_flags, lower_vtl_permissions, permissions_number, permissions_value};

use abi::refusal::Refusal;
use mapping::{MapLengths, PageMaps, PermissionMaps};
use permissions::{GuestVtl, HvMapGpaFlags};

fn access_refusal(fits: bool, tracked: bool) -> Result<(), Refusal>
    ensures { refused_by result ≡ access_refusal fits tracked }
{
    if !fits {
        return Err(Refusal::WrongLength);
    }
    if !tracked {
        return Err(Refusal::Untracked);
    }
    Ok(())
}

// The permissions of a page as the maps have them: none past their end.
#[tactic(auto, using(abi::proofs::Numbers::number_not_zero), unfolding(crate::specs::Query::access_permission))]
pub fn query_access_permission(
    maps: PageMaps<'_>,
    ram: &[u64],
    tracked: bool,
    gpn: u64,
) -> Result<HvMapGpaFlags, Refusal>
    ensures { numbered result ≡ access_permission (entries_of ram.now) (maps_in maps.entry) tracked gpn }
{
    let len = layout::map_len(ram);
    let lengths = MapLengths::of(maps);
    access_refusal(mapping::maps_fit(len, tracked, lengths), tracked)?;
    Ok(mapping::flags_at(maps.permissions, gpn))
}

// 7 in a hole: `inside` tells whether the maps have the page.
fn lower_refusal(ram: &[u64], fits: bool, vtl: u64, gpn: u64, inside: bool) -> Result<(), Refusal>
    ensures { refused_by result ≡ lower_refusal fits vtl (inside && not (is_ram (entries_of ram.now) gpn)) }
{
    if !fits {
        return Err(Refusal::WrongLength);
    }
    if !permissions::is_vtl(vtl) {
        return Err(Refusal::UnfitNumber);
    }
    if inside && !layout::is_in_guest_memory(ram, gpn) {
        return Err(Refusal::NotRam);
    }
    Ok(())
}

// The permissions of a VTL: only VTL0's are tracked.
pub fn lower_flags(
    maps: PermissionMaps<'_>,
    tracked: bool,
    vtl: GuestVtl,
    gpn: u64,
) -> HvMapGpaFlags
    ensures { result ≡ lower_flags (perms_in maps.entry) tracked vtl gpn }
{
    if tracked && permissions::is_vtl0(vtl) {
        return mapping::flags_at(maps, gpn);
    }
    HvMapGpaFlags::all()
}

// The permissions of a page as a VTL has them.
#[tactic(auto, using(abi::proofs::Numbers::number_not_zero), unfolding(crate::specs::Query::lower_vtl_permissions))]
pub fn query_lower_vtl_permissions(
    maps: PageMaps<'_>,
    ram: &[u64],
    tracked: bool,
    vtl: u64,
    gpn: u64,
) -> Result<HvMapGpaFlags, Refusal>
    ensures { numbered result ≡ lower_vtl_permissions (entries_of ram.now) (maps_in maps.entry) tracked vtl gpn }
{
    let len = layout::map_len(ram);
    let lengths = MapLengths::of(maps);
    let fits = mapping::maps_fit(len, tracked, lengths);
    lower_refusal(ram, fits, vtl, gpn, gpn / 8 < len)?;
    let v = permissions::vtl_of(vtl);
    Ok(lower_flags(maps.permissions, tracked, v, gpn))
}

pub fn permissions_number(a: Result<HvMapGpaFlags, u64>) -> u64
    ensures { result ≡ permissions_number a }
{
    a.err().unwrap_or(0)
}

pub fn permissions_value(a: Result<HvMapGpaFlags, u64>) -> u64
    ensures { result ≡ permissions_value a }
{
    match a {
        Ok(f) => f.into_bits(),
        Err(number) => permissions::hv_error(number),
    }
}
