// A page fault on a mapping of the guest's memory.
#![tactic(auto)]

ghost use Rattle.std.specs.Prelude.{◌≡◌};
ghost use Rattle.abi.specs.Refusals.{refused_by, numbered};
ghost use Rattle.bitmap.specs.Pages.{bit_at};
ghost use Rattle.layout.specs.Layout.{entries_of};
ghost use Rattle.mapping.specs.Maps.{perms_in, maps_in};
ghost use Rattle.fault.specs.Fault.{mapping_of, view_of, access_map, fault_of, fault_refusal, page_fault, fault_number, fault_value};

use abi::refusal::Refusal;
use abi::{PAGE_SIZE, action, memory_type, read_type};
use mapping::{MapLengths, PageMaps, PermissionMaps};

#[derive(Clone, Copy, Debug, PartialEq, Eq)]
pub enum GuestValidMemoryType {
    Shared,
    Encrypted,
}

// What the view of a fault may do.
#[derive(Clone, Copy, Debug, PartialEq, Eq)]
pub enum GuestMemoryViewReadType {
    Read,
    KernelExecute,
    UserExecute,
}

// What a fault gives.
#[derive(Clone, Copy, Debug, PartialEq, Eq)]
pub enum PageFaultAction {
    Retry,
    NotMapped,
    NotShared,
    NotPrivate,
    VtlProtected,
}

fn mapping_of(n: u64) -> GuestValidMemoryType
    ensures { result ≡ mapping_of n }
{
    match n {
        memory_type::ENCRYPTED => GuestValidMemoryType::Encrypted,
        _ => GuestValidMemoryType::Shared,
    }
}

fn view_of(n: u64) -> GuestMemoryViewReadType
    ensures { result ≡ view_of n }
{
    match n {
        read_type::READ => GuestMemoryViewReadType::Read,
        read_type::KERNEL_EXECUTE => GuestMemoryViewReadType::KernelExecute,
        _ => GuestMemoryViewReadType::UserExecute,
    }
}

// Whether the permission maps allow an access to a page: a write by the write map, else by the view's.
// Kept, in the fault too: the view as a number until a map is chosen: an enum from the start takes ten instructions more a fault.
fn is_allowed(maps: PermissionMaps<'_>, view: u64, gpn: u64, writes: bool) -> bool
    ensures { result ≡ bit_at 8 (access_map (view_of view) writes (perms_in maps.entry)) gpn }
{
    if writes {
        return bitmap::page_state(maps.write, gpn);
    }
    match view_of(view) {
        GuestMemoryViewReadType::Read => bitmap::page_state(maps.read, gpn),
        GuestMemoryViewReadType::KernelExecute => bitmap::page_state(maps.kernel, gpn),
        GuestMemoryViewReadType::UserExecute => bitmap::page_state(maps.user, gpn),
    }
}

// A fault on a page: past the maps it has no mark.
#[tactic(auto, unfolding(crate::specs::Fault::fault_of))]
fn fault_action(
    maps: PageMaps<'_>,
    tracked: bool,
    mapping: GuestValidMemoryType,
    view: u64,
    gpn: u64,
    writes: bool,
    failure: bool,
) -> PageFaultAction
    ensures { result ≡ fault_of (maps_in maps.entry) tracked mapping (view_of view) gpn writes failure }
{
    if !failure {
        return PageFaultAction::NotMapped;
    }
    match mapping {
        GuestValidMemoryType::Shared => {
            if !bitmap::page_state(maps.shared, gpn) {
                return PageFaultAction::NotShared;
            }
        }
        GuestValidMemoryType::Encrypted => {
            if !bitmap::page_state(maps.private, gpn) {
                return PageFaultAction::NotPrivate;
            }
            if tracked && !is_allowed(maps.permissions, view, gpn, writes) {
                return PageFaultAction::VtlProtected;
            }
        }
    }
    PageFaultAction::Retry
}

// What refuses a fault.
#[tactic(auto, unfolding(crate::specs::Fault::fault_refusal))]
fn fault_refusal(
    fits: bool,
    mapping: u64,
    view: u64,
    writes: u64,
    failure: u64,
) -> Result<(), Refusal>
    ensures { refused_by result ≡ fault_refusal fits mapping view writes failure }
{
    if !fits {
        return Err(Refusal::WrongLength);
    }
    if memory_type::SHARED < mapping {
        return Err(Refusal::UnfitNumber);
    }
    if read_type::USER_EXECUTE < view {
        return Err(Refusal::UnfitNumber);
    }
    if 2 <= writes {
        return Err(Refusal::UnfitNumber);
    }
    if 2 <= failure {
        return Err(Refusal::UnfitNumber);
    }
    Ok(())
}

// A fault at an address, as its numbers cross.
#[tactic(auto, using(abi::proofs::Numbers::number_not_zero), unfolding(crate::specs::Fault::page_fault))]
pub fn page_fault(
    maps: PageMaps<'_>,
    ram: &[u64],
    tracked: bool,
    mapping: u64,
    view: u64,
    address: u64,
    writes: u64,
    failure: u64,
) -> Result<PageFaultAction, Refusal>
    ensures { numbered result ≡ page_fault (entries_of ram.now) (maps_in maps.entry) tracked mapping view address writes failure }
{
    let len = layout::map_len(ram);
    let lengths = MapLengths::of(maps);
    let fits = mapping::maps_fit(len, tracked, lengths);
    fault_refusal(fits, mapping, view, writes, failure)?;
    Ok(fault_action(
        maps,
        tracked,
        mapping_of(mapping),
        view,
        address / PAGE_SIZE,
        writes == 1,
        failure == 1,
    ))
}

pub fn fault_number(a: Result<PageFaultAction, u64>) -> u64
    ensures { result ≡ fault_number a }
{
    a.err().unwrap_or(0)
}

pub fn fault_value(a: Result<PageFaultAction, u64>) -> u64
    ensures { result ≡ fault_value a }
{
    match a {
        Ok(PageFaultAction::Retry) => action::RETRY,
        Ok(PageFaultAction::NotMapped) => action::NOT_MAPPED,
        Ok(PageFaultAction::NotShared) => action::NOT_SHARED,
        Ok(PageFaultAction::NotPrivate) => action::NOT_PRIVATE,
        Ok(PageFaultAction::VtlProtected) => action::VTL_PROTECTED,
        Err(number) => permissions::hv_error(number),
    }
}
