// What answers query_host_visibility, and what crosses for a fault or a permission query.
#![tactic(auto)]

ghost use Rattle.std.specs.Prelude.{◌≡◌};
ghost use Rattle.laws.specs.Bools.{digit};
ghost use Rattle.abi.specs.Refusals.{refused_by};
ghost use Rattle.bitmap.specs.Pages.{bit_at};
ghost use Rattle.layout.specs.Layout.{entries_of, is_ram};
ghost use Rattle.page_list.specs.Pages.{pages_of};
ghost use Rattle.request_pages.specs.Request.{stop_at};
ghost use Rattle.queries.specs.Queries.{query_refusal, visibilities, filled_by, fault_value_of, permissions_value_of};

use abi::refusal::Refusal;
use fault::PageFaultAction;
use permissions::HvMapGpaFlags;
use protector_state::Value;

pub fn fault_value(a: Result<PageFaultAction, u64>) -> Value
    ensures { result ≡ fault_value_of a }
{
    Value {
        number: fault::fault_number(a),
        value: fault::fault_value(a),
    }
}

pub fn permissions_value(a: Result<HvMapGpaFlags, u64>) -> Value
    ensures { result ≡ permissions_value_of a }
{
    Value {
        number: access::permissions_number(a),
        value: access::permissions_value(a),
    }
}

// What refuses a query of visibilities, but for a page that isn't RAM.
#[tactic(auto, using(abi::proofs::Numbers::number_not_zero, call_refusals::proofs::Laws::is_ready), unfolding(crate::specs::Queries::query_refusal, call_refusals::specs::Refusals::ready))]
pub fn query_refusal(state: &[u64], shared: u64, list: &[u8]) -> Result<(), Refusal>
    ensures { refused_by result ≡ query_refusal state.now shared list.now }
{
    call_refusals::state_refusal(state)?;
    if shared != layout::map_len(protector_state::ram_of(state)) {
        return Err(Refusal::WrongLength);
    }
    if page_list::is_long(list) {
        return Err(Refusal::LongList);
    }
    if page_list::is_ragged(list) {
        return Err(Refusal::UnfitNumber);
    }
    Ok(())
}

// How many pages of a list come before the first that isn't RAM.
pub fn ram_before(ram: &[u64], list: &[u8]) -> u64
    ensures { result ≡ stop_at (is_ram (entries_of ram.now)) (pages_of list.now) }
{
    let count = page_list::page_count(list);
    for i in 0..count {
        let gpn = page_list::page_at(list, i);
        if !layout::is_in_guest_memory(ram, gpn) {
            return i;
        }
    }
    count
}

fn shared_byte(shared: &[u8], gpn: u64) -> u8
    ensures { result ≡ digit (bit_at 8 shared.now gpn) }
{
    u8::from(bitmap::page_state(shared, gpn))
}

// A byte for each page of a list, as far as the output goes.
pub fn fill(out: &mut [u8], shared: &[u8], list: &[u8])
    ensures { out.new ≡ filled_by (visibilities shared.now (pages_of list.now)) out.old }
{
    let end = numbers::min(page_list::page_count(list), out.len() as u64) as usize;
    for i in 0..end {
        out[i] = shared_byte(shared, page_list::page_at(list, i as u64));
    }
}
