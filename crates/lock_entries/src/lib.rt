// The protector's entries that lock and unlock lists of pages. Each takes any lengths, any numbers, any bytes and words.
#![tactic(auto)]

ghost use Rattle.std.specs.Prelude.{◌≡◌, length};
ghost use Rattle.abi.specs.Refusals.{refused_by};
ghost use Rattle.page_list.specs.Pages.{pages_of};
ghost use Rattle.lock_table.specs.Locks.{lock_code, lock_words, unlock_code, unlock_words};
ghost use Rattle.call_refusals.specs.Buffers.{tables_len, locks_of};
ghost use Rattle.lock_entries.specs.Calls.{kept, lock_refusal, with_locks, lock_of, unlock_of};

use abi::refusal::Refusal;
use abi::{TABLES_WORDS, table};
use permissions::GuestVtl;
use protector_state::Reply;

// What refuses either call before its table is looked at.
#[tactic(auto, using(abi::proofs::Numbers::number_not_zero, call_refusals::proofs::Laws::is_ready), unfolding(crate::specs::Calls::lock_refusal, call_refusals::specs::Refusals::ready))]
fn lock_refusal(state: &[u64], tables: u64, vtl: u64, list: &[u8]) -> Result<(), Refusal>
    ensures { refused_by result ≡ lock_refusal state.now tables vtl list.now }
{
    call_refusals::state_refusal(state)?;
    if tables != TABLES_WORDS {
        return Err(Refusal::WrongLength);
    }
    if page_list::is_long(list) {
        return Err(Refusal::LongList);
    }
    if !permissions::is_vtl(vtl) {
        return Err(Refusal::UnfitNumber);
    }
    if page_list::is_ragged(list) {
        return Err(Refusal::UnfitNumber);
    }
    Ok(())
}

// Kept, with the two entries below: locking beside unlocking; one function over the table's call wants a clause about what that call ensures.
// A list locked in the table of a VTL.
fn lock_of(tables: &mut [u64], vtl: GuestVtl, list: &[u8]) -> Result<(), Refusal>
    requires { length tables.old ≡ tables_len }
    ensures { (refused_by result ≡ lock_code (locks_of tables.old vtl) (pages_of list.now)) × (tables.new ≡ with_locks tables.old vtl (lock_words (locks_of tables.old vtl) (pages_of list.now))) }
{
    let start = call_refusals::locks_start(vtl);
    lock_table::lock(&mut tables[start..start + table::LOCKS_WORDS], list)
}

fn unlock_of(tables: &mut [u64], vtl: GuestVtl, list: &[u8]) -> Result<(), Refusal>
    requires { length tables.old ≡ tables_len }
    ensures { (refused_by result ≡ unlock_code (locks_of tables.old vtl) (pages_of list.now)) × (tables.new ≡ with_locks tables.old vtl (unlock_words (locks_of tables.old vtl) (pages_of list.now))) }
{
    let start = call_refusals::locks_start(vtl);
    lock_table::unlock(&mut tables[start..start + table::LOCKS_WORDS], list)
}

// A list of pages is locked for a VTL: 17 where there is no room. No operation is asked for, and a refusal changes nothing.
#[tactic(auto, using(abi::proofs::Numbers::number_not_zero, crate::proofs::Laws::passed_length), unfolding(crate::specs::Calls::lock_of))]
pub fn protector_lock_gpns(state: &[u64], tables: &mut [u64], vtl: u64, list: &[u8]) -> Reply
    ensures { kept tables.new result ≡ lock_of state.now tables.old vtl list.now }
{
    if let Err(refusal) = lock_refusal(state, tables.len() as u64, vtl, list) {
        return protector_state::refused(refusal.number());
    }
    let v = permissions::vtl_of(vtl);
    if let Err(full) = lock_of(tables, v, list) {
        return protector_state::refused(full.number());
    }
    protector_state::finished(0, 0, 0, 0)
}

// The first equal list of a VTL is unlocked: 18 where there is none. No operation is asked for, and a refusal changes nothing.
#[tactic(auto, using(abi::proofs::Numbers::number_not_zero, crate::proofs::Laws::passed_length), unfolding(crate::specs::Calls::unlock_of))]
pub fn protector_unlock_gpns(state: &[u64], tables: &mut [u64], vtl: u64, list: &[u8]) -> Reply
    ensures { kept tables.new result ≡ unlock_of state.now tables.old vtl list.now }
{
    if let Err(refusal) = lock_refusal(state, tables.len() as u64, vtl, list) {
        return protector_state::refused(refusal.number());
    }
    let v = permissions::vtl_of(vtl);
    if let Err(unknown) = unlock_of(tables, v, list) {
        return protector_state::refused(unknown.number());
    }
    protector_state::finished(0, 0, 0, 0)
}
