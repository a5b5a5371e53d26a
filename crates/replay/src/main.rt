// Recorded answers of the original, held against the proved entries. The input is the file of recorded calls.
#![tactic(auto)]

ghost use Rattle.std.specs.Prelude.{◌≤◌, length, IfOk};

mod field;
mod given;
mod protector_part;
mod registrar_part;
mod tally;

use crate::tally::Difference;
use recording::kind;
use std::io;
use std::io::Read;

fn name(kind: u64) -> &'static str {
    match kind {
        kind::BUILD => "protector_build",
        kind::CHANGE_HOST_VISIBILITY => "change_host_visibility",
        kind::CHANGE_VTL_PROTECTIONS => "change_vtl_protections",
        kind::CHANGE_DEFAULT_VTL_PROTECTIONS => "change_default_vtl_protections",
        kind::REGISTER_OVERLAY_PAGE => "register_overlay_page",
        kind::UNREGISTER_OVERLAY_PAGE => "unregister_overlay_page",
        kind::LOCK_GPNS => "lock_gpns",
        kind::UNLOCK_GPNS => "unlock_gpns",
        kind::SET_VTL1_PROTECTIONS_ENABLED => "set_vtl1_protections_enabled",
        kind::VTL1_PROTECTIONS_ENABLED => "vtl1_protections_enabled",
        kind::DEFAULT_VTL0_PROTECTIONS => "default_vtl0_protections",
        kind::IS_OVERLAY_PAGE => "is_overlay_page",
        kind::QUERY_HOST_VISIBILITY => "query_host_visibility",
        kind::PAGE_FAULT => "page_fault",
        kind::QUERY_LOWER_VTL_PERMISSIONS => "query_lower_vtl_permissions",
        kind::QUERY_ACCESS_PERMISSION => "query_access_permission",
        kind::REGISTRAR_BUILD => "registrar_build",
        kind::REGISTER => "register",
        _ => "register_all_aligned",
    }
}

fn column_name(column: u64) -> &'static str {
    match column {
        0 => "SNP",
        1 => "TDX",
        2 => "CCA",
        _ => "registrar",
    }
}

fn say_cell(rt: &impl Print, tally: &[u64], kind: u64, column: u64) -> io::Result<()> {
    let place = kind % tally::KINDS * tally::COLUMNS + column % tally::COLUMNS;
    let calls = numbers::word_at(tally, tally::CALLS + place);
    if calls == 0 {
        return Ok(());
    }
    let same = numbers::word_at(tally, tally::SAME + place);
    let name = column_name(column);
    print!(rt; " {name} {same} of {calls}")
}

fn say_row(rt: &impl Print, tally: &[u64], kind: u64) -> io::Result<()> {
    let name = name(kind);
    print!(rt; "{name}:")?;
    for column in 0..tally::COLUMNS {
        say_cell(rt, tally, kind, column)?;
    }
    println!(rt; "")
}

fn say_refusal(rt: &impl Print, tally: &[u64], number: u64) -> io::Result<()> {
    let calls = numbers::word_at(tally, tally::BY_NUMBER + number % tally::NUMBERS);
    if calls == 0 {
        return Ok(());
    }
    println!(rt; "number {number}: {calls}")
}

fn say_end(rt: &impl Print, tally: &[u64]) -> io::Result<()> {
    let calls = numbers::word_at(tally, tally::ALL);
    let others = numbers::word_at(tally, tally::OTHERS);
    if others == 0 {
        return println!(rt; "{calls} calls, all as recorded");
    }
    println!(rt; "{calls} calls, not as recorded: {others}")
}

fn say_all(rt: &impl Print, tally: &[u64]) -> io::Result<()> {
    for kind in 0..kind::END {
        say_row(rt, tally, kind)?;
    }
    for number in 0..tally::NUMBERS {
        say_refusal(rt, tally, number)?;
    }
    say_end(rt, tally)
}

fn say_given(rt: &impl Print, given: &[u64; given::ALL]) -> io::Result<()> {
    let [res, code, index, count, asked, left] = *given;
    println!(rt;
        "{res} code {code} index {index} count {count} asked {asked:016x} left {left:016x}"
    )
}

// The first call that isn't as recorded.
fn say_difference(rt: &impl Print, difference: &Difference) -> io::Result<()> {
    let f = difference.line;
    let call = difference.call;
    let name = name(f[field::KIND]);
    print!(rt; "call {call}, {name}\nrecorded ")?;
    say_given(
        rt,
        &[
            f[field::RESULT],
            f[field::CODE],
            f[field::INDEX],
            f[field::COUNT],
            f[field::ASKED],
            f[field::LEFT],
        ],
    )?;
    print!(rt; "given    ")?;
    say_given(rt, &difference.given)
}

// Reads until `buffer` is full or the input ends, and says how many bytes it has.
fn read_full(input: &mut impl Read, buffer: &mut [u8]) -> io::Result<usize>
    ensures { IfOk result (λ n. n ≤ length buffer.new) }
{
    let mut done = 0;
    for _ in 0..u64::MAX {
        if buffer.len() <= done {
            break;
        }
        let n = input.read(&mut buffer[done..])?;
        if n == 0 {
            break;
        }
        done += n;
    }
    Ok(done)
}

fn replay(rt: &impl Print, input: &[u8], tally: &mut [u64]) -> io::Result<()> {
    let mut first: Option<Difference> = None;
    let next = protector_part::run(input, 0, tally, &mut first);
    registrar_part::run(input, next, tally, &mut first);
    if let Some(difference) = first {
        say_difference(rt, &difference)?;
    }
    say_all(rt, tally)
}

fn main(rt: HostRuntime) -> io::Result<()> {
    let mut input = [0u8; 262144];
    let mut tally = [0u64; 256];
    let n = read_full(&mut rt.reader(), &mut input)?;
    replay(&rt, recording::lists::part(&input, n), &mut tally)
}
