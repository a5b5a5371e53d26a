// The worked examples of document 01, run and shown: RAM pages 0 to 15 and 32 to 39.
#![tactic(auto)]

use abi::REGISTRAR_WORDS;
use abi::refusal::{self, Refusal};
use fault::PageFaultAction;
use mapping::{PageMaps, PermissionMapsMut};
use permissions::{GuestVtl, HvMapGpaFlags};
use registrar_state::Reply;
use std::io;

// RAM pages 0 to 15 of node 0, and 32 to 39 of node 1.
const RAM: [u64; 6] = [0, 65536, 0, 131072, 163840, 1];

fn say_map(rt: &impl Print, map: &[u8]) -> io::Result<()> {
    for b in map {
        print!(rt; " {b:02x}")?;
    }
    println!(rt; "")
}

fn say_fault(rt: &impl Print, a: Result<PageFaultAction, Refusal>) -> io::Result<()> {
    match a {
        Ok(action) => print!(rt; "{action:?}"),
        Err(refusal) => {
            let number = refusal.number();
            print!(rt; "{number}")
        }
    }
}

fn p1(rt: &impl Print) -> io::Result<()> {
    let mut private = [0xa5u8; 5];
    let mut shared = [0xa5u8; 5];
    let mut read = [0xa5u8; 5];
    let mut write = [0xa5u8; 5];
    let mut kernel = [0xa5u8; 5];
    let mut user = [0xa5u8; 5];
    let mut maps = PermissionMapsMut {
        read: &mut read,
        write: &mut write,
        kernel: &mut kernel,
        user: &mut user,
    };
    mapping::build(&mut private, &mut shared, &mut maps, &RAM);
    print!(rt; "P1 private")?;
    say_map(rt, &private)?;
    print!(rt; "   shared ")?;
    say_map(rt, &shared)
}

fn p6(rt: &impl Print) -> io::Result<()> {
    let seven = refusal::refused_by(layout::refusal(&[0, 28672, 0]));
    let eight = refusal::refused_by(layout::refusal(&[0, 32768, 0]));
    println!(rt; "P6 entry of 7 pages: {seven}, of 8: {eight}")
}

fn p7(rt: &impl Print) -> io::Result<()> {
    let vtl0 = permissions::rmpadjust(GuestVtl::Vtl0, HvMapGpaFlags::from_bits(5));
    let vtl1 = permissions::rmpadjust(GuestVtl::Vtl1, HvMapGpaFlags::from_bits(4));
    println!(rt; "P7 flags 5, VTL0: {vtl0}, flags 4, VTL1: {vtl1}")
}

// What the registrar is lent.
#[derive(Clone, Copy)]
struct Lent {
    state: [u64; REGISTRAR_WORDS],
    registered: [u64; 1],
    failed: [u64; 1],
}

impl Lent {
    // After a build.
    fn built() -> Lent {
        let mut state = [0; REGISTRAR_WORDS];
        let mut registered = [0; 1];
        let mut failed = [0; 1];
        registrar::registrar_build(&RAM, 0, 65536, &mut state, &mut registered, &mut failed);
        Lent {
            state,
            registered,
            failed,
        }
    }

    fn register(&mut self, address: u64, length: u64) -> Reply {
        registrar::registrar_register(
            &mut self.state,
            &mut self.registered,
            &mut self.failed,
            address,
            length,
        )
    }

    fn done(&mut self) -> Reply {
        registrar::registrar_answer_done(&mut self.state, &mut self.registered, &mut self.failed)
    }
}

fn say_reply(rt: &impl Print, r: Reply) -> io::Result<()> {
    if r.asked == 1 {
        let start = r.start;
        let end = r.end;
        return print!(rt; "Register {start} to {end}");
    }
    let number = r.number;
    print!(rt; "{number}")?;
    if number == Refusal::UnalignedMemory.number() {
        let start = r.edge_start;
        let end = r.edge_end;
        print!(rt; " for {start} to {end}")?;
    }
    let count = r.count;
    print!(rt; " after {count}")
}

fn p8(rt: &impl Print) -> io::Result<()> {
    let mut lent = Lent::built();
    print!(rt; "P8 address 0 length 0: ")?;
    say_reply(rt, lent.register(0, 0))?;
    print!(rt; "; address 4096 length 0: ")?;
    say_reply(rt, lent.register(4096, 0))?;
    print!(rt; ", done: ")?;
    say_reply(rt, lent.done())?;
    println!(rt; "")
}

fn p9(rt: &impl Print) -> io::Result<()> {
    let mut lent = Lent::built();
    print!(rt; "P9 align all to 65536: ")?;
    let asked = registrar::registrar_register_all_aligned(
        &mut lent.state,
        &mut lent.registered,
        &mut lent.failed,
        65536,
        0,
    );
    say_reply(rt, asked)?;
    print!(rt; ", done: ")?;
    say_reply(rt, lent.done())?;
    println!(rt; "")
}

// The fault at an address of a view, with no permissions tracked.
fn fault_at(view: u64, address: u64) -> Result<PageFaultAction, Refusal> {
    let private: [u8; 5] = [0xf7, 0xf9, 0, 0, 0xff];
    let shared: [u8; 5] = [0x08, 0x06, 0, 0, 0];
    let maps = PageMaps::of(&private, &shared, &[], &[], &[], &[]);
    fault::page_fault(maps, &RAM, false, view, 0, address, 0, 1)
}

fn p10(rt: &impl Print) -> io::Result<()> {
    print!(rt; "P10 private view of page 3: ")?;
    say_fault(rt, fault_at(0, 12288))?;
    print!(rt; ", shared view of page 4: ")?;
    say_fault(rt, fault_at(1, 16384))?;
    println!(rt; "")
}

fn main(rt: HostRuntime) -> io::Result<()> {
    p1(&rt)?;
    p6(&rt)?;
    p7(&rt)?;
    p8(&rt)?;
    p9(&rt)?;
    p10(&rt)
}
