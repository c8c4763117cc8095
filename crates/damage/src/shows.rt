// One case: what an entry does to the record, what a run of two entries does, and the reply buffer.
use crate::lines::{Hex, kept};
use cells::{Applied, Machine};
use runs::{Ran, Report};
use std::io;

// What the entry of task 1 asks for, as its kind byte.
#[derive(Clone, Copy)]
pub(crate) enum Kind {
    Go,
    Load,
}

// The reply to an entry (number, task byte, value), and whether the record came back as it was.
pub(crate) fn entry(rt: &impl Print, m: Machine, a: Applied) -> io::Result<()> {
    let number = answers::number(a.answer);
    let value = answers::value(a.answer);
    print!(rt;
        ": entry {number} {} {value} {}",
        a.task,
        kept(m == a.machine)
    )
}

// A run's six numbers, and whether the record came back as it was.
fn report(rt: &impl Print, m: Machine, ran: Ran) -> io::Result<()> {
    let Report {
        accepted,
        refusal,
        loads,
        load_steps,
        turned_back,
        swaps,
    } = ran.report;
    print!(rt;
        ": run {accepted} {refusal} {loads} {load_steps} {turned_back} {swaps} {}",
        kept(m == ran.machine)
    )
}

// A run, with the reply buffer after it.
pub(crate) fn run(rt: &impl Print, m: Machine, s: &[u8], out: &mut [u8]) -> io::Result<()> {
    report(rt, m, runs::run(m, s, out))?;
    println!(rt; ": replies [{}]", Hex(out))
}

// An entry of task 1, of that kind, with cell and value 0.
fn tried(rt: &impl Print, m: Machine, kind: Kind) -> io::Result<()> {
    let e = [0x45, 0x4E, 1, kind as u8, 0, 0, 0, 0, 0, 0];
    entry(rt, m, m.apply(&e))
}

// The same entry, and then a go of task 1.
pub(crate) fn two(kind: Kind) -> [u8; 20] {
    let k = kind as u8;
    [
        0x45, 0x4E, 1, k, 0, 0, 0, 0, 0, 0, 0x45, 0x4E, 1, 0, 0, 0, 0, 0, 0, 0,
    ]
}

pub(crate) fn shows(rt: &impl Print, m: Machine, kind: Kind) -> io::Result<()> {
    tried(rt, m, kind)?;
    let mut out = [0xAA; 16];
    run(rt, m, &two(kind), &mut out)
}

// The same with a run that asks for the free nodes after each entry, and both buffers after it.
pub(crate) fn shows_free(rt: &impl Print, m: Machine, kind: Kind) -> io::Result<()> {
    tried(rt, m, kind)?;
    let mut out = [0xAA; 16];
    let mut free_nodes = [0xAA; 3];
    let ran = runs::run_free(m, &two(kind), &mut out, &mut free_nodes);
    report(rt, m, ran)?;
    println!(rt;
        ": replies [{}]: free nodes [{}]",
        Hex(&out),
        Hex(&free_nodes)
    )
}
