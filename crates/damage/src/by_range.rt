// 22 by the ranges: the sizes, the number of free nodes, cell 1, node 50 and task 0 are damaged, and the entry, a load, speaks of cell 0 and task 1.
use crate::hurts;
use crate::shows::{Kind, shows, shows_free};
use cells::Machine;
use std::io;
use tasks::TaskNo;

// No node is free, so that there are not more than K.
fn sized(rt: &impl Print, n: u8, p: u8, k: u8) -> io::Result<()> {
    print!(rt; "N {n} P {p} K {k}")?;
    let d = Machine {
        n,
        p,
        k,
        ..hurts::freed(0)
    };
    shows(rt, d, Kind::Load)
}

pub(crate) fn sizes(rt: &impl Print) -> io::Result<()> {
    for (n, p, k) in [
        (2, 2, 100),
        (0, 2, 100),
        (64, 2, 100),
        (65, 2, 100),
        (2, 0, 100),
        (2, 16, 100),
        (2, 17, 100),
        (2, 2, 0),
        (2, 2, 5),
        (2, 2, 6),
        (2, 2, 128),
        (2, 2, 129),
    ] {
        sized(rt, n, p, k)?;
    }
    Ok(())
}

pub(crate) fn frees(rt: &impl Print) -> io::Result<()> {
    for free in [0, 100, 101, 255] {
        print!(rt; "free {free}")?;
        shows_free(rt, hurts::freed(free), Kind::Load)?;
    }
    Ok(())
}

// Cell 1 points at v, and node 50 has count c.
fn tabled(rt: &impl Print, v: u8, c: u8) -> io::Result<()> {
    print!(rt; "pointer {v} count {c}")?;
    let mut d = hurts::sound();
    d.cells[1] = v;
    d.counts[50] = c;
    shows(rt, d, Kind::Load)
}

pub(crate) fn tables(rt: &impl Print) -> io::Result<()> {
    for (v, c) in [(99, 3), (100, 0), (255, 0), (1, 4), (1, 255)] {
        tabled(rt, v, c)?;
    }
    Ok(())
}

pub(crate) fn records(rt: &impl Print) -> io::Result<()> {
    for (phase, x, m, own, cursor) in [
        (15, 1, 99, 99, 99),
        (10, 0, 0, 2, 0),
        (16, 0, 0, 2, 0),
        (255, 0, 0, 2, 0),
        (0, 2, 0, 2, 0),
        (0, 0, 100, 2, 0),
        (0, 0, 0, 100, 0),
        (0, 0, 0, 2, 100),
    ] {
        print!(rt; "task 0 phase {phase} cell {x} m {m} own {own} cursor {cursor}")?;
        let t = hurts::task(phase, x, m, own, cursor);
        shows(rt, hurts::replaced(TaskNo(0), t), Kind::Load)?;
    }
    Ok(())
}

// Every place past N, P and K in the tables that the range test looks at.
pub(crate) fn unused(rt: &impl Print) -> io::Result<()> {
    print!(rt; "rubbish past N, P and K")?;
    let mut d = hurts::sound();
    d.cells[2..].fill(255);
    d.counts[100..].fill(255);
    d.tasks[2..].fill(hurts::task(255, 255, 255, 255, 255));
    shows(rt, d, Kind::Load)
}
