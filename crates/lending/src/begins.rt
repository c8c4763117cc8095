// Calls that are started, in a lone record and in a row of four.
use crate::lends::start_at;
use crate::lines::Fields;
use std::io;
use tasks::{Call, CellNo, NodeNo, Task};

// A record with a number of its own in every field, so that a wrong one shows.
fn made(phase: u8, x: u8) -> Task {
    Task {
        phase,
        cell: CellNo(x),
        value: 4,
        held: NodeNo(20),
        own: NodeNo(30),
        cursor: NodeNo(40),
    }
}

// The library's bridge lends the record to `begin` and hands it back.
fn begun(rt: &impl Print, label: &str, t: Task, c: Call) -> io::Result<()> {
    println!(rt; "{label}: {}", Fields(tasks::lent_begin(t, c)))
}

pub(crate) fn lone(rt: &impl Print) -> io::Result<()> {
    let idle = made(0, 1);
    let linked = made(6, 1);
    println!(rt; "lone, idle: {}", Fields(idle))?;
    begun(rt, "lone, load of cell 3", idle, Call::Load(CellNo(3)))?;
    println!(rt; "lone, linked: {}", Fields(linked))?;
    begun(
        rt,
        "lone, store of 4294967295",
        linked,
        Call::Store(4294967295),
    )?;
    begun(rt, "lone, release", linked, Call::Release)?;
    begun(rt, "lone, validate", linked, Call::Validate)
}

fn records(rt: &impl Print, label: &str, ts: &[Task; 4]) -> io::Result<()> {
    for (i, t) in ts.iter().enumerate() {
        println!(rt; "{label}, record {i}: {}", Fields(*t))?;
    }
    Ok(())
}

// The first, a middle and the last record of the row, one after the other.
pub(crate) fn row(rt: &impl Print) -> io::Result<()> {
    let mut ts = [made(0, 0), made(6, 1), made(6, 2), made(6, 3)];
    records(rt, "row as made", &ts)?;
    start_at(&mut ts, 0, Call::Load(CellNo(5)));
    records(rt, "row, load of cell 5 at 0", &ts)?;
    start_at(&mut ts, 2, Call::Store(9));
    records(rt, "row, store of 9 at 2", &ts)?;
    start_at(&mut ts, 3, Call::Release);
    records(rt, "row, release at 3", &ts)
}
