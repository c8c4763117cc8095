// Holders questions of lists that are made here.
ghost use Rattle.std.specs.Prelude.{◌≤◌};

use crate::lends::ask;
use crate::lines::Holders;
use std::io;
use tasks::{CellNo, NodeNo, Task};

// A record in that phase, with node m held.
fn holding(phase: u8, m: u8) -> Task {
    Task {
        phase,
        cell: CellNo(0),
        value: 0,
        held: NodeNo(m),
        own: NodeNo(7),
        cursor: NodeNo(7),
    }
}

// A list of n linked records, each with node m held, asked for node v. A struct for these would be longer than the calls.
fn alike(rt: &impl Print, label: &str, n: usize, m: u8, v: u8) -> io::Result<()>
    requires { n ≤ 17 }
{
    let ts = [holding(6, m); 17];
    println!(rt; "{label}: {}", Holders(ask(&ts[..n], NodeNo(v))))
}

// A list of n linked records, of which the fourth alone holds node 5.
fn fourth(rt: &impl Print, label: &str, n: usize) -> io::Result<()>
    requires { n ≤ 17 }
{
    let mut ts = [holding(6, 6); 17];
    ts[3] = holding(6, 5);
    println!(rt; "{label}: {}", Holders(ask(&ts[..n], NodeNo(5))))
}

// A list of sixteen records in phases 0 to 15, each with node 5 as its m.
fn phases_to_15(rt: &impl Print) -> io::Result<()> {
    let mut ts = [holding(0, 5); 17];
    for (phase, t) in (0..16).zip(ts.iter_mut()) {
        t.phase = phase;
    }
    println!(rt;
        "list of 16, phases 0 to 15: {}",
        Holders(ask(&ts[..16], NodeNo(5)))
    )
}

pub(crate) fn lengths(rt: &impl Print) -> io::Result<()> {
    alike(rt, "list of 0", 0, 5, 5)?;
    alike(rt, "list of 1 that holds it", 1, 5, 5)?;
    alike(rt, "list of 1 that holds another", 1, 6, 5)?;
    fourth(rt, "list of 3, the next one holds it", 3)?;
    fourth(rt, "list of 4, the last holds it", 4)?;
    alike(rt, "list of 16 that hold it", 16, 5, 5)?;
    phases_to_15(rt)?;
    alike(rt, "list of 17 that hold it", 17, 5, 5)?;
    alike(rt, "list of 17 that hold another", 17, 6, 5)
}

pub(crate) fn nodes(rt: &impl Print) -> io::Result<()> {
    alike(rt, "node 0, held by 16", 16, 0, 0)?;
    alike(rt, "node 127, held by 16", 16, 127, 127)?;
    alike(rt, "node 127, held by none", 16, 126, 127)?;
    alike(rt, "node 128, held by 16", 16, 128, 128)?;
    alike(rt, "node 255, held by 16", 16, 255, 255)?;
    alike(rt, "node 128, list of 0", 0, 128, 128)
}

// A list of one record in each phase, with node 5 as its m.
pub(crate) fn phases(rt: &impl Print) -> io::Result<()> {
    for phase in [2, 3, 9, 10, 11, 12, 13, 14, 15, 16, 255] {
        let ts = [holding(phase, 5); 17];
        println!(rt; "phase {phase}: {}", Holders(ask(&ts[..1], NodeNo(5))))?;
    }
    Ok(())
}
