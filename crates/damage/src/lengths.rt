// The lengths of a reply buffer and of an entry. Task 0 is in phase 0, as setup made it, or 16, which is damage.
ghost use Rattle.std.specs.Prelude.{◌≤◌};

use crate::lines::kept;
use crate::shows::{Kind, two};
use crate::{hurts, shows};
use cells::{Applied, Machine};
use std::io;
use tasks::TaskNo;

fn record(phase: u8) -> Machine {
    hurts::replaced(TaskNo(0), hurts::task(phase, 0, 0, 2, 0))
}

// A run of the first n bytes of a load and a go, with room for that many bytes of replies.
fn ran(rt: &impl Print, phase: u8, n: usize, room: usize) -> io::Result<()>
    requires { (n ≤ 20) × (room ≤ 16) }
{
    print!(rt; "run of {n} bytes, room for {room}, task 0 phase {phase}")?;
    let s = two(Kind::Load);
    let mut out = [0xAA; 16];
    shows::run(rt, record(phase), &s[..n], &mut out[..room])
}

pub(crate) fn runs(rt: &impl Print) -> io::Result<()> {
    ran(rt, 0, 20, 16)?;
    ran(rt, 0, 20, 15)?;
    ran(rt, 0, 11, 16)?;
    ran(rt, 0, 11, 15)?;
    ran(rt, 0, 0, 0)?;
    ran(rt, 16, 20, 15)?;
    ran(rt, 16, 0, 0)
}

// The first n bytes of a load and a go, taken as one entry.
fn taken(phase: u8, s: &[u8]) -> Applied {
    record(phase).apply(s)
}

fn tried(rt: &impl Print, phase: u8, n: usize) -> io::Result<()>
    requires { n ≤ 20 }
{
    print!(rt; "entry of {n} bytes, task 0 phase {phase}")?;
    shows::entry(rt, record(phase), taken(phase, &two(Kind::Load)[..n]))?;
    println!(rt;)
}

pub(crate) fn entries(rt: &impl Print) -> io::Result<()> {
    tried(rt, 0, 9)?;
    tried(rt, 0, 10)?;
    tried(rt, 0, 20)?;
    tried(rt, 16, 0)?;
    let s = two(Kind::Load);
    let same = taken(0, &s).machine == taken(0, &s[..10]).machine;
    println!(rt;
        "record of 20 bytes, against that of their first 10: {}",
        kept(same)
    )
}
