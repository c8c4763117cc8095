// One entry of a lent machine: decided, and written back where it lies.
#![tactic(auto)]

ghost use Rattle.std.specs.Prelude.{◌≡◌, ◌≢◌, ◌≤◌};
ghost use Rattle.steps.specs.Table.{effect_of};
ghost use Rattle.cells.specs.Machine.{seen_of};
ghost use Rattle.turns.specs.Turned.{Carries, gone_of, ordered_of};

use answers::{Answer, Refusal};
use cells::Machine;
use entries::{Asked, Entry};
use steps::Effect;
use tasks::{Call, Task, TaskNo};

// An effect on task p, written back.
pub fn carry(m: &mut Machine, p: TaskNo, e: Effect) -> Answer
    ensures { Carries m.old p e m.new result }
{
    m.carry(p, e)
}

// The row of a phase that has one, carried out. Each arm looks and writes for itself: with `steps::step`, and one `carry` behind it, an entry takes a sixth longer.
fn row(m: &mut Machine, p: TaskNo, t: Task) -> Answer
    requires { (1 ≤ t.phase) × (t.phase ≤ 15) × (t.phase ≢ 6) × (t.phase ≢ 10) }
    ensures { Carries m.old p (effect_of t (seen_of m.old t)) m.new result }
{
    match t.phase {
        1 => carry(m, p, steps::l1_step(t, m.seen(t))),
        2 => carry(m, p, steps::l2_step(t, m.seen(t))),
        3 => carry(m, p, steps::l3_step(t, m.seen(t))),
        4 => carry(m, p, steps::l4_step(t, m.seen(t))),
        5 => carry(m, p, steps::l5_step(t, m.seen(t))),
        7 => carry(m, p, steps::s1_step(t, m.seen(t))),
        8 => carry(m, p, steps::s2_step(t, m.seen(t))),
        9 => carry(m, p, steps::s3_step(t, m.seen(t))),
        11 => carry(m, p, steps::s5_step(t, m.seen(t))),
        12 => carry(m, p, steps::s6_step(t, m.seen(t))),
        13 => carry(m, p, steps::s7_step(t, m.seen(t))),
        14 => carry(m, p, steps::r1_step(t, m.seen(t))),
        _ => carry(m, p, steps::v1_step(t, m.seen(t))),
    }
}

// A go: the row of the task's phase, if the phase has one. `apply` has `steps::step`, which asks the same rows.
pub fn go(m: &mut Machine, p: TaskNo) -> Answer
    ensures { Carries m.old p (gone_of m.old p) m.new result }
{
    let t = m.task(p);
    match t.phase {
        // idle
        0 => Err(Refusal::NoStep),
        // load, store, release, validate: one arm, since a branch for each range would be a second guess beside the one on the row
        1..=5 | 7..=9 | 11..=13 | 14..=15 => row(m, p, t),
        // linked
        6 => Err(Refusal::NoStep),
        _ => Err(Refusal::Damaged),
    }
}

// An entry: refused, or done as `entries::order` has it.
pub fn turn(m: &mut Machine, e: Entry) -> Answer
    ensures { Carries m.old e.task (ordered_of m.old e) m.new result }
{
    let p = e.task;
    let t = m.task(p);
    // `Entry { ..e }`, made anew of its fields: `e` as it is goes over packed into one number, and an entry takes a twentieth longer
    match entries::asks(m.n, m.p, Entry { ..e })? {
        Asked::ToGo => go(m, p),
        Asked::ToLoad(x) => carry(m, p, entries::load(t, x)),
        Asked::ToStore(x, y) => carry(m, p, entries::store(t, x, y)),
        Asked::ToRelease => carry(m, p, entries::linked_call(t, Call::Release)),
        Asked::ToValidate => carry(m, p, entries::linked_call(t, Call::Validate)),
    }
}
