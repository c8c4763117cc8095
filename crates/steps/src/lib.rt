// The step table: what one atomic step does, as data. It reads some numbers, and changes its own task's record and one place of a table at most.
#![tactic(auto)]

ghost use Rattle.std.specs.Prelude.{◌≡◌, true, eqb};
ghost use Rattle.tallies.specs.Lists.{within};
ghost use Rattle.tallies.specs.Tally.{bit};
ghost use Rattle.tasks.specs.Phases.{storing};
ghost use Rattle.steps.specs.Table.{after, recounted_of, raised_of, lowered_of, does, counting, l1, l2, l3, l4, l5, s1, s2, s3, s5, s6, s7, r1, v1, effect_of};

use answers::{Refusal, Reply};
use tasks::{CellNo, NodeNo, Task};

// All that a step can see but its own task's record: the node of x, the counts of m and of the cursor's node, m's value, P, K, the free nodes' number.
#[derive(Clone, Copy)]
pub struct Seen {
    pub here: NodeNo,
    pub held_count: u8,
    pub cursor_count: u8,
    pub held_value: u32,
    pub tasks: u8,
    pub nodes: u8,
    pub free: u8,
}

// The one place of the tables that a step writes. `Count(v, c, f)`: node v's count becomes c, which leaves f nodes free.
#[derive(Clone, Copy)]
pub enum Write {
    Nothing,
    Point(CellNo, NodeNo),
    Count(NodeNo, u8, u8),
    Value(NodeNo, u32),
}

#[derive(Clone, Copy)]
pub struct Deed {
    pub task: Task,
    pub write: Write,
    pub reply: Reply,
}

// A deed, or why nothing is done.
pub type Effect = Result<Deed, Refusal>;

// A count that a step changes: the write that does it, and the count then.
pub type Counted = Result<(Write, u8), Refusal>;

// The node after v, in a pool of k.
#[tactic(auto, unfolding(crate::specs::Table::after))]
pub fn next_node(k: u8, v: NodeNo) -> NodeNo
    ensures { result ≡ after k v }
{
    if k == 0 {
        return NodeNo(0);
    }
    let i = u16::from(v.0);
    let next = ((i + 1) % u16::from(k)) as u8;
    NodeNo(next)
}

// 1 if a node with that count is free, else 0.
fn free_one(count: u8) -> u16
    ensures { result ≡ bit (eqb count 0) }
{
    u16::from(count == 0)
}

// Every write of a count is made here, and with it the number of free nodes: node v's count goes from one number to another.
#[tactic(auto, unfolding(crate::specs::Table::recounted_of))]
fn recounted(s: Seen, v: NodeNo, from: u8, to: u8) -> Counted
    ensures { result ≡ recounted_of s v from to }
{
    let more = u16::from(s.free) + free_one(to);
    let less = free_one(from);
    if more < less {
        return Err(Refusal::Damaged);
    }
    let free = more - less;
    if u16::from(s.nodes) < free {
        return Err(Refusal::Damaged);
    }
    Ok((Write::Count(v, to, free as u8), to))
}

// The one place where a count goes up: node v's, which is now `count`.
#[tactic(auto, unfolding(crate::specs::Table::raised_of))]
pub fn raised(s: Seen, v: NodeNo, count: u8) -> Counted
    ensures { result ≡ raised_of s v count }
{
    if s.tasks < count {
        return Err(Refusal::Damaged);
    }
    let up = count.checked_add(1).ok_or(Refusal::Damaged)?;
    recounted(s, v, count, up)
}

// The one place where a count goes down; S3 decides on the number left behind.
#[tactic(auto, unfolding(crate::specs::Table::lowered_of))]
pub fn lowered(s: Seen, v: NodeNo, count: u8) -> Counted
    ensures { result ≡ lowered_of s v count }
{
    let left = count.checked_sub(1).ok_or(Refusal::Damaged)?;
    recounted(s, v, count, left)
}

fn done(t: Task, w: Write, r: Reply) -> Effect
    ensures { result ≡ does t w r }
{
    Ok(Deed {
        task: t,
        write: w,
        reply: r,
    })
}

fn settled(c: Counted, t: Task, r: Reply) -> Effect
    ensures { result ≡ counting c t r }
{
    let (write, _) = c?;
    done(t, write, r)
}

// The rows: a function each, also where two differ in a phase and a reply, as each row has theorems of its own (`l1_step_one` and so on).

// L1: m becomes the node of x.
pub fn l1_step(t: Task, s: Seen) -> Effect
    ensures { result ≡ l1 t s }
{
    done(t.holding(s.here).onward(2), Write::Nothing, Reply::Moved)
}

// L2: the count of m goes up by 1.
pub fn l2_step(t: Task, s: Seen) -> Effect
    ensures { result ≡ l2 t s }
{
    settled(raised(s, t.held, s.held_count), t.onward(3), Reply::Moved)
}

// L3: m is compared with the node of x. If they are equal, L4 comes next, else L5.
pub fn l3_step(t: Task, s: Seen) -> Effect
    ensures { result ≡ l3 t s }
{
    if t.held == s.here {
        done(t.onward(4), Write::Nothing, Reply::Moved)
    } else {
        done(t.onward(5), Write::Nothing, Reply::Moved)
    }
}

// L4: the value of m is copied, and the load has ended.
pub fn l4_step(t: Task, s: Seen) -> Effect
    ensures { result ≡ l4 t s }
{
    done(t.onward(6), Write::Nothing, Reply::Loaded(s.held_value))
}

// L5: the count of m goes down by 1, and the load begins again.
pub fn l5_step(t: Task, s: Seen) -> Effect
    ensures { result ≡ l5 t s }
{
    settled(lowered(s, t.held, s.held_count), t.onward(1), Reply::Moved)
}

// S1: the own node takes the value to store.
pub fn s1_step(t: Task, s: Seen) -> Effect
    ensures { result ≡ s1 t s }
{
    let o = t.own;
    done(t.onward(8), Write::Value(o, t.value), Reply::Moved)
}

// S2: if x is still at m, x points at the own node. The swap compares node numbers, never values.
pub fn s2_step(t: Task, s: Seen) -> Effect
    ensures { result ≡ s2 t s }
{
    if t.held == s.here {
        let x = t.cell;
        let o = t.own;
        done(t.onward(9), Write::Point(x, o), Reply::Moved)
    } else {
        done(t.onward(13), Write::Nothing, Reply::Moved)
    }
}

// S3: the count of m goes down by 1. The storing task itself still holds m, so m is free for it if 1 is left.
pub fn s3_step(t: Task, s: Seen) -> Effect
    ensures { result ≡ s3 t s }
{
    let (w, left) = lowered(s, t.held, s.held_count)?;
    if left == 1 {
        done(t.owning(t.held).onward(0), w, Reply::Took)
    } else {
        done(t.onward(11), w, Reply::Moved)
    }
}

// S5: the count of m goes down by 1, and the cursor goes to the node after m.
pub fn s5_step(t: Task, s: Seen) -> Effect
    ensures { result ≡ s5 t s }
{
    settled(
        lowered(s, t.held, s.held_count),
        t.probing(next_node(s.nodes, t.held)).onward(12),
        Reply::Moved,
    )
}

// S6: if the cursor's node is free, it becomes the own node, else the cursor goes on. The test and the setting of the count are one step.
pub fn s6_step(t: Task, s: Seen) -> Effect
    ensures { result ≡ s6 t s }
{
    if s.cursor_count == 0 {
        let v = t.cursor;
        settled(recounted(s, v, 0, 1), t.owning(v).onward(0), Reply::Took)
    } else {
        done(
            t.probing(next_node(s.nodes, t.cursor)).onward(12),
            Write::Nothing,
            Reply::Moved,
        )
    }
}

// S7: the count of m goes down by 1, and the store is lost.
pub fn s7_step(t: Task, s: Seen) -> Effect
    ensures { result ≡ s7 t s }
{
    settled(lowered(s, t.held, s.held_count), t.onward(0), Reply::Lost)
}

// R1: the count of m goes down by 1, and the release has ended.
pub fn r1_step(t: Task, s: Seen) -> Effect
    ensures { result ≡ r1 t s }
{
    settled(
        lowered(s, t.held, s.held_count),
        t.onward(0),
        Reply::Released,
    )
}

// V1: m is compared with the node of x. Like the swap, it compares node numbers, never values; either way the task stays linked.
pub fn v1_step(t: Task, s: Seen) -> Effect
    ensures { result ≡ v1 t s }
{
    let good = t.held == s.here;
    if good {
        done(t.onward(6), Write::Nothing, Reply::Good)
    } else {
        done(t.onward(6), Write::Nothing, Reply::Gone)
    }
}

// Phases 1 to 5. Document 01 has the phases matched by ranges, so the rows stand in two functions of their own.
#[tactic(auto, using(crate::proofs::Rows::effect_at), unfolding(crate::specs::Table::rows))]
fn load_step(t: Task, s: Seen) -> Effect
    requires { within 1 5 t.phase ≡ true }
    ensures { result ≡ effect_of t s }
{
    let f = t.phase;
    match f {
        1 => l1_step(t, s),
        2 => l2_step(t, s),
        3 => l3_step(t, s),
        4 => l4_step(t, s),
        _ => l5_step(t, s),
    }
}

// Phases 7 to 9 and 11 to 13: there is no phase 10.
#[tactic(auto, using(crate::proofs::Rows::effect_at), unfolding(crate::specs::Table::rows))]
fn store_step(t: Task, s: Seen) -> Effect
    requires { storing t.phase ≡ true }
    ensures { result ≡ effect_of t s }
{
    let f = t.phase;
    match f {
        7 => s1_step(t, s),
        8 => s2_step(t, s),
        9 => s3_step(t, s),
        11 => s5_step(t, s),
        12 => s6_step(t, s),
        _ => s7_step(t, s),
    }
}

// What the step of a task does, decided by its phase. A run goes by `turns::go`, which asks the same rows and writes back on the spot.
#[tactic(auto, using(crate::proofs::Rows::effect_at, crate::proofs::Rows::effect_no_phase), unfolding(crate::specs::Table::rows))]
pub fn step(t: Task, s: Seen) -> Effect
    ensures { result ≡ effect_of t s }
{
    let f = t.phase;
    match f {
        0 => Err(Refusal::NoStep),
        1..=5 => load_step(t, s),
        6 => Err(Refusal::NoStep),
        7..=9 | 11..=13 => store_step(t, s),
        14 => r1_step(t, s),
        15 => v1_step(t, s),
        _ => Err(Refusal::Damaged),
    }
}
