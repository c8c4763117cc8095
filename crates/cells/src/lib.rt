// The machine record: set up from bytes, one entry at a time, and the questions asked of it.
#![tactic(auto)]

pub mod free;
pub mod start;

ghost use Rattle.std.specs.Prelude.{◌≡◌};
ghost use Rattle.tasks.specs.Holders.{held_among};
ghost use Rattle.steps.specs.Table.{answer_of};
ghost use Rattle.tables.specs.Tables.{task_in, put_in};
ghost use Rattle.cells.specs.Machine.{seen_in, seen_of, cells_by, values_by, counts_by, free_by, placed, written, left_by, tables_ok, in_range};
ghost use Rattle.cells.specs.Apply.{decision_of, apply_of};
ghost use Rattle.cells.specs.Setup.{setup_of, setup_number, setup_bytes};

use answers::{Answer, Refusal};
use steps::{Effect, Seen, Write};
use tables::{count_at, node_at, put_count, put_node, put_value, value_at};
use tasks::{NodeNo, Task, TaskNo};

// N, P, K and the number of free nodes; each cell's node; each node's value and count; the task records. What stands past N, P and K makes no difference. The tables stay arrays side by side: document 01 has them so, and `setup_of` and `apply_of` speak of them.
#[derive(Clone, Copy, PartialEq, Eq)]
pub struct Machine {
    pub n: u8,
    pub p: u8,
    pub k: u8,
    pub free: u8,
    pub cells: [u8; 64],
    pub values: [u32; 128],
    pub counts: [u8; 128],
    pub tasks: [Task; 16],
}

// A machine beside the reply to an entry: the answer, with its number and value, and the task byte. Document 01 has the machine handed back on a refusal too (`refused-entry`).
#[derive(Clone, Copy)]
pub struct Applied {
    pub machine: Machine,
    pub answer: Answer,
    pub task: u8,
}

// A machine beside a setup's answer: how many bytes it used, as later bytes belong to the schedule. A refused one has a machine too, all zero (`refused-setup`).
#[derive(Clone, Copy)]
pub struct SetUp {
    pub machine: Machine,
    pub answer: Result<usize, Refusal>,
}

impl Machine {
    // The machine of a setup record's bytes. A refused one hands back a record of all zeros.
    pub fn setup(s: &[u8]) -> SetUp
        ensures { result ≡ setup_of s.now }
    {
        let mut machine = start::blank();
        let answer = start::fill(&mut machine, s);
        SetUp { machine, answer }
    }
}

// Beside `refusal_or_0`: `setup_number_one` and PROMISES name it, and `setup_bytes` likewise.
pub fn setup_number(a: Result<usize, Refusal>) -> u8
    ensures { result ≡ setup_number a }
{
    answers::refusal_or_0(a)
}

pub fn setup_bytes(a: Result<usize, Refusal>) -> usize
    ensures { result ≡ setup_bytes a }
{
    a.unwrap_or(0)
}

// What an entry does to its task, and the task byte of its reply, which a refusal has too (`decision_of`).
#[derive(Clone, Copy)]
pub struct Decision {
    pub task: u8,
    pub effect: Effect,
}

// What a step of the task record t may look at in lent tables, of p tasks and k nodes, of which so many are free. A table may be shorter than a machine's.
pub fn seen<'a>(
    cells: &'a [u8],
    values: &'a [u32],
    counts: &'a [u8],
    t: Task,
    p: u8,
    k: u8,
    free: u8,
) -> Seen
    ensures { result ≡ seen_in cells.now values.now counts.now t p k free }
{
    Seen {
        here: node_at(cells, t.cell),
        held_count: count_at(counts, t.held),
        cursor_count: count_at(counts, t.cursor),
        held_value: value_at(values, t.held),
        tasks: p,
        nodes: k,
        free,
    }
}

// The range test (22) of all but the task records, of lent tables likewise.
pub fn tables_ok<'a>(n: u8, p: u8, k: u8, free: u8, cells: &'a [u8], counts: &'a [u8]) -> bool
    ensures { result ≡ tables_ok n p k free cells.now counts.now }
{
    free::pool_ok(n, p, k, free) && tables::cells_ok(cells, n, k) && tables::counts_ok(counts, k, p)
}

// A step's one write, put into the table that it belongs to; the other tables are left alone. A function for each, as each has a case of `Write` of its own.

pub fn write_cells(cells: &mut [u8; 64], w: Write)
    ensures { cells.new ≡ cells_by (put_in 64) w cells.old }
{
    if let Write::Point(x, v) = w {
        put_node(cells, x, v);
    }
}

pub fn write_values(values: &mut [u32; 128], w: Write)
    ensures { values.new ≡ values_by (put_in 128) w values.old }
{
    if let Write::Value(v, y) = w {
        put_value(values, v, y);
    }
}

pub fn write_counts(counts: &mut [u8; 128], w: Write)
    ensures { counts.new ≡ counts_by (put_in 128) w counts.old }
{
    if let Write::Count(v, c, _) = w {
        put_count(counts, v, c);
    }
}

// How many nodes are free after a write, if so many were before it.
pub fn write_free(free: u8, w: Write) -> u8
    ensures { result ≡ free_by w free }
{
    match w {
        Write::Count(_, _, left) => left,
        _ => free,
    }
}

// Whose record stands for task p's: its own, or the last for a number past the 16th. The compiler makes no branch of it.
fn placed(p: TaskNo) -> TaskNo
    ensures { result ≡ placed p }
{
    if p.0 < 16 { p } else { TaskNo(15) }
}

impl Machine {
    pub fn task_at(&self, p: TaskNo) -> Task
        ensures { result ≡ task_in self.now.tasks p }
    {
        tables::task_at(&self.tasks, p)
    }

    // The same, where a number past the 16th stands for the last.
    pub fn task(&self, p: TaskNo) -> Task
        ensures { result ≡ task_in self.now.tasks (placed p) }
    {
        self.task_at(placed(p)).copied()
    }

    // What a step of the task record t may look at.
    pub fn seen(&self, t: Task) -> Seen
        ensures { result ≡ seen_of self.now t }
    {
        seen(
            &self.cells,
            &self.values,
            &self.counts,
            t,
            self.p,
            self.k,
            self.free,
        )
    }

    // The range test (22) of all but the task records.
    pub fn tables_ok(&self) -> bool
        ensures { result ≡ tables_ok self.now.n self.now.p self.now.k self.now.free self.now.cells self.now.counts }
    {
        tables_ok(self.n, self.p, self.k, self.free, &self.cells, &self.counts)
    }

    // The range test (22).
    pub fn in_range(&self) -> bool
        ensures { result ≡ in_range self.now }
    {
        self.tables_ok() && tables::tasks_ok(&self.tasks, self.n, self.p, self.k)
    }

    // The one place where a step is written back: it holds the task's record and the one place that changes.
    fn write(&mut self, p: TaskNo, t: Task, w: Write)
        ensures { self.new ≡ written self.old (placed p) t w }
    {
        write_cells(&mut self.cells, w);
        write_values(&mut self.values, w);
        write_counts(&mut self.counts, w);
        self.free = write_free(self.free, w);
        self.tasks[tables::slot(p)] = t.copied();
    }

    // An effect, carried out. A refusal writes nothing.
    pub fn carry(&mut self, p: TaskNo, e: Effect) -> Answer
        ensures { (self.new ≡ left_by self.old (placed p) e) × (result ≡ answer_of e) }
    {
        let d = e?;
        self.write(p, d.task, d.write);
        Ok(d.reply)
    }

    // What one schedule entry does, from its bytes; nothing is written.
    #[tactic(auto, unfolding(crate::specs::Apply::judged_of, crate::specs::Apply::decision_of))]
    fn decided(&self, s: &[u8]) -> Decision
        ensures { result ≡ decision_of self.now s.now }
    {
        if !self.in_range() {
            return Decision {
                task: 0,
                effect: Err(Refusal::Damaged),
            };
        }
        match entries::read_entry(s) {
            Err(r) => Decision {
                task: 0,
                effect: Err(r),
            },
            Ok(e) => {
                let t = self.task(e.task);
                let effect = entries::order(self.n, self.p, e, t, self.seen(t));
                Decision {
                    task: e.task.0,
                    effect,
                }
            }
        }
    }

    // One schedule entry, from its bytes: it is decided, and then written back. A refused entry hands the record back unchanged.
    #[tactic(auto, unfolding(crate::specs::Apply::apply_of, crate::specs::Machine::carried_of))]
    pub fn apply(mut self, s: &[u8]) -> Applied
        ensures { result ≡ apply_of self s.now }
    {
        let d = self.decided(s);
        let answer = self.carry(TaskNo(wire::byte_at(s, 2)), d.effect);
        Applied {
            machine: self,
            answer,
            task: d.task,
        }
    }

    // The holders question, asked of the record's own tasks.
    pub fn holders(&self, v: NodeNo) -> Option<usize>
        ensures { result ≡ held_among self.now.tasks self.now.p v }
    {
        tasks::held_among(&self.tasks, self.p, v)
    }
}
