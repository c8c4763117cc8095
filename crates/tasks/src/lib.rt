// A task's record, the three kinds of number, and the two places where records are lent: starting a call, and the holders question.
#![tactic(auto)]

ghost use Rattle.std.specs.Prelude.{◌≡◌, ◌&&◌, eqb};
ghost use Rattle.tasks.specs.Phases.{holds};
ghost use Rattle.tasks.specs.Records.{idle_owning, onward, holding, owning, probing, task_ok};
ghost use Rattle.tasks.specs.Calls.{begun_of};
ghost use Rattle.tasks.specs.Holders.{keeps, beyond_of, holders_of, held_among, holders_number, holders_value};

// A cell number, a node number and a task number are different types: one can't be handed over where another is due.
#[derive(Clone, Copy, PartialEq, Eq)]
pub struct CellNo(pub u8);

#[derive(Clone, Copy, PartialEq, Eq)]
pub struct NodeNo(pub u8);

#[derive(Clone, Copy, PartialEq, Eq)]
pub struct TaskNo(pub u8);

// Document 01's fields: x is `cell`, Y is `value`, m is `held`. `phase` is no enum, as a damaged record may have any number there.
#[derive(Clone, Copy, PartialEq, Eq)]
pub struct Task {
    pub phase: u8,
    pub cell: CellNo,
    pub value: u32,
    pub held: NodeNo,
    pub own: NodeNo,
    pub cursor: NodeNo,
}

// A call that a task starts.
#[derive(Clone, Copy)]
pub enum Call {
    Load(CellNo),
    Store(u32),
    Release,
    Validate,
}

// The record of an idle task that owns node v.
pub fn idle_owning(v: NodeNo) -> Task
    ensures { result ≡ idle_owning v }
{
    Task {
        phase: 0,
        cell: CellNo(0),
        value: 0,
        held: NodeNo(0),
        own: v,
        cursor: NodeNo(0),
    }
}

impl Task {
    pub fn onward(self, phase: u8) -> Task
        ensures { result ≡ onward self phase }
    {
        Task { phase, ..self }
    }

    pub fn holding(self, held: NodeNo) -> Task
        ensures { result ≡ holding self held }
    {
        Task { held, ..self }
    }

    pub fn owning(self, own: NodeNo) -> Task
        ensures { result ≡ owning self own }
    {
        Task { own, ..self }
    }

    pub fn probing(self, cursor: NodeNo) -> Task
        ensures { result ≡ probing self cursor }
    {
        Task { cursor, ..self }
    }

    // The same record, made anew of its fields. A run's records go in and out of their table so.
    pub fn copied(self) -> Task
        ensures { result ≡ self }
    {
        Task { ..self }
    }

    // The part of refusal 22's ranges that concerns one record, for n cells and k nodes.
    #[tactic(auto, unfolding(crate::specs::Records::task_ok))]
    pub fn in_range(self, n: u8, k: u8) -> bool
        ensures { result ≡ task_ok n k self }
    {
        self.phase <= 15
            && self.phase != 10
            && self.cell.0 < n
            && self.held.0 < k
            && self.own.0 < k
            && self.cursor.0 < k
    }

    // Whether the task holds the node, by its m.
    fn holds(self, node: NodeNo) -> bool
        ensures { result ≡ (holds self.phase && eqb self.held.0 node.0) }
    {
        matches!(self.phase, 3..=9 | 11 | 13..=15) && self.held == node
    }
}

// The core of `begin`, by value: document 01 has both.
pub fn begun(t: Task, c: Call) -> Task
    ensures { result ≡ begun_of t c }
{
    let mut u = t;
    match c {
        Call::Load(x) => {
            u.phase = 1;
            u.cell = x;
        }
        Call::Store(y) => {
            u.phase = 7;
            u.value = y;
        }
        Call::Release => {
            u.phase = 14;
        }
        Call::Validate => {
            u.phase = 15;
        }
    }
    u
}

// Starting a call: the one task's record is lent to be updated.
pub fn begin(t: &mut Task, c: Call)
    ensures { t.new ≡ begun_of t.old c }
{
    *t = begun(*t, c);
}

// The bridge: a record that is handed over by value, of which a copy is lent.
pub fn lent_begin(t: Task, c: Call) -> Task
    ensures { result ≡ begun_of t c }
{
    let mut u = t;
    begin(&mut u, c);
    u
}

// 1 where the task holds the node, else 0.
pub fn holds_one(t: Task, node: NodeNo) -> usize
    ensures { result ≡ keeps node.0 t }
{
    usize::from(t.holds(node))
}

// Refusal 24: a list of n records is too long, or there is no such node in any pool.
pub fn beyond(n: usize, node: NodeNo) -> bool
    ensures { result ≡ beyond_of n node }
{
    16 < n || 127 < node.0
}

// The holders question: how many of the lent task records hold the node; none if it is refused, which is number 24.
#[tactic(auto, using(crate::proofs::Answer::holders_counted), unfolding(crate::specs::Holders::holders_of))]
pub fn holders(ts: &[Task], node: NodeNo) -> Option<usize>
    ensures { result ≡ holders_of ts.now node }
{
    if beyond(ts.len(), node) {
        return None;
    }
    Some(ts.iter().filter(|t| holds_one(**t, node) == 1).count())
}

// The holders question of the first p records of a table; a table of more than 16 is refused as such a list is.
#[tactic(auto, unfolding(crate::specs::Holders::held_among))]
pub fn held_among(ts: &[Task; 16], p: u8, node: NodeNo) -> Option<usize>
    ensures { result ≡ held_among ts.now p node }
{
    holders(ts.get(..usize::from(p))?, node)
}

// 24 is no number of a `Refusal`, which is of setups, entries and runs.
pub fn holders_number(h: Option<usize>) -> u8
    ensures { result ≡ holders_number h }
{
    match h {
        Some(_) => 0,
        None => 24,
    }
}

pub fn holders_value(h: Option<usize>) -> usize
    ensures { result ≡ holders_value h }
{
    h.unwrap_or(0)
}
