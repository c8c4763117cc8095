// How a machine starts: a setup from its bytes. Its head, and its machine in a lent record.
ghost use Rattle.std.specs.Prelude.{◌≡◌, ℕ, ◌+◌, ◌*◌, ◌≤◌, replicate};
ghost use Rattle.tallies.specs.Lists.{fill_to};
ghost use Rattle.tasks.specs.Records.{node_no, no_task, idle_owning};
ghost use Rattle.cells.specs.Setup.{blank_of, refused_setup, setup_of, head_of};

use crate::Machine;
use answers::Refusal;
use tasks::{NodeNo, Task, TaskNo};

// A setup's answer and the sizes of its machine, which are 0 if it is refused: theorems of `excluded` say so.
#[derive(Clone, Copy)]
pub struct Head {
    pub n: u8,
    pub p: u8,
    pub k: u8,
    pub answer: Result<usize, Refusal>,
}

// All zero.
pub fn blank() -> Machine
    ensures { result ≡ blank_of }
{
    Machine {
        n: 0,
        p: 0,
        k: 0,
        free: 0,
        cells: [0; 64],
        values: [0; 128],
        counts: [0; 128],
        tasks: [tasks::idle_owning(NodeNo(0)); 16],
    }
}

// Task i owns node n+i.
#[tactic(auto, using(tallies::proofs::Lists::fill_none))]
fn owners(n: u8, p: u8) -> [Task; 16]
    requires { (n ≤ 64) × (p ≤ 16) }
    ensures { result ≡ fill_to (λ (i : ℕ). idle_owning (node_no (n + i))) p (replicate 16 no_task) }
{
    let mut ts = [tasks::idle_owning(NodeNo(0)); 16];
    for i in 0..p {
        ts[tables::slot(TaskNo(i))] = tasks::idle_owning(NodeNo(n + i));
    }
    ts
}

// The length of a setup record for n cells.
fn setup_len(n: u8) -> usize
    ensures { result ≡ 6 + 4 * n }
{
    6 + 4 * usize::from(n)
}

fn refused_head(r: Refusal) -> Head
    ensures { result ≡ head_of (refused_setup r) }
{
    Head {
        n: 0,
        p: 0,
        k: 0,
        answer: Err(r),
    }
}

// The refusals of a setup record's bytes, or its sizes and the bytes used. No table is filled: so a caller who asks for no machine pays for none.
#[tactic(auto, unfolding(crate::specs::Setup::setup_of, crate::specs::Setup::fresh_of))]
pub fn read_head(s: &[u8]) -> Head
    ensures { result ≡ head_of (setup_of s.now) }
{
    if s.len() < 6 {
        return refused_head(Refusal::TooShort);
    }
    if !wire::starts_with(s, wire::SETUP) {
        return refused_head(Refusal::WrongMark);
    }
    if s[5] != 0 {
        return refused_head(Refusal::NotZero);
    }
    let n = s[2];
    let p = s[3];
    let k = s[4];
    if !tables::sizes_ok(n, p, k) {
        return refused_head(Refusal::Sizes);
    }
    let used = setup_len(n);
    if s.len() < used {
        return refused_head(Refusal::TooShort);
    }
    Head {
        n,
        p,
        k,
        answer: Ok(used),
    }
}

// The one place where a machine is set up: in a lent one, whatever it held. A refused setup leaves all zeros, as one of no cells, tasks and nodes would.
pub fn fill(m: &mut Machine, s: &[u8]) -> Result<usize, Refusal>
    ensures { (m.new ≡ (setup_of s.now).machine) × (result ≡ (setup_of s.now).answer) }
{
    let h = read_head(s);
    m.n = h.n;
    m.p = h.p;
    m.k = h.k;
    m.free = h.k - h.n - h.p;
    m.cells = [0; 64];
    m.values = [0; 128];
    m.counts = [0; 128];
    tables::point_cells(&mut m.cells, h.n);
    tables::give_values(&mut m.values, s, h.n);
    tables::count_ones(&mut m.counts, h.n + h.p);
    m.tasks = owners(h.n, h.p);
    h.answer
}
