// The tables of a machine, each read and written through the one kind of number that belongs to it; their range tests; their fresh contents.
#![tactic(auto)]

ghost use Rattle.std.specs.Prelude.{◌≡◌, ℕ, min, get_or};
ghost use Rattle.tallies.specs.Lists.{every, fill_to};
ghost use Rattle.tables.specs.Tables.{node_in, count_in, value_in, task_in, put_in, sizes_ok, cell_ok, count_ok, task_ok_in, value_given};

use tasks::{CellNo, NodeNo, Task, TaskNo};

// Entry i of a table, and `or` past its end.
fn at<T: Copy>(table: &[T], i: u8, or: T) -> T
    ensures { result ≡ get_or table.now i or }
{
    table.get(usize::from(i)).copied().unwrap_or(or)
}

// The node that cell x points at.
pub fn node_at(cells: &[u8], x: CellNo) -> NodeNo
    ensures { result ≡ node_in cells.now x }
{
    NodeNo(at(cells, x.0, 0))
}

pub fn count_at(counts: &[u8], v: NodeNo) -> u8
    ensures { result ≡ count_in counts.now v }
{
    at(counts, v.0, 0)
}

pub fn value_at(values: &[u32], v: NodeNo) -> u32
    ensures { result ≡ value_in values.now v }
{
    at(values, v.0, 0)
}

pub fn task_at(tasks: &[Task; 16], p: TaskNo) -> Task
    ensures { result ≡ task_in tasks.now p }
{
    at(tasks, p.0, tasks::idle_owning(NodeNo(0)))
}

// Entry i of a table becomes y; nothing does past its end.
#[tactic(auto, unfolding(crate::specs::Tables::put_in))]
fn put<T: Copy, const N: usize>(table: &mut [T; N], i: u8, y: T)
    ensures { table.new ≡ put_in N table.old i y }
{
    let i = usize::from(i);
    if i < N {
        table[i] = y;
    }
}

pub fn put_node(cells: &mut [u8; 64], x: CellNo, v: NodeNo)
    ensures { cells.new ≡ put_in 64 cells.old x.0 v.0 }
{
    put(cells, x.0, v.0);
}

pub fn put_count(counts: &mut [u8; 128], v: NodeNo, c: u8)
    ensures { counts.new ≡ put_in 128 counts.old v.0 c }
{
    put(counts, v.0, c);
}

pub fn put_value(values: &mut [u32; 128], v: NodeNo, y: u32)
    ensures { values.new ≡ put_in 128 values.old v.0 y }
{
    put(values, v.0, y);
}

// Where task p's record stands in a table of 16; for a task that has none, the last place.
pub fn slot(p: TaskNo) -> usize
    ensures { result ≡ min p.0 15 }
{
    usize::from(p.0.min(15))
}

// The range test (22), table by table. The loops are over numbers, as a place past a table's end counts as 0; the two differ in their table's kind of number.

#[tactic(auto, unfolding(crate::specs::Tables::sizes_ok))]
pub fn sizes_ok(n: u8, p: u8, k: u8) -> bool
    ensures { result ≡ sizes_ok n p k }
{
    (1..=64).contains(&n) && (1..=16).contains(&p) && n + 2 * p <= k && k <= 128
}

#[tactic(auto, using(crate::proofs::Laws::tested_more), unfolding(tallies::specs::Lists::every))]
pub fn cells_ok(cells: &[u8], n: u8, k: u8) -> bool
    ensures { result ≡ every (cell_ok cells.now k) n }
{
    let mut ok = true;
    for i in 0..n {
        ok &= node_at(cells, CellNo(i)).0 < k;
    }
    ok
}

#[tactic(auto, using(crate::proofs::Laws::tested_more), unfolding(tallies::specs::Lists::every))]
pub fn counts_ok(counts: &[u8], k: u8, p: u8) -> bool
    ensures { result ≡ every (count_ok counts.now p) k }
{
    let top = u16::from(p) + 1;
    let mut ok = true;
    for i in 0..k {
        ok &= u16::from(count_at(counts, NodeNo(i))) <= top;
    }
    ok
}

// Of the first p records, and of 16 at most: the table has no more.
pub fn tasks_ok(tasks: &[Task; 16], n: u8, p: u8, k: u8) -> bool
    ensures { result ≡ every (task_ok_in tasks.now n k) (min p 16) }
{
    tasks.iter().take(usize::from(p)).all(|t| t.in_range(n, k))
}

// The fresh machine, table by table: the first n places are filled. There are three, as each is one line in a `for`.

// Cell i points at node i.
#[tactic(auto, using(crate::proofs::Laws::put_more), unfolding(tallies::specs::Lists::fill_to))]
pub fn point_cells(cells: &mut [u8; 64], n: u8)
    ensures { cells.new ≡ fill_to (λ (i : ℕ). i) (min n 64) cells.old }
{
    for i in 0..n.min(64) {
        put_node(cells, CellNo(i), NodeNo(i));
    }
}

// Node i holds the i-th value of a setup's bytes.
#[tactic(auto, using(crate::proofs::Laws::put_more), unfolding(tallies::specs::Lists::fill_to))]
pub fn give_values(values: &mut [u32; 128], s: &[u8], n: u8)
    ensures { values.new ≡ fill_to (value_given s.now) (min n 128) values.old }
{
    for i in 0..n.min(128) {
        put_value(values, NodeNo(i), wire::word_at(s, 6 + 4 * u32::from(i)));
    }
}

// The first n nodes have a count of 1.
#[tactic(auto, using(crate::proofs::Laws::put_more), unfolding(tallies::specs::Lists::fill_to))]
pub fn count_ones(counts: &mut [u8; 128], n: u8)
    ensures { counts.new ≡ fill_to (λ (i : ℕ). 1) (min n 128) counts.old }
{
    for i in 0..n.min(128) {
        put_count(counts, NodeNo(i), 1);
    }
}
