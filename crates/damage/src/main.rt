// Records that no setup and no bytes can reach: each is a setup's record with one thing in it changed by hand. What the library says of them.
// A line has a label, which says what was changed, then
// - `entry`: the reply to one entry of task 1 (number, task byte, value), and whether the record came back as it was;
// - `run`: the six numbers of a run of that entry and a go of task 1, whether the record came back as it was, and the whole reply buffer, which held aa everywhere.
// The setup has N 2, P 2, K 100. The groups, in this order:
// - `N .. P .. K ..`: the sizes. N 0 and 65, P 0 and 17, K 0, 5 and 129 are damage (22 by the ranges: task byte 0, record kept, no byte written); N 64, P 16, K 6 and 128 are not.
// - `free ..`: the number of free nodes. 101 and more, which are above K, are damage. Here the run also has a buffer of three aa for the numbers after each entry, shown last.
// - `pointer .. count ..`: of cell 1 and of node 50. Pointers from 100, which is K, and counts from 4, which is P+2, are damage.
// - `task 0 phase ..`: its record. Own, m and cursor from 100, a cell from 2, which is N, and phases 10 and from 16 are damage.
// - `rubbish`: what stands past N, P and K makes no difference.
// - `task 1 phase .., count of m ..`: the entry is a go. All ranges hold but for phases 10 and 16. 9 goes by the number that it leaves. 15 lowers nothing. 5, 9, 11, 13 and 14 can't lower 0, and 2 can't raise P+1, which is 3 (22 by the step: the entry's task byte, record kept, a run writes it as the last reply).
// - `free .., task 1 phase .., count of m ..`: the same with another number of free nodes, node 0 being the cursor's too. 2 and 12 can't take node 0 into use where 0 are free, and no step can leave it at 0 where 100, which is K, are free (22 by the step); a count that stays above 0 doesn't ask. 101 is damage by the ranges.
// - `N .. P .. K .. free ..: question`: the free-nodes question, its number (22 or 0) and its value.
// - `run of .. bytes`: 21 for a buffer a byte too short, a cut entry included. An empty schedule needs no buffer. 22 comes before 21.
// - `entry of .. bytes`: an entry is its first ten bytes, and what follows changes nothing. 22 comes before 20.
#![tactic(auto)]

use std::io;

mod asks;
mod by_range;
mod by_step;
mod hurts;
mod lengths;
mod lines;
mod shows;

fn main(rt: HostRuntime) -> io::Result<()> {
    by_range::sizes(&rt)?;
    by_range::frees(&rt)?;
    by_range::tables(&rt)?;
    by_range::records(&rt)?;
    by_range::unused(&rt)?;
    by_step::steps(&rt)?;
    by_step::frees(&rt)?;
    asks::numbers(&rt)?;
    lengths::runs(&rt)?;
    lengths::entries(&rt)
}
