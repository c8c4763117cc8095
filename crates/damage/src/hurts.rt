// A setup's record, whole or with one thing in it replaced.
use cells::Machine;
use tasks::{CellNo, NodeNo, Task, TaskNo};

// N 2, P 2, K 100, values 7 and 8.
pub(crate) fn sound() -> Machine {
    Machine::setup(&[0x53, 0x55, 2, 2, 100, 0, 7, 0, 0, 0, 8, 0, 0, 0]).machine
}

// With another number of free nodes than its 96.
pub(crate) fn freed(free: u8) -> Machine {
    Machine { free, ..sound() }
}

// A task's record from plain numbers, as only a damage can make it. A struct for these would be longer than the calls.
pub(crate) fn task(phase: u8, x: u8, m: u8, own: u8, cursor: u8) -> Task {
    Task {
        phase,
        cell: CellNo(x),
        value: 0,
        held: NodeNo(m),
        own: NodeNo(own),
        cursor: NodeNo(cursor),
    }
}

pub(crate) fn replaced(p: TaskNo, t: Task) -> Machine {
    let mut d = sound();
    d.tasks[tables::slot(p)] = t;
    d
}

// Task 1 in that phase, at cell 0, with node 0 as its m and its cursor; node 0 has that count, and so many nodes are free.
pub(crate) fn stepping(phase: u8, count: u8, free: u8) -> Machine {
    let mut d = replaced(TaskNo(1), task(phase, 0, 0, 3, 0));
    d.counts[0] = count;
    d.free = free;
    d
}
