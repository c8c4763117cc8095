// 22 by the step: the ranges hold, but the count of node 0, which task 1 holds, can't be lowered or raised, or the number of free nodes can't follow it.
use crate::hurts;
use crate::shows::{Kind, shows, shows_free};
use std::io;

pub(crate) fn frees(rt: &impl Print) -> io::Result<()> {
    for (free, phase, count) in [
        // L2 and S6 take a node that is free, if there is one to be had.
        (1, 2, 0),
        (0, 2, 0),
        (0, 2, 1),
        (1, 12, 0),
        (0, 12, 0),
        (0, 12, 1),
        // A count that comes to 0 frees a node, unless all are free already.
        (99, 5, 1),
        (100, 5, 1),
        (100, 5, 2),
        (100, 9, 1),
        (100, 9, 2),
        (100, 11, 1),
        (100, 13, 1),
        (100, 14, 1),
        // More than K are damage by the ranges, with a go as well as with the load above.
        (101, 14, 2),
    ] {
        print!(rt; "free {free}, task 1 phase {phase}, count of m {count}")?;
        shows_free(rt, hurts::stepping(phase, count, free), Kind::Go)?;
    }
    Ok(())
}

pub(crate) fn steps(rt: &impl Print) -> io::Result<()> {
    for (phase, count) in [
        (5, 1),
        (5, 0),
        // S3 goes by what it leaves: 1 ends the store, 2 leads on to S5, and so does 0, which S5 then can't lower.
        (9, 3),
        (9, 2),
        (9, 1),
        (9, 0),
        (11, 1),
        (11, 0),
        (13, 1),
        (13, 0),
        (14, 1),
        (14, 0),
        // V1 lowers nothing.
        (15, 0),
        (2, 2),
        (2, 3),
        // Damage by the ranges, with a go as well as with the load above.
        (10, 1),
        (16, 1),
    ] {
        print!(rt; "task 1 phase {phase}, count of m {count}")?;
        shows(rt, hurts::stepping(phase, count, 96), Kind::Go)?;
    }
    Ok(())
}
