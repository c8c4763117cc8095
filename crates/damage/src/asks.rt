// The free-nodes question, of N, P, K and the number that a record keeps.
use cells::free::{free_nodes, free_number, free_value};
use std::io;

pub(crate) fn numbers(rt: &impl Print) -> io::Result<()> {
    for (n, p, k, free) in [
        (2, 2, 100, 96),
        (2, 2, 100, 0),
        (2, 2, 100, 22),
        (2, 2, 100, 100),
        (2, 2, 100, 101),
        (2, 2, 100, 255),
        (0, 2, 100, 0),
        (64, 16, 96, 16),
        (65, 2, 100, 0),
        (2, 0, 100, 0),
        (2, 17, 100, 0),
        (2, 2, 5, 0),
        (2, 2, 6, 6),
        (2, 2, 128, 128),
        (2, 2, 129, 0),
        (0, 0, 0, 0),
    ] {
        let f = free_nodes(n, p, k, free);
        let (number, value) = (free_number(f), free_value(f));
        println!(rt; "N {n} P {p} K {k} free {free}: question {number} {value}")?;
    }
    Ok(())
}
