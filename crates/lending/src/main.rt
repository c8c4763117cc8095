// The two places where document 01 lends task records, used as a caller uses them. Each line is one question: a label, then what the answer says.
// - `lone`: `begin` is lent one record. The six numbers are its phase, cell x, store value Y, held node m, own node and cursor. A load changes phase and x, a store phase and Y, a release and a validate the phase; nothing else changes.
// - `row`: `begin` is lent one record of a row of four, where it lies. All four are printed after each call, so that the neighbours are seen to stay as they were.
// - `list`: the holders question, with its number (0 answered, 24 refused) and its count. The length may be 0 to 16; records past the lent part don't count.
// - `node`: the same for node numbers: 127 is the last that is answered.
// - `phase`: one record in that phase whose m is the node asked for: 3 to 9, 11 and 13 to 15 count, and no others.
#![tactic(auto)]

use std::io;

mod asks;
mod begins;
mod lends;
mod lines;

fn main(rt: HostRuntime) -> io::Result<()> {
    begins::lone(&rt)?;
    begins::row(&rt)?;
    asks::lengths(&rt)?;
    asks::nodes(&rt)?;
    asks::phases(&rt)
}
