// The two places where this program lends records to the library.
ghost use Rattle.std.specs.Prelude.{◌≡◌, ◌<◌, ◌≤◌, get_or, set, take};
ghost use Rattle.tasks.specs.Records.{no_task};
ghost use Rattle.tasks.specs.Calls.{begun_of};
ghost use Rattle.tasks.specs.Holders.{holders_of};

use tasks::{Call, NodeNo, Task};

// One record of a row is lent to `begin` where it lies; its neighbours are not.
pub(crate) fn start_at(ts: &mut [Task; 4], i: usize, c: Call)
    requires { i < 4 }
    ensures { ts.new ≡ set ts.old i (begun_of (get_or ts.old i no_task) c) }
{
    tasks::begin(&mut ts[i], c);
}

// The first n records of a row are lent to `holders`. Seventeen is one more than a list may have.
pub(crate) fn ask(ts: &[Task], node: NodeNo) -> Option<usize>
    ensures { result ≡ holders_of ts.now node }
{
    tasks::holders(ts, node)
}
