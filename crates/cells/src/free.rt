// How many nodes are free: the question, which the display asks after every entry.
ghost use Rattle.std.specs.Prelude.{◌≡◌};
ghost use Rattle.cells.specs.Machine.{pool_ok};
ghost use Rattle.cells.specs.Free.{free_of, free_number, free_value};

use answers::Refusal;

// The range test (22) of the sizes and the number of free nodes.
pub(crate) fn pool_ok(n: u8, p: u8, k: u8, free: u8) -> bool
    ensures { result ≡ pool_ok n p k free }
{
    tables::sizes_ok(n, p, k) && free <= k
}

// The free-nodes question, handed four numbers of a record and none of its tables: it may be asked after every entry, and of numbers that no record has.
#[tactic(auto, unfolding(crate::specs::Free::free_of))]
pub fn free_nodes(n: u8, p: u8, k: u8, free: u8) -> Result<u8, Refusal>
    ensures { result ≡ free_of n p k free }
{
    if !pool_ok(n, p, k, free) {
        return Err(Refusal::Damaged);
    }
    Ok(free)
}

// Beside `refusal_or_0`: `free_number_one` and PROMISES name it, and `free_value` likewise.
pub fn free_number(f: Result<u8, Refusal>) -> u8
    ensures { result ≡ free_number f }
{
    answers::refusal_or_0(f)
}

pub fn free_value(f: Result<u8, Refusal>) -> u8
    ensures { result ≡ free_value f }
{
    f.unwrap_or(0)
}
