// What the library for C does: numbers and slices only. The crate kemilunda_c exports each function of it.
#![tactic(auto)]

ghost use Rattle.std.specs.Prelude.{◌≡◌, length};
ghost use Rattle.runs.specs.Run.{six_of};
ghost use Rattle.runs.specs.Input.{replies_after, free_nodes_after};
ghost use Rattle.texts.specs.Made.{answered, laid, text_number};
ghost use Rattle.texts.specs.Text.{imported, exported};
ghost use Rattle.kemilunda.specs.Exported.{setup_refusal, setup_used, numbers_after, written_by};

use answers::Refusal;
use runs::Report;

// 0 for a setup that is accepted, else its refusal.
pub fn kemilunda_setup(input: &[u8]) -> u32
    ensures { result ≡ setup_refusal input.now }
{
    u32::from(cells::setup_number(cells::start::read_head(input).answer))
}

// How many bytes the setup used, 0 for a refused one: the schedule starts there.
pub fn kemilunda_setup_bytes(input: &[u8]) -> usize
    ensures { result ≡ setup_used input.now }
{
    cells::setup_bytes(cells::start::read_head(input).answer)
}

fn six(r: Report) -> [u32; 6]
    ensures { result ≡ six_of r }
{
    [
        r.accepted,
        u32::from(r.refusal),
        r.loads,
        r.load_steps,
        r.turned_back,
        r.swaps,
    ]
}

// A setup and its schedule. A refused setup writes nothing and gives its number; else the run's replies, free nodes and six numbers are written: 0.
pub fn kemilunda_run_free(
    input: &[u8],
    replies: &mut [u8],
    free_nodes: &mut [u8],
    numbers: &mut [u32; 6],
) -> u32
    ensures { (result ≡ setup_refusal input.now) × (replies.new ≡ replies_after input.now replies.old) × (free_nodes.new ≡ free_nodes_after input.now (length replies.old) free_nodes.old) × (numbers.new ≡ numbers_after input.now (length replies.old) numbers.old) }
{
    match runs::run_input(input, replies, free_nodes) {
        Err(r) => u32::from(u8::from(r)),
        Ok(report) => {
            *numbers = six(report);
            0
        }
    }
}

// The same with no place for the numbers of free nodes.
pub fn kemilunda_run(input: &[u8], replies: &mut [u8], numbers: &mut [u32; 6]) -> u32
    ensures { (result ≡ setup_refusal input.now) × (replies.new ≡ replies_after input.now replies.old) × (numbers.new ≡ numbers_after input.now (length replies.old) numbers.old) }
{
    let mut none: [u8; 0] = [];
    kemilunda_run_free(input, replies, &mut none, numbers)
}

// The number of an import's or export's answer; its length goes to its own place, which a refusal leaves alone.
fn told(a: Result<usize, Refusal>, written: &mut usize) -> u32
    ensures { (result ≡ text_number a) × (written.new ≡ written_by a written.old) }
{
    if let Ok(n) = a {
        *written = n;
    }
    u32::from(texts::text_number(a))
}

// A schedule from text to entry bytes: 0, with how many bytes were written; or the refusal, and nothing is written.
pub fn kemilunda_import(text: &[u8], entries: &mut [u8], written: &mut usize) -> u32
    ensures { (result ≡ text_number (answered (imported text.now) (length entries.old))) × (entries.new ≡ laid (imported text.now) entries.old) × (written.new ≡ written_by (answered (imported text.now) (length entries.old)) written.old) }
{
    let a = texts::import(text, entries);
    told(a, written)
}

// And from entry bytes to text.
pub fn kemilunda_export(entries: &[u8], text: &mut [u8], written: &mut usize) -> u32
    ensures { (result ≡ text_number (answered (exported entries.now) (length text.old))) × (text.new ≡ laid (exported entries.now) text.old) × (written.new ≡ written_by (answered (exported entries.now) (length text.old)) written.old) }
{
    let a = texts::export(entries, text);
    told(a, written)
}
