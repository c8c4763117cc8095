// The library for C: each export calls the function of the crate kemilunda that has its name, and promises the same. The header is include/kemilunda.h. Two crates, as the toolchain makes of one either a library or an archive.
#![tactic(auto)]

ghost use Rattle.std.specs.Prelude.{◌≡◌, length};
ghost use Rattle.runs.specs.Input.{replies_after, free_nodes_after};
ghost use Rattle.texts.specs.Made.{answered, laid, text_number};
ghost use Rattle.texts.specs.Text.{imported, exported};
ghost use Rattle.kemilunda.specs.Exported.{setup_refusal, setup_used, numbers_after, written_by};

// 0 for a setup that is accepted, else its refusal.
#[unsafe(no_mangle)]
pub extern "C" fn kemilunda_setup(input: &[u8]) -> u32
    ensures { result ≡ setup_refusal input.now }
{
    kemilunda::kemilunda_setup(input)
}

// How many bytes the setup used, 0 for a refused one: the schedule starts there.
#[unsafe(no_mangle)]
pub extern "C" fn kemilunda_setup_bytes(input: &[u8]) -> usize
    ensures { result ≡ setup_used input.now }
{
    kemilunda::kemilunda_setup_bytes(input)
}

// A setup and its schedule. A refused setup writes nothing and gives its number; else the run's replies, free nodes and six numbers are written: 0.
#[unsafe(no_mangle)]
pub extern "C" fn kemilunda_run_free(
    input: &[u8],
    replies: &mut [u8],
    free_nodes: &mut [u8],
    numbers: &mut [u32; 6],
) -> u32
    ensures { (result ≡ setup_refusal input.now) × (replies.new ≡ replies_after input.now replies.old) × (free_nodes.new ≡ free_nodes_after input.now (length replies.old) free_nodes.old) × (numbers.new ≡ numbers_after input.now (length replies.old) numbers.old) }
{
    kemilunda::kemilunda_run_free(input, replies, free_nodes, numbers)
}

// The same with no place for the numbers of free nodes.
#[unsafe(no_mangle)]
pub extern "C" fn kemilunda_run(input: &[u8], replies: &mut [u8], numbers: &mut [u32; 6]) -> u32
    ensures { (result ≡ setup_refusal input.now) × (replies.new ≡ replies_after input.now replies.old) × (numbers.new ≡ numbers_after input.now (length replies.old) numbers.old) }
{
    kemilunda::kemilunda_run(input, replies, numbers)
}

// A schedule from text to entry bytes: 0, with how many bytes were written; or the refusal, and nothing is written.
#[unsafe(no_mangle)]
pub extern "C" fn kemilunda_import(text: &[u8], entries: &mut [u8], written: &mut usize) -> u32
    ensures { (result ≡ text_number (answered (imported text.now) (length entries.old))) × (entries.new ≡ laid (imported text.now) entries.old) × (written.new ≡ written_by (answered (imported text.now) (length entries.old)) written.old) }
{
    kemilunda::kemilunda_import(text, entries, written)
}

// And from entry bytes to text.
#[unsafe(no_mangle)]
pub extern "C" fn kemilunda_export(entries: &[u8], text: &mut [u8], written: &mut usize) -> u32
    ensures { (result ≡ text_number (answered (exported entries.now) (length text.old))) × (text.new ≡ laid (exported entries.now) text.old) × (written.new ≡ written_by (answered (exported entries.now) (length text.old)) written.old) }
{
    kemilunda::kemilunda_export(entries, text, written)
}
