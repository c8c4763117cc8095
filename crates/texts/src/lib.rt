// A schedule as the logic analyser's text: made into entry bytes, and made from them.
#![tactic(auto)]

ghost use Rattle.std.specs.Prelude.{◌≡◌, true, [], ◌∷◌, ◌++◌, ◌+◌, ◌≤◌, eqb, length};
ghost use Rattle.tallies.specs.Tally.{bit};
ghost use Rattle.wire.specs.Bytes.{overlaid};
ghost use Rattle.digits.specs.Decimal.{decimal};
ghost use Rattle.entries.specs.Entry.{entry_of};
ghost use Rattle.texts.specs.Line.{newline, line_of};
ghost use Rattle.texts.specs.Made.{bytes_of, laid, answered, text_number, text_bytes};
ghost use Rattle.texts.specs.Text.{newlines, bytes_made, imported, plain_of, text_made, exported};
ghost use Rattle.texts.specs.Steps.{field_at, sized, line_at, length_of, is_good};

use answers::Refusal;
use entries::Entry;
use tasks::{CellNo, TaskNo};

// The number of an answer: 0, or the refusal's. Beside `refusal_or_0`: `text_number_one` and PROMISES name it, and `text_bytes` likewise.
pub fn text_number(a: Result<usize, Refusal>) -> u8
    ensures { result ≡ text_number a }
{
    answers::refusal_or_0(a)
}

pub fn text_bytes(a: Result<usize, Refusal>) -> usize
    ensures { result ≡ text_bytes a }
{
    a.unwrap_or(0)
}

// Import.

#[tactic(auto, using(crate::proofs::Parts::newlines_sum))]
fn newlines(text: &[u8]) -> usize
    ensures { result ≡ newlines text.now }
{
    // a sum has no branch, so it is quicker than `filter` and `count`
    text.iter().map(|b| usize::from(*b == b'\n')).sum()
}

// A number and the byte that closes it.
#[tactic(auto, unfolding(crate::specs::Steps::field_at))]
fn field_at(s: &[u8], at: usize, close: u8) -> Option<(u64, usize)>
    ensures { result ≡ field_at close s.now at }
{
    let (value, end) = digits::number_at(s, at)?;
    let behind = s.get(end)?; // nothing closes it
    if *behind != close {
        return None;
    }
    Some((value, end + 1))
}

// The entry of a line's numbers, and the place behind the line; or 31 for a number too large: one test for the four, in place of a `try_from` for each. A struct for these would be longer than the calls.
#[tactic(auto, unfolding(crate::specs::Steps::sized))]
fn sized(
    task: u64,
    kind: u64,
    cell: u64,
    value: u64,
    next: usize,
) -> Result<(Entry, usize), Refusal>
    ensures { result ≡ sized task kind cell value next }
{
    if 255 < task || 255 < kind || 255 < cell || 4294967295 < value {
        return Err(Refusal::TooLarge);
    }
    let e = Entry {
        task: TaskNo(task as u8),
        kind: kind as u8,
        cell: CellNo(cell as u8),
        spare: 0,
        value: value as u32,
    };
    Ok((e, next))
}

// One line, read once from its front: the form of all of it (30) comes before its sizes (31).
#[tactic(auto, using(crate::proofs::Scan::no_first, crate::proofs::Scan::no_second, crate::proofs::Scan::no_third, crate::proofs::Scan::all_four))]
fn line_at(s: &[u8], at: usize) -> Result<(Entry, usize), Refusal>
    ensures { result ≡ line_at s.now at }
{
    let (task, kind_at) = field_at(s, at, b',').ok_or(Refusal::NotALine)?;
    let (kind, cell_at) = field_at(s, kind_at, b',').ok_or(Refusal::NotALine)?;
    let (cell, value_at) = field_at(s, cell_at, b',').ok_or(Refusal::NotALine)?;
    let (value, next) = field_at(s, value_at, b'\n').ok_or(Refusal::NotALine)?; // nor is a line without its newline one
    sized(task, kind, cell, value, next)
}

// Every line is looked at, and nothing is written: how many bytes they make, or the first bad one's refusal.
fn check_lines(text: &[u8]) -> Result<usize, Refusal>
    requires { newlines text.now ≤ 6553 }
    ensures { result ≡ length_of (bytes_made text.now) }
{
    let mut at = 0;
    let mut made = 0;
    // a `while`: the place moves by what a line uses
    while at < text.len() {
        let (_, next) = line_at(text, at)?;
        made += 10;
        at = next;
    }
    Ok(made)
}

// The entries of lines that are good, into a buffer that has room for them.
fn write_entries(text: &[u8], entries: &mut [u8])
    requires { (is_good (bytes_made text.now) ≡ true) × (length (bytes_of (bytes_made text.now)) ≤ length entries.old) }
    ensures { entries.new ≡ overlaid entries.old 0 (bytes_of (bytes_made text.now)) }
{
    let mut at = 0;
    let mut to = 0;
    // the same
    while at < text.len() {
        let Ok((e, next)) = line_at(text, at) else {
            return; // no line is bad
        };
        entries::put_entry(entries, to, e);
        to += 10;
        at = next;
    }
}

// Text to entry bytes.
#[tactic(auto, unfolding(crate::specs::Text::imported, crate::specs::Made::answered, crate::specs::Made::laid))]
pub fn import(text: &[u8], entries: &mut [u8]) -> Result<usize, Refusal>
    ensures { (result ≡ answered (imported text.now) (length entries.old)) × (entries.new ≡ laid (imported text.now) entries.old) }
{
    if 6553 < newlines(text) {
        return Err(Refusal::TooLong);
    }
    let n = check_lines(text)?;
    if entries.len() < n {
        return Err(Refusal::OutputShort);
    }
    write_entries(text, entries);
    Ok(n)
}

// Export. Its two loops are not import's over a trait: entries are cut by their length, and lines as they are read.

// The entry at the front of s, with the tests that export makes (20, 19, 15).
fn plain_entry(s: &[u8]) -> Result<Entry, Refusal>
    ensures { result ≡ plain_of (entry_of s.now) }
{
    let e = entries::read_entry(s)?;
    if e.spare != 0 {
        return Err(Refusal::NotZero);
    }
    Ok(e)
}

// Four numbers of at most ten digits, three commas and a newline.
#[tactic(auto, using(crate::proofs::Pieces::lengths))]
fn line_length(e: Entry) -> usize
    ensures { (result ≡ length (line_of e)) × (result ≤ 44) }
{
    let task = digits::digits_in(u32::from(e.task.0));
    let kind = digits::digits_in(u32::from(e.kind));
    let cell = digits::digits_in(u32::from(e.cell.0));
    let value = digits::digits_in(e.value);
    task + kind + cell + value + 4
}

// Every entry is looked at, and nothing is written: how many bytes their lines have, or the first bad one's refusal.
fn check_entries(entries: &[u8]) -> Result<usize, Refusal>
    requires { length entries.now ≤ 65530 }
    ensures { result ≡ length_of (text_made entries.now) }
{
    let mut made = 0;
    for piece in entries.chunks(10) {
        let e = plain_entry(piece)?;
        made += line_length(e);
    }
    Ok(made)
}

// A number and the byte that closes it; answers where they end. A writer that holds `text` and `at` would be a type for these two functions alone.
#[tactic(auto, using(wire::proofs::Laws::has_room, digits::proofs::Writing::end_fits, crate::proofs::Pieces::laid_over))]
fn put_field(text: &mut [u8], at: usize, n: u32, close: u8) -> usize
    requires { at + length (decimal n) + 1 ≤ length text.old }
    ensures { (result ≡ at + length (decimal n) + 1) × (text.new ≡ overlaid text.old at (decimal n ++ close ∷ [])) }
{
    let end = digits::put_number(text, at, n);
    text[end] = close;
    end + 1
}

#[tactic(auto, using(crate::proofs::Pieces::fields_line, crate::proofs::Pieces::lengths))]
fn put_line(text: &mut [u8], at: usize, e: Entry) -> usize
    requires { at + length (line_of e) ≤ length text.old }
    ensures { (result ≡ at + length (line_of e)) × (text.new ≡ overlaid text.old at (line_of e)) }
{
    let kind_at = put_field(text, at, u32::from(e.task.0), b',');
    let cell_at = put_field(text, kind_at, u32::from(e.kind), b',');
    let value_at = put_field(text, cell_at, u32::from(e.cell.0), b',');
    put_field(text, value_at, e.value, b'\n')
}

// The lines of entries that are good, into a buffer that has room for them.
fn write_lines(entries: &[u8], text: &mut [u8])
    requires { (is_good (text_made entries.now) ≡ true) × (length (bytes_of (text_made entries.now)) ≤ length text.old) }
    ensures { text.new ≡ overlaid text.old 0 (bytes_of (text_made entries.now)) }
{
    let mut to = 0;
    for piece in entries.chunks(10) {
        let Ok(e) = plain_entry(piece) else {
            return; // no entry is bad
        };
        to = put_line(text, to, e);
    }
}

// Entry bytes to text.
#[tactic(auto, unfolding(crate::specs::Text::exported, crate::specs::Made::answered, crate::specs::Made::laid))]
pub fn export(entries: &[u8], text: &mut [u8]) -> Result<usize, Refusal>
    ensures { (result ≡ answered (exported entries.now) (length text.old)) × (text.new ≡ laid (exported entries.now) text.old) }
{
    if 65530 < entries.len() {
        return Err(Refusal::TooLong);
    }
    let n = check_entries(entries)?;
    if text.len() < n {
        return Err(Refusal::OutputShort);
    }
    write_lines(entries, text);
    Ok(n)
}
