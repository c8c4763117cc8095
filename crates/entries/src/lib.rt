// A schedule entry: read from bytes, refused in document 01's order, or turned into what it does. No machine here, only one task's record.
#![tactic(auto)]

ghost use Rattle.std.specs.Prelude.{◌≡◌};
ghost use Rattle.wire.specs.Bytes.{fitted};
ghost use Rattle.entries.specs.Entry.{entry_at, entry_of, entry_bytes};
ghost use Rattle.tasks.specs.Phases.{resting};
ghost use Rattle.entries.specs.Order.{begins, load_of, linked_to, store_of, linked_call_of, order_of};
ghost use Rattle.entries.specs.Asking.{plain_of, asked_of};

use answers::{Refusal, Reply};
use steps::{Deed, Effect, Seen, Write};
use tasks::{Call, CellNo, Task, TaskNo};

// `kind` is no enum: an entry is read whatever its kind is, and 12 comes before 13.
#[derive(Clone, Copy)]
pub struct Entry {
    pub task: TaskNo,
    pub kind: u8,
    pub cell: CellNo,
    pub spare: u8,
    pub value: u32,
}

// The entry that the first ten bytes are, whatever their mark; a byte that is not there counts as 0.
pub fn entry_at(s: &[u8]) -> Entry
    ensures { result ≡ entry_at s.now }
{
    Entry {
        task: TaskNo(wire::byte_at(s, 2)),
        kind: wire::byte_at(s, 3),
        cell: CellNo(wire::byte_at(s, 4)),
        spare: wire::byte_at(s, 5),
        value: wire::word_at(s, 6),
    }
}

// The first ten bytes; what follows them is not looked at. Refusals 20 and 19.
#[tactic(auto, unfolding(crate::specs::Entry::entry_of))]
pub fn read_entry(s: &[u8]) -> Result<Entry, Refusal>
    ensures { result ≡ entry_of s.now }
{
    if s.len() < 10 {
        return Err(Refusal::TooShort);
    }
    if !wire::starts_with(s, wire::ENTRY) {
        return Err(Refusal::WrongMark);
    }
    Ok(entry_at(s))
}

// An entry's ten bytes from place `at` on; nothing where there is no room for them.
#[tactic(auto, using(wire::proofs::Laws::no_room, wire::proofs::Laws::lengths))]
pub fn put_entry(out: &mut [u8], at: usize, e: Entry)
    ensures { out.new ≡ fitted out.old at (entry_bytes e) }
{
    if !wire::has_room(out.len(), at, 10) {
        return;
    }
    wire::put_mark(out, at, wire::ENTRY);
    out[at + 2] = e.task.0;
    out[at + 3] = e.kind;
    out[at + 4] = e.cell.0;
    out[at + 5] = e.spare;
    wire::put_word(out, at + 6, e.value);
}

// What an entry asks of its task.
#[derive(Clone, Copy)]
pub enum Asked {
    ToGo,
    ToLoad(CellNo),
    ToStore(CellNo, u32),
    ToRelease,
    ToValidate,
}

// The kinds that name no cell.
#[tactic(auto, unfolding(crate::specs::Asking::plain_of))]
fn plain(kind: u8) -> Asked
    ensures { result ≡ plain_of kind }
{
    match kind {
        0 => Asked::ToGo,
        3 => Asked::ToRelease,
        _ => Asked::ToValidate,
    }
}

// What an entry asks, or the first refusal that its own numbers give: 12, 13, 15 and 14, for n cells and p tasks. Each kind has its own tests: so a run is quicker.
#[tactic(auto, unfolding(crate::specs::Asking::asked_of, crate::specs::Asking::plain_of, crate::specs::Entry::nonzero, crate::specs::Entry::outside))]
pub fn asks(n: u8, p: u8, e: Entry) -> Result<Asked, Refusal>
    ensures { result ≡ asked_of n p e }
{
    if p <= e.task.0 {
        return Err(Refusal::NoTask);
    }
    if 4 < e.kind {
        return Err(Refusal::NoKind);
    }
    if e.spare != 0 {
        return Err(Refusal::NotZero);
    }
    match e.kind {
        1 => {
            if e.value != 0 {
                return Err(Refusal::NotZero);
            }
            if n <= e.cell.0 {
                return Err(Refusal::NoCell);
            }
            Ok(Asked::ToLoad(e.cell))
        }
        2 => {
            if n <= e.cell.0 {
                return Err(Refusal::NoCell);
            }
            Ok(Asked::ToStore(e.cell, e.value))
        }
        _ => {
            if e.cell != CellNo(0) {
                return Err(Refusal::NotZero);
            }
            if e.value != 0 {
                return Err(Refusal::NotZero);
            }
            Ok(plain(e.kind))
        }
    }
}

// A call starts: its task's record changes and no table does.
fn begin_call(t: Task, c: Call) -> Effect
    ensures { result ≡ begins t c }
{
    let u = tasks::lent_begin(t, c);
    Ok(Deed {
        task: u,
        write: Write::Nothing,
        reply: Reply::Moved,
    })
}

// Only an idle task may begin to load.
#[tactic(auto, unfolding(crate::specs::Order::load_of))]
pub fn load(t: Task, x: CellNo) -> Effect
    ensures { result ≡ load_of t x }
{
    if t.phase != 0 {
        return Err(Refusal::NotNow);
    }
    begin_call(t, Call::Load(x))
}

// Whether no call runs in this phase: idle or linked.
fn resting(phase: u8) -> bool
    ensures { result ≡ resting phase }
{
    phase == 0 || phase == 6
}

fn linked_to(t: Task, x: CellNo) -> bool
    ensures { result ≡ linked_to t x }
{
    t.phase == 6 && t.cell == x
}

// Without a link on its cell a store is figure 1's false, at once: the task's record is handed back as it is.
#[tactic(auto, unfolding(crate::specs::Order::store_of))]
pub fn store(t: Task, x: CellNo, y: u32) -> Effect
    ensures { result ≡ store_of t x y }
{
    if !resting(t.phase) {
        return Err(Refusal::NotNow);
    }
    if !linked_to(t, x) {
        return Ok(Deed {
            task: t,
            write: Write::Nothing,
            reply: Reply::Lost,
        });
    }
    begin_call(t, Call::Store(y))
}

// A release or a validate: a call on the cell that the task is linked to.
#[tactic(auto, unfolding(crate::specs::Order::linked_call_of))]
pub fn linked_call(t: Task, c: Call) -> Effect
    ensures { result ≡ linked_call_of t c }
{
    if t.phase != 6 {
        return Err(Refusal::NotNow);
    }
    begin_call(t, c)
}

// What an entry does to its task t in a machine of n cells and p tasks, or its first refusal after 20 and 19. A struct for these would be longer than the calls.
#[tactic(auto)]
pub fn order(n: u8, p: u8, e: Entry, t: Task, s: Seen) -> Effect
    ensures { result ≡ order_of n p e t s }
{
    match asks(n, p, e)? {
        Asked::ToGo => steps::step(t, s),
        Asked::ToLoad(x) => load(t, x),
        Asked::ToStore(x, y) => store(t, x, y),
        Asked::ToRelease => linked_call(t, Call::Release),
        Asked::ToValidate => linked_call(t, Call::Validate),
    }
}
