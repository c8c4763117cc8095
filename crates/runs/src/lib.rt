// A whole schedule from bytes, over a machine's record or after its setup's bytes: one reply an entry, the six numbers, and how many nodes are free after each entry.
#![tactic(auto)]

ghost use Rattle.std.specs.Prelude.{◌≡◌, ◌+◌, ◌*◌, ◌≤◌, length, set, true};
ghost use Rattle.answers.specs.Numbers.{refusal_number};
ghost use Rattle.wire.specs.Bytes.{reply_of, overlaid};
ghost use Rattle.cells.specs.Machine.{in_range, Long};
ghost use Rattle.entries.specs.Schedule.{entries_in, entries_of};
ghost use Rattle.runs.specs.Run.{replies_from, notes_from, free_now, noted_by, report_of, refused_at, ran_from, ran_of, buffer_of, noted_of};
ghost use Rattle.runs.specs.Input.{outcome_of, replies_after, free_nodes_after};
ghost use Rattle.runs.specs.OneEntry.{load_begun, load_step, went_of, counted_by, Few};

use answers::Refusal;
use cells::Machine;

// Entries accepted, the refusal or 0, loads begun, load steps, turned-back checks, swaps that took: all for one run. Document 01 has the six as numbers, and C is given them so.
#[derive(Clone, Copy)]
pub struct Report {
    pub accepted: u32,
    pub refusal: u8,
    pub loads: u32,
    pub load_steps: u32,
    pub turned_back: u32,
    pub swaps: u32,
}

#[derive(Clone, Copy)]
pub struct Ran {
    pub machine: Machine,
    pub report: Report,
}

fn no_report(refusal: u8) -> Report
    ensures { result ≡ report_of refusal }
{
    Report {
        accepted: 0,
        refusal,
        loads: 0,
        load_steps: 0,
        turned_back: 0,
        swaps: 0,
    }
}

// A go entry in phases 1 to 5.
#[tactic(auto, unfolding(crate::specs::OneEntry::load_step))]
fn load_step(kind: u8, from: u8) -> u32
    ensures { result ≡ load_step kind from }
{
    u32::from(kind == 0 && 1 <= from && from <= 5)
}

// A go entry that goes from phase f to phase g. A struct for these would be longer than the calls.
#[tactic(auto, unfolding(crate::specs::OneEntry::went_of))]
fn went(f: u8, g: u8, kind: u8, from: u8, to: u8) -> u32
    ensures { result ≡ went_of f g kind from to }
{
    u32::from(kind == 0 && from == f && to == g)
}

fn load_begun(kind: u8) -> u32
    ensures { result ≡ load_begun kind }
{
    u32::from(kind == 1)
}

// One entry more was accepted: its kind, and its task's phase before and after it.
#[tactic(auto, using(crate::proofs::Laws::step_le, crate::proofs::Laws::went_le), unfolding(crate::specs::OneEntry::counted_by))]
fn counted(r: Report, kind: u8, from: u8, to: u8) -> Report
    requires { Few 6553 r }
    ensures { result ≡ counted_by r kind from to }
{
    Report {
        accepted: r.accepted + 1,
        loads: r.loads + load_begun(kind),
        load_steps: r.load_steps + load_step(kind, from),
        turned_back: r.turned_back + went(3, 5, kind, from, to),
        swaps: r.swaps + went(8, 9, kind, from, to),
        ..r
    }
}

// The free-nodes question, asked of a machine: the answer stands at place i, where the buffer has one.
fn note(free_nodes: &mut [u8], i: usize, m: &Machine)
    ensures { free_nodes.new ≡ set free_nodes.old i (free_now m.now) }
{
    if i < free_nodes.len() {
        free_nodes[i] = cells::free::free_value(cells::free::free_nodes(m.n, m.p, m.k, m.free));
    }
}

// The reply of entry i. Its eight places are there, and they alone are handed over: so nothing is tested again. A struct for these would be longer than the calls.
fn reply(out: &mut [u8], i: usize, number: u8, task: u8, value: u32)
    requires { 8 * i + 8 ≤ length out.old }
    ensures { out.new ≡ overlaid out.old (8 * i) (reply_of number task value) }
{
    let at = 8 * i;
    wire::put_reply(&mut out[at..at + 8], 0, number, task, value);
}

// The report of a run that ends with this refusal.
fn stopped(report: Report, refusal: u8) -> Report
    ensures { result ≡ refused_at refusal report }
{
    Report { refusal, ..report }
}

// The entries one after the other, up to the first refused one, of a machine in range: each entry keeps it so.
fn run_entries(m: &mut Machine, s: &[u8], out: &mut [u8], free_nodes: &mut [u8]) -> Report
    requires { (length s.now ≤ 65530) × (8 * entries_in s.now ≤ length out.old) × Long m.old × (in_range m.old ≡ true) }
    ensures { (m.new ≡ (ran_from m.old (report_of 0) (entries_of s.now)).machine) × (result ≡ (ran_from m.old (report_of 0) (entries_of s.now)).report) × (out.new ≡ overlaid out.old 0 (replies_from m.old (entries_of s.now))) × (free_nodes.new ≡ noted_by (notes_from m.old (entries_of s.now)) free_nodes.old) }
{
    let mut report = no_report(0);
    for (i, bytes) in s.chunks(10).enumerate() {
        let e = match entries::read_entry(bytes) {
            // read anew: what is taken out of a result goes over packed into one number, and an entry takes longer
            Ok(_) => entries::entry_at(bytes),
            Err(r) => {
                let number = u8::from(r);
                reply(out, i, number, 0, 0);
                note(free_nodes, i, m);
                return stopped(report, number);
            }
        };
        let from = m.task(e.task).phase;
        let a = turns::turn(m, e);
        match a {
            Err(_) => {
                let number = answers::number(a);
                reply(out, i, number, e.task.0, answers::value(a));
                note(free_nodes, i, m);
                return stopped(report, number);
            }
            Ok(_) => {
                reply(out, i, answers::number(a), e.task.0, answers::value(a));
                note(free_nodes, i, m); // of the machine that this entry leaves
                report = counted(report, e.kind, from, m.task(e.task).phase);
            }
        }
    }
    report
}

// No entry is tried.
fn untried(r: Refusal) -> Report
    ensures { result ≡ report_of (refusal_number r) }
{
    no_report(u8::from(r))
}

// A run of a lent machine: 22 by ranges, 23 and 21 come before any entry, in that order. Each entry tried leaves its number of free nodes, while there is room.
fn run_lent(m: &mut Machine, s: &[u8], out: &mut [u8], free_nodes: &mut [u8]) -> Report
    requires { Long m.old }
    ensures { (m.new ≡ (ran_of m.old s.now (length out.old)).machine) × (result ≡ (ran_of m.old s.now (length out.old)).report) × (out.new ≡ buffer_of m.old s.now out.old) × (free_nodes.new ≡ noted_of m.old s.now (length out.old) free_nodes.old) }
{
    if !m.in_range() {
        return untried(Refusal::Damaged);
    }
    let len = s.len();
    if 65530 < len {
        return untried(Refusal::TooLong);
    }
    if out.len() < 8 * ((len + 9) / 10) {
        return untried(Refusal::NoRoom);
    }
    run_entries(m, s, out, free_nodes)
}

// The same of a machine's record.
pub fn run_free(m: Machine, s: &[u8], out: &mut [u8], free_nodes: &mut [u8]) -> Ran
    ensures { (result ≡ ran_of m s.now (length out.old)) × (out.new ≡ buffer_of m s.now out.old) × (free_nodes.new ≡ noted_of m s.now (length out.old) free_nodes.old) }
{
    let mut machine = m;
    let report = run_lent(&mut machine, s, out, free_nodes);
    Ran { machine, report }
}

// A run whose free nodes nobody asks for.
pub fn run(m: Machine, s: &[u8], out: &mut [u8]) -> Ran
    ensures { (result ≡ ran_of m s.now (length out.old)) × (out.new ≡ buffer_of m s.now out.old) }
{
    let mut none: [u8; 0] = [];
    run_free(m, s, out, &mut none)
}

// A setup and its schedule from bytes: the setup's refusal, or the run's report, as `Machine::setup` and `run_free` have it. The machine lies here once, and is lent to the setup and then to the run.
pub fn run_input(input: &[u8], out: &mut [u8], free_nodes: &mut [u8]) -> Result<Report, Refusal>
    ensures { (result ≡ outcome_of input.now (length out.old)) × (out.new ≡ replies_after input.now out.old) × (free_nodes.new ≡ free_nodes_after input.now (length out.old) free_nodes.old) }
{
    let mut m = cells::start::blank();
    let used = cells::start::fill(&mut m, input)?;
    Ok(run_lent(&mut m, &input[used..], out, free_nodes))
}
