// The step bench: setup and entries from standard input, document 01's text to standard output.
#![tactic(auto)]

ghost use Rattle.std.specs.Prelude.{◌≤◌, length};

use cells::Machine;
use runs::Report;
use std::io;

// Text that is laid into a buffer and printed at once: by `Display` it takes a fifth longer. There is room for the longest; what has none is left out.
#[derive(Drop)]
struct Text {
    bytes: [u8; 160000],
    end: usize,
    ghost within: { end ≤ length bytes },
}

impl Text {
    fn as_bytes(&self) -> &[u8] {
        &self.bytes[..self.end]
    }

    fn put(&mut self, s: &[u8]) {
        for b in s {
            if self.end < self.bytes.len() {
                self.bytes[self.end] = *b;
                self.end += 1;
            }
        }
    }

    #[tactic(auto, using(wire::proofs::Laws::lengths, digits::proofs::Writing::end_within))]
    fn number(&mut self, n: u32) {
        self.end = digits::put_number(&mut self.bytes, self.end, n);
    }

    // A word, then a number.
    fn field(&mut self, word: &[u8], n: u32) {
        self.put(word);
        self.number(n);
    }
}

// What a report has for no refusal, and for the two of a whole schedule: numbers, as the report has one. The others are an entry's; 22 by the ranges can't come, as the record is fresh.
const TAKEN: u8 = 0;

const NO_ROOM: u8 = 21;

const TOO_LONG: u8 = 23;

// How many replies a run wrote: one an accepted entry, and one for the entry that was refused.
fn replies_in(r: Report) -> usize
    ensures { result ≤ 65535 }
{
    let n = r.accepted as usize;
    if 6553 < n {
        return 0;
    }
    match r.refusal {
        TAKEN | NO_ROOM | TOO_LONG => n,
        _ => n + 1,
    }
}

// Entry i + 1 has a line of task, number and value, from the i-th reply.
fn bench(machine: Machine, schedule: &[u8], text: &mut Text) {
    let mut replies = [0u8; 52424];
    let report = runs::run(machine, schedule, &mut replies).report;
    text.field(b"cells ", u32::from(machine.n));
    text.field(b" tasks ", u32::from(machine.p));
    text.field(b" nodes ", u32::from(machine.k));
    text.put(b"\n");
    let count = replies_in(report);
    for (i, reply) in (1..).zip(replies.chunks_exact(8).take(count)) {
        let number = wire::byte_at(reply, 2);
        let task = wire::byte_at(reply, 3);
        let value = wire::word_at(reply, 4);
        text.number(i);
        text.field(b" ", u32::from(task));
        text.field(b" ", u32::from(number));
        text.field(b" ", value);
        text.put(b"\n");
    }
    let Report {
        accepted,
        refusal,
        loads,
        load_steps,
        turned_back,
        swaps,
    } = report;
    text.field(b"end ", accepted);
    for n in [u32::from(refusal), loads, load_steps, turned_back, swaps] {
        text.field(b" ", n);
    }
    text.put(b"\n");
}

// The text for the bytes of a setup and a schedule.
#[tactic(auto, using(cells::proofs::Setups::setup_uses))]
fn answer(input: &[u8], text: &mut Text) {
    let s = Machine::setup(input);
    match s.answer {
        Err(r) => {
            text.field(b"setup ", u32::from(u8::from(r)));
            text.put(b"\n");
        }
        Ok(used) => bench(s.machine, &input[used..], text),
    }
}

// The longest setup has 262 bytes, and a schedule of 65,531 is the shortest that is too long.
fn main(rt: HostRuntime) -> io::Result<()> {
    let mut input = [0u8; 65793];
    let n = streams::read_full(&mut rt.reader(), &mut input)?;
    let mut text = Text {
        bytes: [0; 160000],
        end: 0,
    };
    answer(&input[..n], &mut text);
    rt.write_all(text.as_bytes())
}
