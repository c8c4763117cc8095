// Schedules as text: `schedule_text import` makes entry bytes of a text, `schedule_text export` a text of entry bytes; standard input to standard output.
#![tactic(auto)]

ghost use Rattle.std.specs.Prelude.{◌≤◌, length};
ghost use Rattle.texts.specs.Made.{text_bytes};

use answers::Refusal;
use std::env::Env;
use std::io;

// A refusal goes to standard error, as `import 30`; standard output stays empty.
fn refused(err: &impl Print, direction: &str, r: Refusal) -> io::Result<()> {
    println!(err; "{direction} {}", u8::from(r))
}

// What was made, or its refusal. A struct for these would be longer than the calls.
fn tell(
    rt: &impl Print,
    err: &impl Print,
    direction: &str,
    made: Result<usize, Refusal>,
    out: &[u8],
) -> io::Result<()>
    requires { text_bytes made ≤ length out.now }
{
    match made {
        Ok(_) => rt.write_all(&out[..texts::text_bytes(made)]),
        Err(r) => refused(err, direction, r),
    }
}

// A text that is not read whole is too long to be taken: 23 if it can be told by now, and else no number, as the refusal may hang on the rest.
fn too_long(err: &impl Print, text: &[u8]) -> io::Result<()> {
    match texts::import(text, &mut []) {
        Err(Refusal::TooLong) => refused(err, "import", Refusal::TooLong),
        _ => println!(err; "import: more than 262143 bytes"),
    }
}

// A text that is taken has at most 150,719 bytes.
fn import(rt: &(impl Input + Print), err: &impl Print) -> io::Result<()> {
    let mut text = [0u8; 262144];
    let n = streams::read_full(&mut rt.reader(), &mut text)?;
    if n == text.len() {
        return too_long(err, &text);
    }
    let mut entries = [0u8; 65530];
    let made = texts::import(&text[..n], &mut entries);
    tell(rt, err, "import", made, &entries)
}

// A schedule of 65,531 bytes is the shortest that is too long.
fn export(rt: &(impl Input + Print), err: &impl Print) -> io::Result<()> {
    let mut entries = [0u8; 65531];
    let n = streams::read_full(&mut rt.reader(), &mut entries)?;
    let mut text = [0u8; 150719];
    let made = texts::export(&entries[..n], &mut text);
    tell(rt, err, "export", made, &text)
}

fn main(rt: HostRuntime) -> io::Result<()> {
    let mut word = [0u8; 16];
    // none where the argument is missing, or longer than the array
    let n = rt.arg(1, &mut word).unwrap_or(0);
    let err = rt.stderr();
    match &word[..n] {
        b"import" => import(&rt, &err),
        b"export" => export(&rt, &err),
        _ => println!(err; "usage: schedule_text import|export <INPUT >OUTPUT"),
    }
}
