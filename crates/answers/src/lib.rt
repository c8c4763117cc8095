// What a setup, an entry and a run are answered with: replies and refusals, with the numbers and values that documents 01 and 02 give them.
#![tactic(auto)]

ghost use Rattle.std.specs.Prelude.{◌≡◌};
ghost use Rattle.answers.specs.Numbers.{reply_number, reply_value, refusal_number, refusal_or_0, number_of, value_of};

// What an accepted entry did.
#[derive(Clone, Copy)]
pub enum Reply {
    Moved,
    Loaded(u32),
    Took,
    Lost,
    Released,
    Good,
    Gone,
}

// Why nothing was done, by the rule that was broken, with the number of specs/Numbers.antt.
#[derive(Clone, Copy)]
pub enum Refusal {
    Sizes = 11,
    NoTask = 12,
    NoKind = 13,
    NoCell = 14,
    NotZero = 15,
    NotNow = 16,
    NoStep = 17,
    WrongMark = 19,
    TooShort = 20,
    NoRoom = 21,
    Damaged = 22,
    TooLong = 23,
    NotALine = 30,
    TooLarge = 31,
    OutputShort = 32,
}

// A reply, or why there is none.
pub type Answer = Result<Reply, Refusal>;

impl From<Reply> for u8 {
    ghost from_gives = { λ r n. n ≡ reply_number r };

    fn from(r: Reply) -> u8 {
        match r {
            Reply::Moved => 0,
            Reply::Loaded(_) => 1,
            Reply::Took => 2,
            Reply::Lost => 3,
            Reply::Released => 4,
            Reply::Good => 5,
            Reply::Gone => 6,
        }
    }
}

pub fn reply_value(r: Reply) -> u32
    ensures { result ≡ reply_value r }
{
    match r {
        Reply::Loaded(v) => v,
        _ => 0,
    }
}

impl From<Refusal> for u8 {
    ghost from_gives = { λ r n. n ≡ refusal_number r };

    fn from(r: Refusal) -> u8 {
        r as u8
    }
}

// The number of a refusal, and 0 for what was not refused.
pub fn refusal_or_0<T: Copy>(a: Result<T, Refusal>) -> u8
    ensures { result ≡ refusal_or_0 a }
{
    match a {
        Ok(_) => 0,
        Err(refusal) => u8::from(refusal),
    }
}

pub fn number(a: Answer) -> u8
    ensures { result ≡ number_of a }
{
    match a {
        Ok(r) => u8::from(r),
        Err(r) => u8::from(r),
    }
}

pub fn value(a: Answer) -> u32
    ensures { result ≡ value_of a }
{
    match a {
        Ok(r) => reply_value(r),
        Err(_) => 0,
    }
}
