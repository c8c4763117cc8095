// Bytes: marks, little-endian numbers, and the reply record.
#![tactic(auto)]

ghost use Rattle.std.specs.Prelude.{◌≡◌, ◌+◌, leb, get_or};
ghost use Rattle.wire.specs.Bytes.{word, word_at, marked, little_endian, reply_of, fitted};

// The two bytes that each record starts with.
pub const SETUP: [u8; 2] = [0x53, 0x55];

pub const ENTRY: [u8; 2] = [0x45, 0x4E];

pub const REPLY: [u8; 2] = [0x41, 0x4E];

// Byte i, and 0 past the end.
pub fn byte_at(s: &[u8], i: usize) -> u8
    ensures { result ≡ get_or s.now i 0 }
{
    s.get(i).copied().unwrap_or(0)
}

// Four bytes, the lowest first.
pub fn little_endian(a: u8, b: u8, c: u8, d: u8) -> u32
    ensures { result ≡ word a b c d }
{
    u32::from_le_bytes([a, b, c, d])
}

// The number in the four bytes from `at` on.
#[tactic(auto, unfolding(crate::specs::Bytes::word_at))]
pub fn word_at(s: &[u8], at: u32) -> u32
    ensures { result ≡ word_at s.now at }
{
    let i = at as usize;
    little_endian(
        byte_at(s, i),
        byte_at(s, i + 1),
        byte_at(s, i + 2),
        byte_at(s, i + 3),
    )
}

// Whether the bytes start with the mark, where a byte past the end is 0; `s.starts_with(&mark)` says no of fewer than two bytes.
#[tactic(auto, unfolding(crate::specs::Bytes::marked))]
pub fn starts_with(s: &[u8], mark: [u8; 2]) -> bool
    ensures { result ≡ marked mark s.now }
{
    let a = byte_at(s, 0);
    let b = byte_at(s, 1);
    a == mark[0] && b == mark[1]
}

// Whether n places from `at` on are within the first `len`.
pub fn has_room(len: usize, at: usize, n: usize) -> bool
    ensures { result ≡ leb (at + n) len }
{
    if len < n {
        return false;
    }
    at <= len - n
}

// Bytes from place `at` on; nothing where there is no room for them. The same of what follows.
#[tactic(auto, unfolding(crate::specs::Bytes::fitted))]
fn put(out: &mut [u8], at: usize, bytes: &[u8])
    ensures { out.new ≡ fitted out.old at bytes.now }
{
    if has_room(out.len(), at, bytes.len()) {
        out[at..at + bytes.len()].copy_from_slice(bytes);
    }
}

// A mark.
pub fn put_mark(out: &mut [u8], at: usize, mark: [u8; 2])
    ensures { out.new ≡ fitted out.old at mark }
{
    put(out, at, &mark);
}

// A number in four bytes, the lowest first.
pub fn put_word(out: &mut [u8], at: usize, value: u32)
    ensures { out.new ≡ fitted out.old at (little_endian value) }
{
    put(out, at, &value.to_le_bytes());
}

// A reply record. A struct for these would be longer than the calls.
#[tactic(auto, using(crate::proofs::Laws::no_room, crate::proofs::Laws::two, crate::proofs::Laws::framed))]
pub fn put_reply(out: &mut [u8], at: usize, number: u8, task: u8, value: u32)
    ensures { out.new ≡ fitted out.old at (reply_of number task value) }
{
    if !has_room(out.len(), at, 8) {
        return;
    }
    put_mark(out, at, REPLY);
    out[at + 2] = number;
    out[at + 3] = task;
    put_word(out, at + 4, value);
}
