// Decimal numbers in text: read at a place, and written at one.
#![tactic(auto)]

ghost use Rattle.std.specs.Prelude.{◌≡◌, true, ◌+◌, ◌*◌, ◌-◌, ◌≤◌, min, length};
ghost use Rattle.wire.specs.Bytes.{overlaid, fitted};
ghost use Rattle.digits.specs.Decimal.{is_digit, decimal, digits_at, number_at, number_end};

// The value of digits, or 2 ^ 32 for a greater one, and the place behind the last. They may be none, or have zeros in front.
#[derive(Clone, Copy)]
struct Digits {
    value: u64,
    end: usize,
}

// A digit behind those of v.
fn with_digit(v: u64, b: u8) -> u64
    requires { (v ≤ 4294967296) × (is_digit b ≡ true) }
    ensures { result ≡ min (10 * v + (b - 0x30)) 4294967296 }
{
    (10 * v + u64::from(b - b'0')).min(4294967296)
}

// The digits from place `at` on.
#[tactic(auto, using(crate::proofs::Reading::reading_starts, crate::proofs::Reading::reading_on, crate::proofs::Reading::stops_before, crate::proofs::Reading::stops_at_end))]
fn digits_at(s: &[u8], at: usize) -> Digits
    requires { at ≤ length s.now }
    ensures { result ≡ digits_at s.now at }
{
    let mut value = 0;
    for end in at..s.len() {
        let b = s[end];
        if !b.is_ascii_digit() {
            return Digits { value, end };
        }
        value = with_digit(value, b);
    }
    Digits {
        value,
        end: s.len(),
    }
}

// The same of the digits of a number.
#[tactic(auto, using(crate::proofs::Reading::no_number, crate::proofs::Reading::no_digit, crate::proofs::Reading::zero_in_front, crate::proofs::Reading::one_digit, crate::proofs::Reading::no_zero))]
pub fn number_at(s: &[u8], at: usize) -> Option<(u64, usize)>
    ensures { result ≡ number_at s.now at }
{
    if s.len() <= at {
        return None;
    }
    let Digits { value, end } = digits_at(s, at);
    if end == at {
        return None;
    }
    // a zero in front of another digit
    if s[at] == b'0' && at + 1 < end {
        return None;
    }
    Some((value, end))
}

// How many digits n has: one for 0 too. Most numbers have one, and need no logarithm.
#[tactic(auto, using(crate::proofs::Writing::length_one, crate::proofs::Writing::length_log))]
pub fn digits_in(n: u32) -> usize
    ensures { result ≡ length (decimal n) }
{
    if n < 10 { 1 } else { n.ilog10() as usize + 1 }
}

// The digits of n from place `at` up to place `end`, the last one first. The first is what is left, and not divided.
#[tactic(auto, using(crate::proofs::Writing::length_some, crate::proofs::Writing::writing_starts, crate::proofs::Writing::one_left, crate::proofs::Writing::writing_ends))]
fn put_digits(out: &mut [u8], at: usize, end: usize, n: u32)
    requires { (end ≡ at + length (decimal n)) × (end ≤ length out.old) }
    ensures { out.new ≡ overlaid out.old at (decimal n) }
{
    let mut rest = n;
    for i in (at + 1..end).rev() {
        out[i] = b'0' + (rest % 10) as u8;
        rest /= 10;
    }
    out[at] = b'0' + rest as u8;
}

// The text of n from place `at` on, and where it ends; nothing, and `at`, if there is no room for it: so a caller writes on from there either way.
#[tactic(auto, using(crate::proofs::Writing::digit_end, crate::proofs::Writing::digit_put), unfolding(crate::specs::Decimal::number_end, wire::specs::Bytes::fitted))]
pub fn put_number(out: &mut [u8], at: usize, n: u32) -> usize
    ensures { (result ≡ number_end out.old at n) × (out.new ≡ fitted out.old at (decimal n)) }
{
    // most numbers have one digit
    if n < 10 && at < out.len() {
        out[at] = b'0' + n as u8;
        return at + 1;
    }
    let count = digits_in(n);
    if !wire::has_room(out.len(), at, count) {
        return at;
    }
    put_digits(out, at, at + count, n);
    at + count
}
