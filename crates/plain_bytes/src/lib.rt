// Plain bytes: which are digits or capitals, whether two texts are the same, and where a byte first stands.
#![tactic(auto, using(crate::proofs::Laws::same_by))]

ghost use Rattle.std.specs.Prelude.{◌≡◌, ◌≤◌, length};
ghost use Rattle.rules.specs.Shift.{within};
ghost use Rattle.rules.specs.Lists.{all, same};
ghost use Rattle.rules.specs.Frame.{capital, digit, capital_or_digit};
ghost use Rattle.rules.specs.Value.{digits_ok};
ghost use Rattle.plain_bytes.specs.Bytes.{until, is_byte};

pub fn in_range(lo: u8, hi: u8, b: u8) -> bool
    ensures { result ≡ within lo hi b }
{
    (lo..=hi).contains(&b)
}

// A byte of one-byte mode that is no end.
pub fn is_plain(b: u8) -> bool
    ensures { result ≡ within 0x20 0x7E b }
{
    in_range(0x20, 0x7E, b)
}

pub fn is_digit(b: u8) -> bool
    ensures { result ≡ digit b }
{
    in_range(48, 57, b)
}

pub fn is_capital(b: u8) -> bool
    ensures { result ≡ capital b }
{
    in_range(65, 90, b)
}

pub fn is_capital_or_digit(b: u8) -> bool
    ensures { result ≡ capital_or_digit b }
{
    is_capital(b) | is_digit(b)
}

pub fn all_digits(v: &[u8]) -> bool
    ensures { result ≡ all digit v.now }
{
    v.iter().all(|b| is_digit(*b))
}

pub fn all_capitals_or_digits(v: &[u8]) -> bool
    ensures { result ≡ all capital_or_digit v.now }
{
    v.iter().all(|b| is_capital_or_digit(*b))
}

// Exactly n digits.
pub fn digits(v: &[u8], n: usize) -> bool
    ensures { result ≡ digits_ok n v.now }
{
    v.len() == n && all_digits(v)
}

// Whether both are the same bytes.
pub fn equal(a: &[u8], b: &[u8]) -> bool
    ensures { result ≡ same a.now b.now }
{
    a == b
}

// How many bytes stand before the first sep.
pub fn before(s: &[u8], sep: u8) -> usize
    ensures value { result ≡ length (until (is_byte sep) s.now) }
    ensures within { result ≤ length s.now }
{
    s.iter().position(|b| *b == sep).unwrap_or(s.len())
}
