// NM: "an optional sign, then digits with at most one point before, among or after them, at least one digit"
#![tactic(auto)]

ghost use Rattle.std.specs.Prelude.{◌≡◌};
ghost use mathlib.Core.List.{foldl};
ghost use Rattle.rules.specs.Value as Val;
ghost use Rattle.number.specs.Number.{read_byte, none_read};

// What the bytes of a number have shown so far.
#[derive(Clone, Copy)]
struct Spelling {
    good: bool, // only digits, and at most one point
    point: bool, // a point
    digit: bool, // a digit
}

// The spelling after one byte more.
fn read_byte(t: Spelling, b: u8) -> Spelling
    ensures { result ≡ read_byte t b }
{
    let digit = plain_bytes::is_digit(b);
    let point = b == 46;
    Spelling {
        good: t.good & (digit | point) & !(point & t.point),
        point: t.point | point,
        digit: t.digit | digit,
    }
}

// The spelling after all bytes of v.
fn read_all(v: &[u8]) -> Spelling
    ensures { result ≡ foldl read_byte none_read v.now }
{
    let none_read = Spelling {
        good: true,
        point: false,
        digit: false,
    };
    v.iter().fold(none_read, |t, b| read_byte(t, *b))
}

// What follows an optional sign.
fn past_sign(v: &[u8]) -> &[u8]
    ensures { result.now ≡ Val.unsigned v.now }
{
    if let [b, rest @ ..] = v {
        if (*b == b'+') | (*b == b'-') {
            return rest;
        }
    }
    v
}

// At least one digit, and only what may stand beside it; `too_long` judges the length.
pub fn is_number(v: &[u8]) -> bool
    ensures { result ≡ Val.holds Val.numeric v.now }
{
    let t = read_all(past_sign(v));
    t.good & t.digit
}
