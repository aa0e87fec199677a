// The closed fields MSH-18 and PID-5, judged: each at the start of what is left of its segment.
#![tactic(auto)]

ghost use Rattle.std.specs.Prelude.{◌≡◌, false, [], ◌∷◌, ◌≤◌, length};
ghost use Rattle.rules.specs.Lists.{same, has};
ghost use Rattle.rules.specs.Shift.{met};
ghost use Rattle.rules.specs.Proper.{Proper};
ghost use Rattle.rules.specs.View.{component_of};
ghost use Rattle.rules.specs.Judge as J;
ghost use Rattle.value.specs.Rules.{fault_no};
ghost use Rattle.components.specs.Components.{field_at, repetition_at, forward};
ghost use Rattle.closed.specs.Closed.{ClosedOf, charset_fault, MarkedOf};

use components::{Judged, component};
use rules::{Delims, Kind};
use value::Place::{May, Must};
use value::table;

// ---- components and words

// The rest from the n-th next component on; from the repetition's end on where there are fewer.
fn forward(t: &[u8], d: Delims, n: usize) -> &[u8]
    requires { Proper d }
    ensures { met result.now ≡ forward d n (met t.now) }
{
    let mut rest = t;
    for _i in 0..n {
        let k = scan::first(rest, d).len;
        rest = scan::behind(rest, k, d);
    }
    rest
}

// Whether s is the byte b and then the word.
fn led(s: &[u8], b: u8, word: &[u8]) -> bool
    ensures { result ≡ same s.now (b ∷ word.now) }
{
    if s.is_empty() {
        return false;
    }
    (s[0] == b) & plain_bytes::equal(&s[1..], word)
}

// ---- MSH-18

// Exactly the repetition separator and `ISO IR87`.
pub fn charset(t: &[u8], d: Delims) -> Judged
    requires { Proper d }
    ensures closed_of { ClosedOf (charset_fault d) (field_at d t.now) (fault_no result.fault) result.len }
    ensures within { result.len ≤ length t.now }
{
    let len = scan::finish(t, d).len;
    if led(&t[..len], d.repetition, b"ISO IR87") {
        return Judged { fault: Ok(()), len };
    }
    Judged {
        fault: Err(Kind::Value),
        len,
    }
}

// ---- PID-5

// Whether the repetition at the start of t bears the mark in component 8.
fn marked(t: &[u8], d: Delims, mark: u8) -> bool
    requires { Proper d }
    ensures { result ≡ same (component_of d (repetition_at d t.now) 8) (mark ∷ []) }
{
    let eighth = forward(t, d, 7);
    let n = scan::first(eighth, d).len;
    led(&eighth[..n], mark, b"")
}

// The rest of the field f from its first repetition on that bears the mark; nothing where none does.
pub fn repetition(f: &[u8], d: Delims, mark: u8) -> &[u8]
    requires { Proper d × (has d.field (met f.now) ≡ false) }
    ensures marked_of { MarkedOf d mark (met f.now) result.now }
    ensures within { length result.now ≤ length f.now }
{
    let mut at = 0;
    while at < f.len() {
        let r = &f[at..];
        if marked(r, d, mark) {
            return r;
        }
        at += scan::past(r, d.repetition);
    }
    &f[at..]
}

// The name at the start of t: components 1 and 2.
fn name(t: &[u8], d: Delims) -> Result<(), Kind>
    requires { Proper d }
    ensures { fault_no result ≡ J.name_fault d (repetition_at d t.now) }
{
    let family = component(t, d, Must(table::NAME));
    let rest = scan::behind(t, family.len, d);
    let given = component(rest, d, May(table::NAME));
    family.fault.and(given.fault)
}

// The kanji name of the field f, then its kana name.
fn both(f: &[u8], d: Delims) -> Result<(), Kind>
    requires { Proper d × (has d.field (met f.now) ≡ false) }
    ensures { fault_no result ≡ J.names_fault d (met f.now) }
{
    let kanji = name(repetition(f, d, b'I'), d);
    let kana = repetition(f, d, b'P');
    if kana.is_empty() {
        return kanji;
    }
    kanji.and(name(kana, d))
}

pub fn names(t: &[u8], d: Delims) -> Judged
    requires { Proper d }
    ensures closed_of { ClosedOf (J.names_fault d) (field_at d t.now) (fault_no result.fault) result.len }
    ensures within { result.len ≤ length t.now }
{
    let len = scan::finish(t, d).len;
    let fault = both(&t[..len], d);
    Judged { fault, len }
}
