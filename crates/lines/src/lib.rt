// A sheet's lines, found by their 0A; and one line judged, by its key and then its value: "42 before 43".
#![tactic(auto)]

ghost use Rattle.std.specs.Prelude.{◌≡◌, true, ◌+◌, ◌≤◌, ◌<◌, length, drop};
ghost use Rattle.rules.specs.Lists.{filled, nth};
ghost use Rattle.rules.specs.Value.{fits};
ghost use Rattle.rules.specs.Sheet.{lines_of};
ghost use Rattle.value.specs.Rules.{rule_of};
ghost use Rattle.lines.specs.Lines.{fits_place, line_as, line_at, behind_line, place_behind};

use std::marker::Model;
use value::{Place, Rule};

pub mod keys;

// What is wrong with a line of a group: its key or its value. The line goes by its place in the group, from 0.
#[derive(Clone, Copy, PartialEq, Eq)]
pub enum LineFault {
    Key(usize), // 42
    Value(usize), // 43
}

// ---- lines

// The place behind the line at a place, or that place where no 0A ends one.
fn next_line(s: &[u8], at: usize) -> usize
    requires { at ≤ length s.now }
    ensures value { result ≡ behind_line (lines_of (drop at s.now)) at }
    ensures rest { lines_of (drop result s.now) ≡ drop 1 (lines_of (drop at s.now)) }
    ensures within { result ≤ length s.now }
{
    let rest = &s[at..];
    let n = plain_bytes::before(rest, 0x0A);
    if n == rest.len() {
        return at;
    }
    at + n + 1
}

// What stands in a line behind n bytes, those of its key.
fn behind_key(t: &[u8], n: usize) -> &[u8]
    ensures value { result.now ≡ drop n t.now }
    ensures within { length result.now ≤ length t.now }
{
    &t[n.min(t.len())..]
}

// A text that begins with a group's lines, and the places of its first ten, as many as the longest group has, and the place behind each.
#[derive(Drop)]
pub struct Group<'a> {
    text: &'a [u8],
    places: [usize; 11],
}

// A clause sees the text.
impl<'a> Model for Group<'a> {
    ghost use Rattle.std.specs.Prelude.{List, ℕ};
    ghost use Rattle.lines.specs.Lines.{Cut};

    ghost Value = { List ℕ };

    ghost view = { λ g. g.text.now };

    ghost invariant = { λ g. Cut 10 g.text.now g.places };
}

impl<'a> Group<'a> {
    pub fn of(text: &'a [u8]) -> Group<'a>
        ensures { result ≡ text.now }
    {
        let mut places = [0; 11];
        for k in 0..10 {
            places[k + 1] = next_line(text, places[k]);
        }
        Group { text, places }
    }

    // Whether the text has a line.
    pub fn has_line(&self) -> bool
        ensures { result ≡ filled (lines_of self.now) }
    {
        self.places[1] != 0
    }

    // What stands behind the first n lines.
    pub fn behind(&self, n: usize) -> &'a [u8]
        requires { n ≤ 10 }
        ensures place { result.now ≡ drop (place_behind n (lines_of self.now)) self.now }
        ensures rest { lines_of result.now ≡ drop n (lines_of self.now) }
        ensures within { length result.now ≤ length self.now }
        ensures shorter { filled (lines_of self.now) ≡ true → 0 < n → length result.now < length self.now }
    {
        &self.text[self.places[n]..]
    }

    // The k-th line, from 0; empty where there are fewer.
    pub fn line_at(&self, k: usize) -> &'a [u8]
        requires { k < 10 }
        ensures value { result.now ≡ nth (lines_of self.now) k }
        ensures within { length result.now ≤ length self.now }
    {
        let start = self.places[k];
        let end = self.places[k + 1];
        if end == start {
            return &self.text[start..start];
        }
        &self.text[start..end - 1]
    }

    // The value of the k-th line, which has this key.
    pub fn value_at(&self, k: usize, key: &[u8]) -> &'a [u8]
        requires { k < 10 }
        ensures value { result.now ≡ drop (length key.now) (nth (lines_of self.now) k) }
        ensures within { length result.now ≤ length self.now }
    {
        behind_key(self.line_at(k), key.len())
    }

    // The k-th line judged, whose value has the rule of a place, where something else must hold too.
    pub fn line_if(&self, k: usize, key: &[u8], place: Place, also: bool) -> Result<(), LineFault>
        requires { k < 10 }
        ensures { result ≡ line_at k key.now place also (lines_of self.now) }
    {
        let t = self.line_at(k);
        let v = behind_key(t, key.len());
        judged(k, t, key, keeps_place(v, place) & also)
    }

    // The same, where nothing else must hold.
    pub fn line(&self, k: usize, key: &[u8], place: Place) -> Result<(), LineFault>
        requires { k < 10 }
        ensures { result ≡ line_at k key.now place true (lines_of self.now) }
    {
        self.line_if(k, key, place, true)
    }
}

// ---- one line judged

// The line t, the k-th of its group, where good says that its value keeps its rule.
fn judged(k: usize, t: &[u8], key: &[u8], good: bool) -> Result<(), LineFault>
    ensures { result ≡ line_as k key.now good t.now }
{
    let v = t.strip_prefix(key).ok_or(LineFault::Key(k))?;
    if !good | (v == b"\"\"".as_slice()) {
        return Err(LineFault::Value(k));
    }
    Ok(())
}

// A value rule holds.
fn keeps(v: &[u8], required: bool, rule: Rule) -> bool
    ensures { result ≡ fits required (rule_of rule) v.now }
{
    value::fault_of(required, rule, v).is_ok()
}

// The rule of a place holds.
fn keeps_place(v: &[u8], place: Place) -> bool
    ensures { result ≡ fits_place place v.now }
{
    match place {
        Place::Unread => true,
        Place::Must(rule) => keeps(v, true, rule),
        Place::May(rule) => keeps(v, false, rule),
    }
}
