// OBX-5, the value of a result, at the start of what is left of its segment: judged by OBX-2's word, component by component.
#![tactic(auto)]

ghost use Rattle.std.specs.Prelude.{◌≡◌, true, false, not, ◌&&◌, List, ℕ, ◌≤◌, length};
ghost use Rattle.rules.specs.Told.{◌then◌, ◌when◌};
ghost use Rattle.rules.specs.Lists.{filled};
ghost use Rattle.rules.specs.Proper.{Proper};
ghost use Rattle.rules.specs.Places.{Four, value_rules};
ghost use Rattle.rules.specs.Judge as J;
ghost use Rattle.value.specs.Rules.{rules_of, fault_no};
ghost use Rattle.components.specs.Components.{field_at};
ghost use Rattle.obx_value.specs.Value.{SmallParts, LastOf, NumberOf, ValueOf};

use components::{component, one};
use rules::{Delims, Kind};
use value::Parts;
use value::Place::May;

// ---- faults

// 22 for a repetition, then 23 for a component too many.
#[tactic(auto, using(crate::proofs::Laws::shape_laws), unfolding(value::specs::Rules::fault_no))]
fn shape(repeats: bool, excess: bool) -> Result<(), Kind>
    ensures { fault_no result ≡ (22 when repeats then 23 when excess) }
{
    if repeats {
        return Err(Kind::Repeated);
    }
    if excess {
        return Err(Kind::Escape);
    }
    Ok(())
}

// "SN with an empty number beside a filled part: 20"; else the number's own fault.
#[tactic(auto, using(crate::proofs::Laws::needed_laws), unfolding(value::specs::Rules::fault_no))]
fn needed(beside: bool, filled: bool, own: Result<(), Kind>) -> Result<(), Kind>
    ensures { fault_no result ≡ (20 when (beside && not filled) then fault_no own) }
{
    if beside & !filled {
        return Err(Kind::Missing);
    }
    own
}

// "a second number needs a joiner, judged at that number"
#[tactic(auto, using(crate::proofs::Laws::unjoined_laws), unfolding(value::specs::Rules::fault_no))]
fn unjoined(joiner: bool, second: bool) -> Result<(), Kind>
    ensures { (c : Four (List ℕ)) → joiner ≡ filled c.join → second ≡ filled c.second → fault_no result ≡ (25 when J.unjoined c) }
{
    if value::unjoined(joiner, second) {
        return Err(Kind::Value);
    }
    Ok(())
}

// ---- NM and ST: one component

// Its first fault, its length, whether the value is filled and whether a part beside it is.
#[derive(Clone, Copy)]
pub struct ValueRead {
    pub fault: Result<(), Kind>,
    pub len: usize,
    pub filled: bool,
    pub beside: bool,
}

fn single(t: &[u8], d: Delims, rules: Parts) -> ValueRead
    requires { Proper d × SmallParts rules }
    ensures by_index { (type : List ℕ) → J.is_sn type ≡ false → rules_of rules ≡ value_rules type → ValueOf d type (field_at d t.now) (fault_no result.fault) result.len result.filled result.beside }
    ensures within { result.len ≤ length t.now }
{
    let c = one(t, d, May(rules.value));
    ValueRead {
        fault: shape(c.repeats, c.head < c.len).and(c.fault),
        len: c.len,
        filled: 0 < c.head,
        beside: false,
    }
}

// ---- SN: comparator, number, joiner, second number

// The joiner and the second number: the fault of the field's shape, their own first fault, the length up to the field's end, and
// which of the two is filled.
#[derive(Clone, Copy)]
struct LastRead {
    form: Result<(), Kind>,
    fault: Result<(), Kind>,
    len: usize,
    joiner: bool,
    second: bool,
}

fn last_two(t: &[u8], d: Delims, rules: Parts) -> LastRead
    requires { Proper d × SmallParts rules }
    ensures last_of { LastOf d (rules_of rules) t.now (fault_no result.form) (fault_no result.fault) result.len result.joiner result.second }
    ensures within { result.len ≤ length t.now }
{
    let a = component(t, d, May(rules.join));
    let u = scan::behind(t, a.len, d);
    let b = one(u, d, May(rules.second));
    let joiner = 0 < a.len;
    let second = 0 < b.head;
    LastRead {
        form: shape(b.repeats, b.head < b.len),
        fault: a.fault.and(b.fault.and(unjoined(joiner, second))),
        len: t.len() - u.len() + b.len,
        joiner,
        second,
    }
}

// The number and what follows it, where a comparator is filled or not: what the field's shape breaks, and what is read of the others.
#[derive(Clone, Copy)]
struct NumberRead {
    form: Result<(), Kind>,
    read: ValueRead,
}

fn last_three(t: &[u8], d: Delims, rules: Parts, compared: bool) -> NumberRead
    requires { Proper d × SmallParts rules }
    ensures number_of { NumberOf d (rules_of rules) compared t.now (fault_no result.form) (fault_no result.read.fault) result.read.len result.read.filled result.read.beside }
    ensures within { result.read.len ≤ length t.now }
{
    let a = component(t, d, May(rules.value));
    let u = scan::behind(t, a.len, d);
    let e = last_two(u, d, rules);
    let filled = 0 < a.len;
    let beside = value::beside(compared, e.joiner, e.second);
    NumberRead {
        form: e.form,
        read: ValueRead {
            fault: needed(beside, filled, a.fault).and(e.fault),
            len: t.len() - u.len() + e.len,
            filled,
            beside,
        },
    }
}

fn numbers(t: &[u8], d: Delims, rules: Parts) -> ValueRead
    requires { Proper d × SmallParts rules }
    ensures by_index { (type : List ℕ) → J.is_sn type ≡ true → rules_of rules ≡ value_rules type → ValueOf d type (field_at d t.now) (fault_no result.fault) result.len result.filled result.beside }
    ensures within { result.len ≤ length t.now }
{
    let a = component(t, d, May(rules.compare));
    let u = scan::behind(t, a.len, d);
    let e = last_three(u, d, rules, 0 < a.len);
    ValueRead {
        fault: e.form.and(a.fault.and(e.read.fault)),
        len: t.len() - u.len() + e.read.len,
        ..e.read
    }
}

// ---- by OBX-2's word

pub fn value(t: &[u8], d: Delims, word: &[u8]) -> ValueRead
    requires { Proper d }
    ensures value_of { ValueOf d word.now (field_at d t.now) (fault_no result.fault) result.len result.filled result.beside }
    ensures within { result.len ≤ length t.now }
{
    let rules = value::part_rules(word);
    if plain_bytes::equal(word, b"SN") {
        return numbers(t, d, rules);
    }
    single(t, d, rules)
}
