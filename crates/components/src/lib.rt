// The components of a field, from its start, judged one after another.
#![tactic(auto)]

ghost use Rattle.std.specs.Prelude.{◌≡◌, true, List, [], ◌∷◌, ◌+◌, ◌-◌, ◌≤◌, length};
ghost use Rattle.rules.specs.Shift.{met};
ghost use Rattle.rules.specs.Proper.{Proper};
ghost use Rattle.rules.specs.Judge as J;
ghost use Rattle.scan.specs.Scan.{next};
ghost use Rattle.value.specs.Rules.{rule_of, fault_no};
ghost use Rattle.judge.specs.Judge.{Clean, Small};
ghost use Rattle.components.specs.Components.{place_fault, Smalls, JudgedOf, ComponentsOf};

use rules::{Delims, Kind};
use value::{Place, Rule};

// ---- one component

// A read component; where it has neither escape byte nor subcomponent separator, it is judged where it lies.
#[inline(always)]
fn judge_read(raw: &[u8], d: Delims, clean: bool, required: bool, rule: Rule) -> Result<(), Kind>
    requires { Small rule × (clean ≡ true → Clean d raw.now) }
    ensures { fault_no result ≡ J.judge d required (rule_of rule) (met raw.now) }
{
    if clean {
        return judge::judge_clean(raw, required, rule);
    }
    judge::judge(raw, d, required, rule)
}

#[tactic(auto, using(crate::proofs::Laws::place_laws), unfolding(value::specs::Rules::fault_no))]
fn judge_place(raw: &[u8], d: Delims, clean: bool, place: Place) -> Result<(), Kind>
    requires { Smalls place × (clean ≡ true → Clean d raw.now) }
    ensures { fault_no result ≡ place_fault d place (met raw.now) }
{
    match place {
        Place::Unread => Ok(()),
        Place::Must(rule) => judge_read(raw, d, clean, true, rule),
        Place::May(rule) => judge_read(raw, d, clean, false, rule),
    }
}

// The component or the closed field at the start of a text: what it breaks, and its length. The length is asked for where something is
// broken, too: 22 is told before it, and seen only at the field's end.
#[derive(Clone, Copy)]
pub struct Judged {
    pub fault: Result<(), Kind>,
    pub len: usize,
}

pub fn component(t: &[u8], d: Delims, place: Place) -> Judged
    requires { Proper d × Smalls place }
    ensures judged_of { JudgedOf d place t.now (fault_no result.fault) result.len }
    ensures within { result.len ≤ length t.now }
{
    let c = scan::first(t, d);
    let len = c.len;
    let fault = judge_place(&t[..len], d, c.clean, place);
    Judged { fault, len }
}

// ---- the first components of a field

// The field at the start of t: whether it repeats, the first that its components break, the length of the first one and its own.
#[derive(Clone, Copy)]
pub struct Components {
    pub repeats: bool,
    pub fault: Result<(), Kind>,
    pub head: usize,
    pub len: usize,
}

pub fn one(t: &[u8], d: Delims, a: Place) -> Components
    requires { Proper d × Smalls a }
    ensures components_of { ComponentsOf d (a ∷ []) t.now result.repeats (fault_no result.fault) result.head result.len }
    ensures within { (result.len ≤ length t.now) × (result.head ≤ length t.now) }
{
    let x = component(t, d, a);
    let fault = x.fault;
    let head = x.len;
    let e = scan::finish(&t[head..], d);
    Components {
        repeats: e.repeats,
        fault,
        head,
        len: head + e.len,
    }
}

// The components of u, the rest of t from its second one on, with the first of t before them.
fn led(t: &[u8], x: Judged, u: &[u8], r: Components) -> Components
    requires { (length u.now ≤ length t.now) × (r.len ≤ length u.now) }
    ensures components_of { (d : Delims) → (a : Place) → (ps : List Place) → Proper d → met u.now ≡ next d (met t.now) → JudgedOf d a t.now (fault_no x.fault) x.len
        → ComponentsOf d ps u.now r.repeats (fault_no r.fault) r.head r.len
        → ComponentsOf d (a ∷ ps) t.now result.repeats (fault_no result.fault) result.head result.len }
    ensures within { (result.len ≤ length t.now) × (result.head ≡ x.len) }
{
    Components {
        repeats: r.repeats,
        fault: x.fault.and(r.fault),
        head: x.len,
        len: t.len() - u.len() + r.len,
    }
}

pub fn three(t: &[u8], d: Delims, a: Place, b: Place, c: Place) -> Components
    requires { Proper d × Smalls a × Smalls b × Smalls c }
    ensures components_of { ComponentsOf d (a ∷ b ∷ c ∷ []) t.now result.repeats (fault_no result.fault) result.head result.len }
    ensures within { (result.len ≤ length t.now) × (result.head ≤ length t.now) }
{
    let x = component(t, d, a);
    let u = scan::behind(t, x.len, d);
    let y = component(u, d, b);
    let v = scan::behind(u, y.len, d);
    led(t, x, u, led(u, y, v, one(v, d, c)))
}
