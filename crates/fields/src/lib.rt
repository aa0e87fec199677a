// A segment, read field by read field: one field as the table of document 01 lists it, and on from one to the next.
#![tactic(auto)]

ghost use Rattle.std.specs.Prelude.{◌≡◌, IfOk, ◌+◌, ◌-◌, ◌≤◌, length, take, drop};
ghost use Rattle.rules.specs.Told.{◌then◌, ◌when◌};
ghost use Rattle.rules.specs.Shift.{met};
ghost use Rattle.rules.specs.Proper.{Proper};
ghost use Rattle.plain_bytes.specs.Bytes.{until, is_byte};
ghost use Rattle.scan.specs.Scan.{onward};
ghost use Rattle.value.specs.Rules.{fault_no};
ghost use Rattle.fields.specs.Fields.{form_fault, form_head, SmallForm, ReadOf, Begins, Ready, To};

use components::{Components, Judged, one, three};
use rules::{Delims, Kind};
use value::Place;

// What is read of a field: its component 1; some of its first three; the whole of MSH-18 or of PID-5.
#[derive(Clone, Copy)]
pub enum Form {
    One(Place),
    Three(Place, Place, Place),
    Charset,
    Names,
}

// ---- one field

// How long a field's first component is, where that is read, and how long the field is.
#[derive(Clone, Copy)]
struct Extent {
    head: usize,
    len: usize,
}

// 22, or what its components break.
fn divided(c: Components) -> Result<Extent, Kind>
    ensures told { fault_no result ≡ (22 when c.repeats then fault_no c.fault) }
    ensures read { IfOk result (λ e. (e.head ≡ c.head) × (e.len ≡ c.len)) }
{
    if c.repeats {
        return Err(Kind::Repeated);
    }
    c.fault?;
    Ok(Extent {
        head: c.head,
        len: c.len,
    })
}

fn undivided(c: Judged) -> Result<Extent, Kind>
    ensures told { fault_no result ≡ fault_no c.fault }
    ensures read { IfOk result (λ e. (e.head ≡ 0) × (e.len ≡ c.len)) }
{
    c.fault?;
    Ok(Extent {
        head: 0,
        len: c.len,
    })
}

// The field at the start of t.
fn judge_field(t: &[u8], d: Delims, form: Form) -> Result<Extent, Kind>
    requires { Proper d × SmallForm form }
    ensures told { fault_no result ≡ form_fault d form (until (is_byte d.field) (met t.now)) }
    ensures read { IfOk result (λ e. ReadOf d (form_head d form) t.now e.head e.len) }
    ensures within { IfOk result (λ e. (e.len ≤ length t.now) × (e.head ≤ length t.now)) }
{
    match form {
        Form::One(a) => divided(one(t, d, a)),
        Form::Three(a, b, c) => divided(three(t, d, a, b, c)),
        Form::Charset => undivided(closed::charset(t, d)),
        Form::Names => undivided(closed::names(t, d)),
    }
}

// ---- a segment, field by field

// What a segment breaks, and in which of its fields.
#[derive(Clone, Copy)]
pub struct FieldFault {
    pub kind: Kind,
    pub field: usize,
}

// How far a segment is judged: the last field that was judged; where it starts, how long its first component is where that is read, and
// where it ends.
#[derive(Clone, Copy)]
pub struct Walk {
    pub field: usize,
    pub start: usize,
    pub head: usize,
    pub at: usize,
}

// At the segment's name, which stands where field 0 would; in MSH, whose field 1 is the first separator, field 1.
pub fn begin(field: usize) -> Walk
    ensures { Begins field result }
{
    Walk {
        field,
        start: 0,
        head: 0,
        at: 0,
    }
}

// Where the field of a number starts.
pub fn start_of(s: &[u8], d: Delims, w: Walk, number: usize) -> usize
    requires { Proper d × Ready s.now number w }
    ensures s_value { met (drop result s.now) ≡ onward d.field (number - w.field) (met (drop w.at s.now)) }
    ensures within { result ≤ length s.now }
{
    let mut at = w.at;
    for _i in w.field..number {
        at += scan::past(&s[at..], d.field);
    }
    at
}

// On to a field and through it; what it breaks ends the segment.
pub fn field(s: &[u8], d: Delims, w: Walk, number: usize, form: Form) -> Result<Walk, FieldFault>
    requires { Proper d × SmallForm form × Ready s.now number w }
    ensures { To d s.now number form w result }
{
    let start = start_of(s, d, w, number);
    match judge_field(&s[start..], d, form) {
        Ok(r) => Ok(Walk {
            field: number,
            start,
            head: r.head,
            at: start + r.len,
        }),
        Err(kind) => Err(FieldFault {
            kind,
            field: number,
        }),
    }
}

// The first component of the last field that was judged, where that is read.
pub fn head_of(s: &[u8], w: Walk) -> &[u8]
    requires { w.start + w.head ≤ length s.now }
    ensures { result.now ≡ take w.head (drop w.start s.now) }
{
    &s[w.start..w.start + w.head]
}
