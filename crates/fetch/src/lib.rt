// Fetching a part of a message: "the caller gets back the very stretch of his message, still escaped, from the first repetition".
#![tactic(auto)]

ghost use Rattle.std.specs.Prelude.{◌≡◌, cond, ◌+◌, ◌≤◌, eqb, length, take, drop};
ghost use Rattle.rules.specs.Shift.{met};
ghost use Rattle.rules.specs.Frame.{is, known};
ghost use Rattle.rules.specs.Proper.{Proper};
ghost use Rattle.rules.specs.Fetch.{span_of, stretch, known_of};
ghost use Rattle.rules.specs.Promises.{Located, PartGiven, StretchGiven};
ghost use Rattle.fetch.specs.Place.{PlaceFound, part_in, stretch_of};

use rules::{Delims, Kind, KnownSegment, Name, Refusal, Span};

// Where the part stands, or the refusal: the check's own first, then 31, then 30.
#[tactic(auto, unfolding(rules::specs::Fetch::fetch_told))]
pub fn locate(m: &[u8], ordinal: usize, field: usize, component: usize) -> Result<Span, Refusal>
    ensures { Located m.now ordinal field component result }
{
    checks::check(m)?;
    place(m, ordinal, field, component)
}

// The part itself, as the part of m that it is; where it is refused an empty one, at the start.
pub fn fetch(m: &[u8], ordinal: usize, field: usize, component: usize) -> &[u8]
    ensures { PartGiven m.now m.entry.ref_ptr ordinal field component result.now result.ref_ptr }
{
    bytes_of(m, locate(m, ordinal, field, component))
}

// The stretch of m that an answer names; an empty one, at the start, where it names none that lies in m.
#[tactic(auto, unfolding(rules::specs::Fetch::span_in, rules::specs::Fetch::bytes_at))]
pub fn bytes_of(m: &[u8], answer: Result<Span, Refusal>) -> &[u8]
    ensures { StretchGiven m.now m.entry.ref_ptr answer result.now result.ref_ptr }
{
    let Ok(Span { start, len }) = answer else {
        return &m[..0];
    };
    if m.len() < start || m.len() - start < len {
        return &m[..0];
    }
    let end = start + len;
    &m[start..end]
}

// After the check: where the part stands, or 31, or 30. It takes any bytes.
#[tactic(auto, unfolding(crate::specs::Place::place_told))]
pub fn place(m: &[u8], ordinal: usize, field: usize, component: usize) -> Result<Span, Refusal>
    ensures { PlaceFound m.now ordinal field component result }
{
    if field == 0 || component == 0 {
        return Err(Kind::Zero.into());
    }
    if !header::is_header(m) {
        return Err(Kind::NoOrdinal.into());
    }
    let segment = known::known_segment(m, ordinal).ok_or(Kind::NoOrdinal)?;
    Ok(part_of(m, header::delims(m), segment, field, component))
}

// A component of a field of a segment. In MSH the first separator is itself field 1.
#[tactic(auto, unfolding(rules::specs::Fetch::span_of, crate::specs::Place::stretch_of, crate::specs::Place::part_in, rules::specs::View::field_of, rules::specs::View::piece_of))]
fn part_of(m: &[u8], d: Delims, s: KnownSegment, field: usize, component: usize) -> Span
    requires { (1 ≤ field) × (1 ≤ component) × (9 ≤ length m.now) × (s.start + s.len ≤ length m.now) × Proper d }
    ensures value { result ≡ span_of d (known_of m.now s) field component }
    ensures within { result.start + result.len ≤ length m.now }
{
    if s.name != Name::Msh {
        return component_of(m, d, s, field, component);
    }
    match field {
        1 => undivided(3, 1, component),
        2 => undivided(4, 4, component),
        _ => component_of(m, d, s, field - 1, component),
    }
}

// "MSH-1 is the separator byte, MSH-2 the four bytes undivided; further components of both are empty."
fn undivided(start: usize, len: usize, component: usize) -> Span
    requires { start + len ≤ 9 }
    ensures value { result ≡ cond (eqb component 1) (stretch start len) (stretch (start + len) 0) }
    ensures within { result.start + result.len ≤ 9 }
{
    if component == 1 {
        return Span { start, len };
    }
    Span {
        start: start + len,
        len: 0,
    }
}

// A component of the first repetition of the n-th piece of a segment.
fn component_of(m: &[u8], d: Delims, s: KnownSegment, n: usize, component: usize) -> Span
    requires { (1 ≤ component) × (s.start + s.len ≤ length m.now) × Proper d }
    ensures value { result ≡ stretch_of d s.start (met (take s.len (drop s.start m.now))) n component }
    ensures within { result.start + result.len ≤ length m.now }
{
    let start = s.start;
    let end = start + s.len;
    let body = &m[start..end];
    let f = pieces::nth_piece(body, d.field, n);
    let from = f.start;
    let to = from + f.len;
    let p = part_in(&body[from..to], d, component);
    Span {
        start: start + from + p.start,
        len: p.len,
    }
}

// A component of the first repetition of a field, by its place in the field.
fn part_in(f: &[u8], d: Delims, component: usize) -> Span
    requires { (1 ≤ component) × Proper d }
    ensures value { result ≡ part_in d (met f.now) component }
    ensures within { result.start + result.len ≤ length f.now }
{
    let first = pieces::reach(f, d.repetition, 0);
    let from = first.start;
    let to = from + first.len;
    let c = pieces::nth_piece(&f[from..to], d.component, component - 1);
    let start = from + c.start;
    Span { start, len: c.len }
}
