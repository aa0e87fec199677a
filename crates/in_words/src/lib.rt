// A refusal in words: one line, with the place as people say it.
#![tactic(auto)]

ghost use Rattle.std.specs.Prelude.{◌≡◌, ◌++◌, ◌+◌, ◌≤◌, length};
ghost use Rattle.rules.specs.Frame.{spelling};
ghost use Rattle.rules.specs.Lists.{bytes, decimal};
ghost use Rattle.in_words.specs.Line.{once, of_segment, field_text, spot_text, place_text, refusal_in_words, fault_in_words};

use csv_rules::FileFault;
use printed::text::Text;
use rules::{Name, Refusal};
use spot::Spot;
use words::Where;

// A refusal in words, one line: `name` is that of the segment that it names (Other where it names none), `spot` the place in the text.
#[tactic(auto, unfolding(crate::specs::Line::refusal_in_words))]
pub fn of_refusal(refusal: Refusal, name: Name, spot: Spot) -> Text<192>
    ensures { result ≡ refusal_in_words refusal name spot }
{
    let mut line = place_said(words::place_of(refusal.kind), refusal, name, spot);
    let breach = words::breach_of(name, refusal.field);
    line.push(words::of_kind(refusal.kind, breach).as_bytes());
    line.push(b"\n");
    line
}

// A file's fault in words, with the line where it is met.
#[tactic(auto, unfolding(crate::specs::Line::fault_in_words, rules::specs::Lists::bytes))]
pub fn of_fault(fault: FileFault, line: usize) -> Text<192>
    ensures { result ≡ fault_in_words fault line }
{
    let mut said = numbered(b"line ", line);
    said.push(words::of_fault(fault).as_bytes());
    said.push(b"\n");
    said
}

#[tactic(auto, unfolding(crate::specs::Line::place_text, rules::specs::Lists::bytes))]
fn place_said(place: Where, refusal: Refusal, name: Name, spot: Spot) -> Text<192>
    ensures is { result ≡ place_text place refusal name spot }
    ensures within { length result ≤ 58 }
{
    match place {
        Where::Nowhere => Text::new(),
        Where::AtSpot => spot_said(spot),
        Where::AtSegment => numbered(b"segment ", refusal.segment),
        Where::AtLine => numbered(b"line ", refusal.segment),
        Where::AtField => field_said(name, refusal.field, refusal.segment),
    }
}

// A place that is a number of its kind.
#[tactic(auto, unfolding(rules::specs::Lists::bytes))]
fn numbered(kind: &[u8], n: usize) -> Text<192>
    requires { length kind.now ≤ 8 }
    ensures is { result ≡ kind.now ++ decimal n ++ bytes ": " }
    ensures within { length result ≤ 30 }
{
    let mut place = Text::new();
    place.push(kind);
    place.push_number(n);
    place.push(b": ");
    place
}

#[tactic(auto, unfolding(crate::specs::Line::spot_text, rules::specs::Lists::bytes))]
fn spot_said(spot: Spot) -> Text<192>
    ensures is { result ≡ spot_text spot }
    ensures within { length result ≤ 58 }
{
    let mut place = Text::new();
    place.push(b"line ");
    place.push_number(spot.line);
    place.push(b", byte ");
    place.push_number(spot.byte);
    place.push(b": ");
    place
}

// A field by its segment's name, and by its segment too where a message may have several of the name.
#[tactic(auto, unfolding(crate::specs::Line::field_text, rules::specs::Lists::bytes))]
fn field_said(name: Name, field: usize, segment: usize) -> Text<192>
    ensures is { result ≡ field_text name field segment }
    ensures within { length result ≤ 58 }
{
    let mut place = Text::new();
    place.push(spelled(name));
    place.push(b"-");
    place.push_number(field);
    push_segment(&mut place, name, segment);
    place.push(b": ");
    place
}

// The segment, where a message may have several of the name.
#[tactic(auto, unfolding(crate::specs::Line::of_segment, rules::specs::Lists::bytes))]
fn push_segment(place: &mut Text<192>, name: Name, segment: usize)
    requires { length place.old ≤ 160 }
    ensures is { place.new ≡ place.old ++ of_segment name segment }
    ensures within { length place.new ≤ length place.old + 32 }
{
    if !comes_once(name) {
        place.push(b" of segment ");
        place.push_number(segment);
    }
}

// A segment's name; nothing for another.
#[tactic(auto, unfolding(rules::specs::Frame::spelling, rules::specs::Lists::bytes))]
fn spelled(name: Name) -> &'static [u8]
    ensures is { result.now ≡ spelling name }
    ensures short { length result.now ≤ 3 }
{
    match name {
        Name::Msh => &rules::MSH,
        Name::Pid => &rules::PID,
        Name::Pv1 => &rules::PV1,
        Name::Spm => &rules::SPM,
        Name::Obr => &rules::OBR,
        Name::Orc => &rules::ORC,
        Name::Obx => &rules::OBX,
        Name::Other => b"",
    }
}

// Whether a message has one segment of this name.
#[tactic(auto, unfolding(crate::specs::Line::once, rules::specs::Lists::any))]
fn comes_once(name: Name) -> bool
    ensures { result ≡ once name }
{
    matches!(name, Name::Msh | Name::Pid | Name::Pv1)
}
