// What the programs print on standard output, as texts: the counts, a number, and a refusal in three lines.
#![tactic(auto)]

pub mod text;

ghost use Rattle.std.specs.Prelude.{◌≡◌, ◌≤◌, length};
ghost use Rattle.rules.specs.Lists.{bytes};
ghost use Rattle.printed.specs.Printed.{line_text, three_text, refusal_text, fault_text, counts_text};

use csv_rules::FileFault;
use rules::{Counts, Refusal};
use text::Text;

// A message's refusal names its segment.
#[tactic(auto, unfolding(rules::specs::Lists::bytes))]
pub fn of_message(refusal: Refusal) -> Text<96>
    ensures { result ≡ refusal_text (bytes "segment=") refusal }
{
    refused(b"segment=", refusal)
}

// A sheet's refusal names its line.
#[tactic(auto, unfolding(rules::specs::Lists::bytes))]
pub fn of_sheet(refusal: Refusal) -> Text<96>
    ensures { result ≡ refusal_text (bytes "line=") refusal }
{
    refused(b"line=", refusal)
}

// A file's fault names no line.
#[tactic(auto, unfolding(rules::specs::Lists::bytes, crate::specs::Printed::fault_text))]
pub fn of_fault(fault: FileFault) -> Text<96>
    ensures { result ≡ fault_text fault }
{
    three(b"line=", csv_rules::fault_number(fault), 0, 0)
}

// A number, as how many sheets there are or which one.
pub fn of_number(key: &[u8], n: usize) -> Text<96>
    requires { length key.now ≤ 8 }
    ensures { result ≡ line_text key.now n }
{
    let mut text = Text::new();
    text.push_line(key, n);
    text
}

// The counts of an accepted message.
#[tactic(auto, unfolding(rules::specs::Lists::bytes, crate::specs::Printed::counts_text))]
pub fn of_counts(counts: Counts) -> Text<96>
    ensures { result ≡ counts_text counts }
{
    let mut text = Text::new();
    text.push_line(b"spm=", counts.spm);
    text.push_line(b"obr=", counts.obr);
    text.push_line(b"obx=", counts.obx);
    text
}

#[tactic(auto, unfolding(crate::specs::Printed::refusal_text))]
fn refused(place: &[u8], refusal: Refusal) -> Text<96>
    requires { length place.now ≤ 8 }
    ensures { result ≡ refusal_text place.now refusal }
{
    let number = rules::paper_number(refusal.kind);
    three(place, number, refusal.segment, refusal.field)
}

#[tactic(auto, unfolding(rules::specs::Lists::bytes, crate::specs::Printed::three_text))]
fn three(place: &[u8], number: usize, segment: usize, field: usize) -> Text<96>
    requires { length place.now ≤ 8 }
    ensures { result ≡ three_text place.now number segment field }
{
    let mut text = Text::new();
    text.push_line(b"refused=", number);
    text.push_line(place, segment);
    text.push_line(b"field=", field);
    text
}
