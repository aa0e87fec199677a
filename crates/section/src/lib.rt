// A segment's section of the sheet: its lines, by its name.
#![tactic(auto)]

ghost use Rattle.std.specs.Prelude.{◌+◌, ◌≤◌, length};
ghost use Rattle.rules.specs.Shift.{met};
ghost use Rattle.rules.specs.Frame.{name_of};
ghost use Rattle.rules.specs.Proper.{Proper};
ghost use Rattle.fill.specs.Fill.{Lined, longest, Near};
ghost use Rattle.fill.specs.Lines.{Continued};
ghost use Rattle.sources.specs.Sources.{lines_of_body};

use fill::Lines;
use rules::{Delims, Name};
use sources::Part;

// A segment's lines behind those that stand already, in what remains of the buffer.
pub fn put(out: &mut [u8], at: usize, s: &[u8], d: Delims) -> usize
    requires { Proper d × (length s.now ≤ 4096) × Near 10 at }
    ensures lined { Lined at out.old (lines_of_body d (name_of s.now) (met s.now)) result out.new }
    ensures within { result ≤ at + longest 10 }
{
    let from = at.min(out.len());
    at + put_first(&mut out[from..], Part { text: s }, d)
}

// From the front of a buffer on.
fn put_first(out: &mut [u8], s: Part<'_>, d: Delims) -> usize
    requires { Proper d }
    ensures lined { Lined 0 out.old (lines_of_body d (name_of s.entry.text.now) (met s.entry.text.now)) result out.new }
    ensures within { result ≤ longest 10 }
{
    let mut lines = Lines {
        out,
        at: 0,
        delims: d,
    };
    lines_of(&mut lines, names::name_of(s.text), s);
    lines.at
}

// The lines of a segment of this name, at most ten; an ORC and a segment of another name have none.
fn lines_of(lines: &mut Lines<'_>, name: Name, s: Part<'_>)
    requires { Near 10 lines.old.at }
    ensures { Continued 10 lines.old lines.new (λ d. lines_of_body d name (met s.entry.text.now)) }
{
    match name {
        Name::Msh => report::header(lines, s),
        Name::Pid => report_patient::patient(lines, s),
        Name::Pv1 => report::visit(lines, s),
        Name::Spm => report::specimen(lines, s),
        Name::Obr => report::order(lines, s),
        Name::Obx => report_result::result(lines, s),
        Name::Orc | Name::Other => {}
    }
}
