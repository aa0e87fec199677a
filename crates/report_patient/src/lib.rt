// The lines of PID, their values found in one walk.
#![tactic(auto)]

ghost use Rattle.std.specs.Prelude.{◌≡◌, false, [], ◌∷◌, ◌≤◌, length};
ghost use Rattle.rules.specs.declared.Name.TheVariants.{Pid};
ghost use Rattle.rules.specs.Lists.{has, or_empty, split};
ghost use Rattle.rules.specs.Shift.{met};
ghost use Rattle.rules.specs.Judge.{first_marked};
ghost use Rattle.fill.specs.Fill.{Near};
ghost use Rattle.fill.specs.Lines.{Continued};
ghost use Rattle.sources.specs.Sources.{lines_of_body};
ghost use Rattle.report_patient.specs.Patient.{name_lines, names_lines, from_names};

use fill::Lines;
use sources::Part;

// PID.
pub fn patient(lines: &mut Lines<'_>, s: Part<'_>)
    requires { Near 7 lines.old.at }
    ensures { Continued 7 lines.old lines.new (λ d. lines_of_body d Pid (met s.entry.text.now)) }
{
    let d = lines.delims;
    let t = s.onward(d.field, 3);
    let id = t.component(d);
    let u = t.field_behind(id, d, 2);
    lines.line(b"patient=", id);
    from_names(lines, u);
}

// From PID-5 on.
fn from_names(lines: &mut Lines<'_>, t: Part<'_>)
    requires { Near 6 lines.old.at }
    ensures { Continued 6 lines.old lines.new (λ d. from_names d (met t.entry.text.now)) }
{
    let d = lines.delims;
    let f = t.piece(d.field);
    let u = t.field_behind(f, d, 2);
    names(lines, f);
    report::two_fields(lines, u, b"birth=", 1, b"sex=");
}

// PID-5.
fn names(lines: &mut Lines<'_>, f: Part<'_>)
    requires { (has lines.old.delims.field (met f.text.now) ≡ false) × Near 4 lines.old.at }
    ensures { Continued 4 lines.old lines.new (λ d. names_lines d (met f.entry.text.now)) }
{
    name(lines, b"family=", b"given=", f, b'I');
    name(lines, b"kanafamily=", b"kanagiven=", f, b'P');
}

// The name of its first repetition that bears the mark.
fn name(lines: &mut Lines<'_>, family: &[u8], given: &[u8], f: Part<'_>, mark: u8)
    requires { (length family.now ≤ 16) × (length given.now ≤ 16) × (has lines.old.delims.field (met f.text.now) ≡ false) × Near 2 lines.old.at }
    ensures { Continued 2 lines.old lines.new (λ d. name_lines d family.now given.now (or_empty (first_marked d (mark ∷ []) (split d.repetition (met f.entry.text.now))))) }
{
    let d = lines.delims;
    let t = Part {
        text: closed::repetition(f.text, d, mark),
    };
    let a = t.component(d);
    let u = t.next_component(a, d);
    let b = u.component(d);
    lines.line(family, a);
    lines.line(given, b);
}
