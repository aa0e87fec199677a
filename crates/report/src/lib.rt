// The lines of MSH, PV1, SPM and OBR, their values found in one walk.
#![tactic(auto)]

ghost use Rattle.std.specs.Prelude.{◌≤◌, length};
ghost use Rattle.rules.specs.declared.Name.TheVariants.{Msh, Pv1, Spm, Obr};
ghost use Rattle.rules.specs.Shift.{met};
ghost use Rattle.fill.specs.Fill.{Near};
ghost use Rattle.fill.specs.Lines.{Continued};
ghost use Rattle.sources.specs.Sources.{lines_of_body};
ghost use Rattle.report.specs.Report.{from_sent, field_lines};

use fill::Lines;
use sources::Part;

// MSH.
pub fn header(lines: &mut Lines<'_>, s: Part<'_>)
    requires { Near 4 lines.old.at }
    ensures { Continued 4 lines.old lines.new (λ d. lines_of_body d Msh (met s.entry.text.now)) }
{
    let t = s.onward(lines.delims.field, 6);
    lines.line_as_is(b"version=", b"1");
    from_sent(lines, t);
}

// From MSH-7 on.
fn from_sent(lines: &mut Lines<'_>, t: Part<'_>)
    requires { Near 3 lines.old.at }
    ensures { Continued 3 lines.old lines.new (λ d. from_sent d (met t.entry.text.now)) }
{
    let d = lines.delims;
    let sent = t.component(d);
    let u = t.field_behind(sent, d, 3);
    let control = u.component(d);
    let w = u.field_behind(control, d, 1);
    let mode = w.component(d);
    lines.line(b"mode=", mode);
    lines.line(b"sent=", sent);
    lines.line(b"control=", control);
}

// PV1.
pub fn visit(lines: &mut Lines<'_>, s: Part<'_>)
    requires { Near 1 lines.old.at }
    ensures { Continued 1 lines.old lines.new (λ d. lines_of_body d Pv1 (met s.entry.text.now)) }
{
    let d = lines.delims;
    let t = s.onward(d.field, 2);
    let class = t.component(d);
    lines.line(b"class=", class);
}

// SPM.
pub fn specimen(lines: &mut Lines<'_>, s: Part<'_>)
    requires { Near 2 lines.old.at }
    ensures { Continued 2 lines.old lines.new (λ d. lines_of_body d Spm (met s.entry.text.now)) }
{
    let t = s.onward(lines.delims.field, 4);
    two_fields(lines, t, b"specimen=", 13, b"collected=");
}

// OBR.
pub fn order(lines: &mut Lines<'_>, s: Part<'_>)
    requires { Near 2 lines.old.at }
    ensures { Continued 2 lines.old lines.new (λ d. lines_of_body d Obr (met s.entry.text.now)) }
{
    let t = s.onward(lines.delims.field, 2);
    two_fields(lines, t, b"order=", 2, b"group=");
}

// The line of the field here, and that of the field n further on.
pub fn two_fields(lines: &mut Lines<'_>, t: Part<'_>, here: &[u8], n: usize, there: &[u8])
    requires { (length here.now ≤ 16) × (length there.now ≤ 16) × (1 ≤ n) × Near 2 lines.old.at }
    ensures { Continued 2 lines.old lines.new (λ d. field_lines d here.now n there.now (met t.entry.text.now)) }
{
    let d = lines.delims;
    let a = t.component(d);
    let u = t.field_behind(a, d, n);
    let b = u.component(d);
    lines.line(here, a);
    lines.line(there, b);
}
