// The lines of an OBX, their values found in one walk.
#![tactic(auto)]

ghost use Rattle.rules.specs.declared.Name.TheVariants.{Obx};
ghost use Rattle.rules.specs.Shift.{met};
ghost use Rattle.fill.specs.Fill.{Near};
ghost use Rattle.fill.specs.Lines.{Continued};
ghost use Rattle.sources.specs.Sources.{lines_of_body};
ghost use Rattle.report_result.specs.Result.{from_item, from_value, from_unit};

use fill::Lines;
use sources::Part;

// OBX.
pub fn result(lines: &mut Lines<'_>, s: Part<'_>)
    requires { Near 10 lines.old.at }
    ensures { Continued 10 lines.old lines.new (λ d. lines_of_body d Obx (met s.entry.text.now)) }
{
    let d = lines.delims;
    let t = s.onward(d.field, 2);
    let obx2 = t.component(d);
    let u = t.field_behind(obx2, d, 1);
    from_item(lines, u, obx2);
}

// From OBX-3 on, and the type.
fn from_item<'a>(lines: &mut Lines<'_>, t: Part<'a>, obx2: Part<'a>)
    requires { Near 10 lines.old.at }
    ensures { Continued 10 lines.old lines.new (λ d. from_item d (met t.entry.text.now) (met obx2.entry.text.now)) }
{
    let d = lines.delims;
    let code = t.component(d);
    let u = t.next_component(code, d);
    let name = u.component(d);
    let v = u.field_behind(name, d, 2);
    lines.line(b"item=", code);
    lines.line(b"name=", name);
    lines.line(b"type=", obx2);
    from_value(lines, v, obx2);
}

// From OBX-5 on, by the type.
fn from_value<'a>(lines: &mut Lines<'_>, t: Part<'a>, obx2: Part<'a>)
    requires { Near 7 lines.old.at }
    ensures { Continued 7 lines.old lines.new (λ d. from_value d (met t.entry.text.now) (met obx2.entry.text.now)) }
{
    let d = lines.delims;
    let f = t.piece(d.field);
    let u = t.field_behind(f, d, 1);
    report_value::parts(lines, f, obx2);
    from_unit(lines, u);
}

// From OBX-6 on.
fn from_unit(lines: &mut Lines<'_>, t: Part<'_>)
    requires { Near 3 lines.old.at }
    ensures { Continued 3 lines.old lines.new (λ d. from_unit d (met t.entry.text.now)) }
{
    let d = lines.delims;
    let unit = t.component(d);
    let u = t.field_behind(unit, d, 2);
    let flag = u.component(d);
    let w = u.field_behind(flag, d, 3);
    let status = w.component(d);
    lines.line(b"unit=", unit);
    lines.line(b"flag=", flag);
    lines.line(b"status=", status);
}
