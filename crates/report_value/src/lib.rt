// The lines of OBX-5: comparator, value, joiner and second number.
#![tactic(auto)]

ghost use Rattle.std.specs.Prelude.{◌≡◌, [], ◌∷◌, ◌≤◌, length};
ghost use Rattle.rules.specs.Shift.{met};
ghost use Rattle.rules.specs.Proper.{Proper};
ghost use Rattle.rules.specs.Judge.{plain_of, is_sn, raw_four};
ghost use Rattle.fill.specs.Fill.{Near};
ghost use Rattle.fill.specs.Lines.{Continued};
ghost use Rattle.report_value.specs.Value.{four_lines, four_in, only_in, value_line};

use fill::Lines;
use rules::Delims;
use sources::Part;

// OBX-5, by the type.
pub fn parts<'a>(lines: &mut Lines<'_>, f: Part<'a>, obx2: Part<'a>)
    requires { Near 4 lines.old.at }
    ensures { Continued 4 lines.old lines.new (λ d. four_lines d (raw_four d (plain_of d (met obx2.entry.text.now)) (met f.entry.text.now))) }
{
    if is_sn(obx2, lines.delims) {
        numbers(lines, f);
    } else {
        single(lines, f);
    }
}

// Whether a type is SN.
fn is_sn(obx2: Part<'_>, d: Delims) -> bool
    requires { Proper d }
    ensures { result ≡ is_sn (plain_of d (met obx2.entry.text.now)) }
{
    let mut word = [0u8; 2];
    let n = fill::text(&mut word, obx2, d);
    (n == 2) & plain_bytes::equal(&word, b"SN")
}

// SN's four components.
fn numbers(lines: &mut Lines<'_>, f: Part<'_>)
    requires { Near 4 lines.old.at }
    ensures { Continued 4 lines.old lines.new (λ d. four_lines d (four_in d (met f.entry.text.now))) }
{
    let sep = lines.delims.component;
    let t = f.onward(sep, 1);
    let u = t.onward(sep, 1);
    let w = u.onward(sep, 1);
    let compare = f.piece(sep);
    let value = t.piece(sep);
    let join = u.piece(sep);
    let second = w.piece(sep);
    lines.line(b"compare=", compare);
    lines.line(b"value=", value);
    lines.line(b"join=", join);
    lines.line(b"second=", second);
}

// The value of another type, with nothing beside it: "For NM and ST, compare, join and second are blank."
fn single(lines: &mut Lines<'_>, f: Part<'_>)
    requires { Near 4 lines.old.at }
    ensures { Continued 4 lines.old lines.new (λ d. four_lines d (only_in d (met f.entry.text.now))) }
{
    lines.blank_line(b"compare=");
    value(lines, f);
    lines.blank_line(b"join=");
    lines.blank_line(b"second=");
}

// The first component; where that is the whole field and has no escapes, the field as it is.
fn value(lines: &mut Lines<'_>, f: Part<'_>)
    requires { Near 1 lines.old.at }
    ensures { Continued 1 lines.old lines.new (λ d. value_line d (met f.entry.text.now) ∷ []) }
{
    let d = lines.delims;
    let c = scan::first(f.text, d);
    if c.clean & (c.len == f.text.len()) {
        lines.line_as_is(b"value=", f.text);
        return;
    }
    let first = f.piece(d.component);
    lines.line(b"value=", first);
}
