// Sheet to message. A pass over the sheet's groups judges them, unless they are known to be right, measures the message, and writes each segment
// into what remains of the lent buffer, as far as there is room.
#![tactic(auto)]

ghost use Rattle.std.specs.Prelude.{◌≡◌, true, ◌+◌, ◌≤◌, length, Ok};
ghost use Rattle.rules.specs.Frame as Frame;
ghost use Rattle.rules.specs.Row.{lines};
ghost use Rattle.rules.specs.Sheet.{lines_of};
ghost use Rattle.rules.specs.Proper.{Proper};
ghost use Rattle.rules.specs.Message as Message;
ghost use Rattle.lines.specs.Lines.{longest_sheet};
ghost use Rattle.groups.specs.Groups.{VerdictOn};
ghost use Rattle.numbered.specs.Numbered.{numbers_of, Sources};
ghost use Rattle.compose.specs.Compose.{group_text, FitAt, longest_group, farthest_end, FaultFree, Pass};

use lines::{Group, LineFault};
use numbered::Numbers;
use rules::{Delims, Kind, Name, Refusal};

// ---- a group written

// A group's segments behind the bytes that stand already, each in what remains of the buffer: behind an order's OBR stands its ORC.
fn put_group(out: &mut [u8], at: usize, name: Name, g: &Group, numbers: Numbers, d: Delims) -> usize
    requires { Sources g.now numbers d × (at ≤ farthest_end) }
    ensures fit_at { FitAt at out.old (group_text d (numbers_of numbers) name (lines_of g.now)) result out.new }
    ensures within { result ≤ at + longest_group }
{
    let from = at.min(out.len());
    let end = at + numbered::put_first(&mut out[from..], name, g, numbers, d);
    if !names::is(name, Name::Obr) {
        return end;
    }
    let behind = end.min(out.len());
    end + segments::common_order(&mut out[behind..], g, d)
}

// ---- a group counted

// How many of a name there are with one name more, counted anew at another.
fn counting(x: Name, anew: Name, n: usize, name: Name) -> usize
    requires { n ≤ longest_sheet }
    ensures value { result ≡ Frame.counting x anew n name }
    ensures within { result ≤ n + 1 }
{
    if name == x {
        return n + 1;
    }
    if name == anew {
        return 0;
    }
    n
}

// The numbers with a group more.
fn counted(n: Numbers, name: Name) -> Numbers
    requires { (n.specimen ≤ longest_sheet) × (n.result ≤ longest_sheet) }
    ensures result_value { numbers_of result ≡ Message.counted (numbers_of n) name }
    ensures within { (result.specimen ≤ n.specimen + 1) × (result.result ≤ n.result + 1) }
{
    Numbers {
        specimen: counting(Name::Spm, Name::Msh, n.specimen, name),
        result: counting(Name::Obx, Name::Obr, n.result, name),
    }
}

// ---- a pass over the sheet

// How many bytes and segments a message has.
#[derive(Clone, Copy)]
pub struct Size {
    pub bytes: usize,
    pub segments: usize,
}

// The verdict on a group; no group of a sheet that is known to be right is judged again.
// The flag stays: as a closure that judges or not, a pass would state a second time that the sheet is `FaultFree`.
fn verdict(known: bool, name: Name, g: &Group) -> Result<(), LineFault>
    requires { known ≡ true → VerdictOn (lines name) (lines_of g.now) (Ok tt) }
    ensures { VerdictOn (lines name) (lines_of g.now) result }
{
    if known {
        return Ok(());
    }
    groups::group(name, g)
}

// The walk is that of `sheets::read_groups`, which stays apart: a sheet of a file is judged without its message, and needn't be measured.
// A pass over the groups of a sheet. A buffer too short for the message is left in any state, and one with room has the message over its front.
pub fn pass(out: &mut [u8], sheet: &[u8], d: Delims, known: bool) -> Result<Size, Refusal>
    requires { (length sheet.now ≤ longest_sheet) × (known ≡ true → FaultFree sheet.now) × Proper d }
    ensures { Pass d sheet.now out.old result out.new }
{
    let mut reached = order::start();
    let mut line = 1;
    let mut bytes = 0;
    let mut segments = 0;
    let mut numbers = Numbers {
        specimen: 0,
        result: 0,
    };
    let mut rest = Group::of(sheet);
    while rest.has_line() {
        let next = openings::next_group(reached, &rest);
        if let Err(fault) = verdict(known, next, &rest) {
            return Err(sheets::unread(fault, line));
        }
        numbers = counted(numbers, next);
        bytes = put_group(out, bytes, next, &rest, numbers, d);
        segments += 1 + names::hit(next, Name::Obr);
        let n = groups::lines_in(next);
        line += n;
        rest = Group::of(rest.behind(n));
        reached = openings::past_group(reached, next);
    }
    if !order::may_end(reached) {
        return Err(sheets::refused(Kind::Key, line));
    }
    Ok(Size { bytes, segments })
}
