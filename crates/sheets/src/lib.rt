// A sheet judged: 40 and 41, then its groups, line by line, 42 and 43.
#![tactic(auto)]

ghost use Rattle.std.specs.Prelude.{◌≡◌, ◌+◌, ◌≤◌, length};
ghost use Rattle.rules.specs.Told.{told};
ghost use Rattle.rules.specs.Lists.{empty, last, split};
ghost use Rattle.lines.specs.Lines.{longest_sheet};
ghost use Rattle.groups.specs.Groups.{line_of};
ghost use Rattle.sheets.specs.Sheet.{kind_of, refusal_at, readable_told, groups_told, judged_told, farthest_line};

use lines::{Group, LineFault};
use rules::{Kind, Refusal};

pub fn refused(kind: Kind, line: usize) -> Refusal
    ensures { result ≡ refusal_at kind line }
{
    Refusal {
        kind,
        segment: line,
        field: 0,
    }
}

// ---- 40 and 41

// Whether a sheet is empty or ends in 0A.
fn ends(s: &[u8]) -> bool
    ensures { result ≡ empty (last (split 0x0A s.now)) }
{
    match s {
        [] => true,
        [.., end] => *end == 0x0A,
    }
}

// Whether the lines of a sheet may be read: 40 and 41.
pub fn readable(sheet: &[u8]) -> Result<(), Refusal>
    ensures { told result ≡ readable_told sheet.now }
{
    if 65536 < sheet.len() {
        return Err(refused(Kind::SheetTooLong, 0));
    }
    if !scan::keeps(sheet, 0x0A) {
        return Err(refused(Kind::SheetBytes, 0));
    }
    if !ends(sheet) {
        return Err(refused(Kind::SheetBytes, 0));
    }
    Ok(())
}

// ---- 42 and 43

// The refusal of a group whose first line has this number.
pub fn unread(fault: LineFault, line: usize) -> Refusal
    requires { (line_of fault ≤ 10) × (line ≤ farthest_line) }
    ensures { result ≡ refusal_at (kind_of fault) (line + line_of fault) }
{
    let (kind, k) = match fault {
        LineFault::Key(k) => (Kind::Key, k),
        LineFault::Value(k) => (Kind::LineValue, k),
    };
    refused(kind, line + k)
}

fn read_groups(sheet: &[u8]) -> Result<(), Refusal>
    requires { length sheet.now ≤ longest_sheet }
    ensures { told result ≡ groups_told sheet.now }
{
    let mut reached = order::start();
    let mut line = 1;
    let mut rest = Group::of(sheet);
    while rest.has_line() {
        let next = openings::next_group(reached, &rest);
        if let Err(fault) = groups::group(next, &rest) {
            return Err(unread(fault, line));
        }
        let n = groups::lines_in(next);
        line += n;
        rest = Group::of(rest.behind(n));
        reached = openings::past_group(reached, next);
    }
    if !order::may_end(reached) {
        return Err(refused(Kind::Key, line));
    }
    Ok(())
}

// 40 to 43 of a sheet; its message is not measured.
pub fn judge(sheet: &[u8]) -> Result<(), Refusal>
    ensures { told result ≡ judged_told sheet.now }
{
    readable(sheet)?;
    read_groups(sheet)
}
