// What follows a group of a sheet: where it leads, and the group to be read next.
#![tactic(auto)]

ghost use Rattle.std.specs.Prelude.{◌≡◌};
ghost use Rattle.rules.specs.Lists.{nth};
ghost use Rattle.rules.specs.Frame.{start, past};
ghost use Rattle.rules.specs.Sheet.{lines_of, past_group};
ghost use Rattle.order.specs.Order.{reached_of};
ghost use Rattle.openings.specs.Openings.{Between, Next};

use lines::{Group, keys};
use order::Reached;
use rules::Name;

// Where a group leads: an ORC has no lines.
pub fn past_group(a: Reached, name: Name) -> Reached
    ensures { reached_of result ≡ past_group (reached_of a) name }
{
    if name == Name::Obr {
        return order::past(order::past(a, Name::Obr), Name::Orc);
    }
    order::past(a, name)
}

// "After status comes item, order, specimen or the end".
fn behind_result(t: &[u8]) -> Name
    ensures { Next (past start Name.Obx) t.now result }
{
    if t.starts_with(&keys::ITEM) {
        return Name::Obx;
    }
    if t.starts_with(&keys::ORDER) {
        return Name::Obr;
    }
    Name::Spm
}

// The group to be read next.
pub fn next_group(a: Reached, rest: &Group) -> Name
    requires { Between (reached_of a) }
    ensures { Next (reached_of a) (nth (lines_of rest.now) 0) result }
{
    match a.last {
        Name::Other => Name::Msh,
        Name::Msh => Name::Pid,
        Name::Pid => Name::Pv1,
        Name::Pv1 => Name::Spm,
        Name::Spm => Name::Obr,
        Name::Obr | Name::Orc => Name::Obx,
        Name::Obx => behind_result(rest.line_at(0)),
    }
}
