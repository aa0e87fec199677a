// "MSH PID PV1, then one or more specimens: SPM and one or more orders: OBR ORC and one or more OBX."
#![tactic(auto, using(crate::proofs::Laws::follows), unfolding(rules::specs::Frame::past, rules::specs::Frame::may_end))]

ghost use Rattle.std.specs.Prelude.{◌≡◌};
ghost use Rattle.rules.specs.Frame.{start, past, may_follow, may_end};
ghost use Rattle.order.specs.Order.{reached_of};

use rules::Name;

// Where some names have led: the last of them, `Other` at the start.
#[derive(Clone, Copy)]
pub struct Reached {
    pub last: Name,
}

pub fn start() -> Reached
    ensures { reached_of result ≡ start }
{
    Reached { last: Name::Other }
}

// Past one name more.
pub fn past(a: Reached, b: Name) -> Reached
    ensures { reached_of result ≡ past (reached_of a) b }
{
    Reached { last: b }
}

// Whether a name may stand next.
pub fn may_follow(a: Reached, b: Name) -> bool
    ensures { result ≡ may_follow (reached_of a) b }
{
    match a.last {
        Name::Other => b == Name::Msh,
        Name::Msh => b == Name::Pid,
        Name::Pid => b == Name::Pv1,
        Name::Pv1 => b == Name::Spm,
        Name::Spm => b == Name::Obr,
        Name::Obr => b == Name::Orc,
        Name::Orc => b == Name::Obx,
        Name::Obx => (b == Name::Obx) | (b == Name::Obr) | (b == Name::Spm),
    }
}

// Whether the end may stand next.
pub fn may_end(a: Reached) -> bool
    ensures { result ≡ may_end (reached_of a) }
{
    a.last == Name::Obx
}
