// The known names of segments: "MSH PID PV1 SPM OBR ORC OBX".
#![tactic(auto, using(crate::proofs::Laws::known))]

ghost use Rattle.std.specs.Prelude.{◌≡◌, ◌≤◌, length};
ghost use Rattle.rules.specs.Told.{◌when◌};
ghost use Rattle.rules.specs.Lists.{starts};
ghost use Rattle.rules.specs.Frame.{name_of, rank, is};

use rules::Name;

// Whether a segment starts with a name.
pub fn named(s: &[u8], name: &[u8]) -> bool
    requires { (3 ≤ length s.now) × (length name.now ≡ 3) }
    ensures { result ≡ starts name.now s.now }
{
    s.starts_with(name)
}

// The name of a segment, `Other` where it is none of the known ones.
pub fn name_of(s: &[u8]) -> Name
    ensures { result ≡ name_of s.now }
{
    match s {
        [a, b, c, ..] => match [*a, *b, *c] {
            rules::MSH => Name::Msh,
            rules::PID => Name::Pid,
            rules::PV1 => Name::Pv1,
            rules::SPM => Name::Spm,
            rules::OBR => Name::Obr,
            rules::ORC => Name::Orc,
            rules::OBX => Name::Obx,
            _ => Name::Other,
        },
        _ => Name::Other,
    }
}

// Whether both names are the same.
pub fn is(a: Name, b: Name) -> bool
    ensures { result ≡ is a b }
{
    a == b
}

// 1 where both names are the same, 0 elsewhere.
pub fn hit(a: Name, b: Name) -> usize
    ensures value { result ≡ (1 when is a b) }
    ensures small { result ≤ 1 }
{
    usize::from(a == b)
}
