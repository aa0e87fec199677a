// 11. "The first nine bytes are `MSH`, five different delimiters and the first of these again."
#![tactic(auto, unfolding(rules::specs::Frame::delims_of))]

ghost use Rattle.std.specs.Prelude.{◌≡◌, ◌≤◌, length};
ghost use Rattle.rules.specs.Lists.{distinct};
ghost use Rattle.rules.specs.Frame.{delims_of, delims_ok, five_of, header_ok};

use rules::Delims;

// "Each is one of `! # % & * ; ? @ \ ^ | ~`."
const DELIMITERS: [u8; 12] = *b"!#%&*;?@\\^|~";

pub fn is_header(m: &[u8]) -> bool
    ensures { result ≡ header_ok m.now }
{
    if m.len() < 9 {
        return false;
    }
    let d = delims(m);
    names::named(m, &rules::MSH) & delims_ok(d) & (m[8] == d.field)
}

// "In order they are field, component, repetition, escape, subcomponent."
pub fn delims(m: &[u8]) -> Delims
    requires { 9 ≤ length m.now }
    ensures { result ≡ delims_of m.now }
{
    Delims {
        field: m[3],
        component: m[4],
        repetition: m[5],
        escape: m[6],
        sub: m[7],
    }
}

// "five different delimiters"
fn delims_ok(d: Delims) -> bool
    ensures { result ≡ delims_ok d }
{
    DELIMITERS.contains(&d.field)
        & DELIMITERS.contains(&d.component)
        & DELIMITERS.contains(&d.repetition)
        & DELIMITERS.contains(&d.escape)
        & DELIMITERS.contains(&d.sub)
        & different(d)
}

fn different(d: Delims) -> bool
    ensures { result ≡ distinct (five_of d) }
{
    (d.component != d.field)
        & (d.repetition != d.field)
        & (d.escape != d.field)
        & (d.sub != d.field)
        & (d.repetition != d.component)
        & (d.escape != d.component)
        & (d.sub != d.component)
        & (d.escape != d.repetition)
        & (d.sub != d.repetition)
        & (d.sub != d.escape)
}
