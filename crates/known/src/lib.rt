// Which known segment an ordinal is.
#![tactic(auto)]

ghost use Rattle.rules.specs.Promises.{SegmentFound};

use frame::segments::Segments;
use rules::{KnownSegment, Name};

// "Ordinals count known segments only, from 1." It takes any bytes.
pub fn known_segment(m: &[u8], ordinal: usize) -> Option<KnownSegment>
    ensures { SegmentFound m.now ordinal result }
{
    if ordinal == 0 {
        return None;
    }
    let mut left = ordinal - 1;
    let mut at = 0;
    for s in (Segments { rest: m }) {
        let name = names::name_of(s);
        if name != Name::Other {
            if left == 0 {
                return Some(KnownSegment {
                    name,
                    start: at,
                    len: s.len(),
                });
            }
            left -= 1;
        }
        at += s.len() + 1;
    }
    None
}
