// The frame of a message: checks 10 to 15 in their order, its delimiters and its counts.
#![tactic(auto)]

ghost use Rattle.std.specs.Prelude.{◌≡◌};
ghost use Rattle.rules.specs.Told.{told};
ghost use Rattle.frame.specs.Frame.{most_bytes, frame_of, closing, Within, Sound};

use crate::all_segments::Seen;
use rules::{Counts, Delims, Kind, Refusal};

pub mod all_segments;
pub mod segments;

// What a message that passes 10 to 15 is read with, and what the check gives in the end.
#[derive(Clone, Copy)]
pub struct Opened {
    pub delims: Delims,
    pub counts: Counts,
}

// Checks 10 to 15.
#[tactic(auto, unfolding(crate::specs::Frame::frame_of, rules::specs::Check::frame_told))]
pub fn frame(m: &[u8]) -> Result<Opened, Refusal>
    ensures result_value { told result ≡ frame_of m.now }
    ensures sound { (o : Opened) → result ≡ Ok o → Sound m.now o.delims }
{
    if 32768 < m.len() {
        return Err(Kind::TooLong.into());
    }
    if !header::is_header(m) {
        return Err(Kind::Header.into());
    }
    if !scan::keeps(m, 0x0D) {
        return Err(Kind::Bytes.into());
    }
    let d = header::delims(m);
    let seen = all_segments::pass(m, d.field).ok_or(Kind::Segment)?;
    close(seen, d)
}

// 14 and 15, after the last segment.
#[tactic(auto, unfolding(crate::specs::Frame::closing))]
fn close(seen: Seen, d: Delims) -> Result<Opened, Refusal>
    requires { Within most_bytes seen }
    ensures { told result ≡ closing d seen }
{
    if 512 < seen.segments {
        return Err(Kind::TooMany.into());
    }
    let fine = order::may_end(seen.reached);
    match seen.fault.or((!fine).then_some(seen.known + 1)) {
        Some(at) => Err(Refusal {
            kind: Kind::Order,
            segment: at,
            field: 0,
        }),
        None => Ok(Opened {
            delims: d,
            counts: seen.counts,
        }),
    }
}
