// One pass over the segments: each is judged by itself, and counted by its name.
ghost use Rattle.std.specs.Prelude.{◌≡◌, ◌≤◌, length};
ghost use Rattle.frame.specs.Frame.{most_bytes, good_of, tallied, counted_of, nothing_seen, pass_from, Within};

use crate::segments::Segments;
use order::Reached;
use rules::{Counts, Name};

// What a pass has met so far.
#[derive(Clone, Copy)]
pub struct Seen {
    pub segments: usize, // of all names
    pub known: usize,
    pub reached: Reached, // by the known ones
    pub fault: Option<usize>, // the ordinal of the first known one out of order
    pub counts: Counts,
}

// 13. All segments in turn; none where one breaks the rule. The rest of the message after each is passed on.
pub fn pass(m: &[u8], field: u8) -> Option<Seen>
    requires { length m.now ≤ most_bytes }
    ensures value { result ≡ pass_from nothing_seen field m.now }
    ensures within { (v : Seen) → result ≡ Some v → Within most_bytes v }
{
    let mut seen = nothing_seen();
    let mut walk = Segments { rest: m };
    while let Some(s) = walk.next() {
        if !good(s, field) {
            return None;
        }
        seen = counted(seen, names::name_of(s));
    }
    if !walk.rest.is_empty() {
        return None;
    }
    Some(seen)
}

fn nothing_seen() -> Seen
    ensures { result ≡ nothing_seen }
{
    Seen {
        segments: 0,
        known: 0,
        reached: order::start(),
        fault: None,
        counts: Counts {
            spm: 0,
            obr: 0,
            obx: 0,
        },
    }
}

// 13, of one segment without its 0D.
#[tactic(auto, unfolding(rules::specs::Frame::name_ok))]
pub fn good(s: &[u8], field: u8) -> bool
    ensures { result ≡ good_of field s.now }
{
    if 4096 < s.len() {
        return false;
    }
    if s.len() < 3 {
        return false;
    }
    let name = plain_bytes::is_capital(s[0])
        & plain_bytes::is_capital_or_digit(s[1])
        & plain_bytes::is_capital_or_digit(s[2]);
    if s.len() == 3 {
        return name;
    }
    name & (s[3] == field)
}

// One segment more, of this name.
#[tactic(auto, unfolding(crate::specs::Frame::counted_of))]
fn counted(seen: Seen, name: Name) -> Seen
    requires { Within most_bytes seen }
    ensures { result ≡ counted_of seen name }
{
    let segments = seen.segments + 1;
    if name == Name::Other {
        return Seen { segments, ..seen };
    }
    let known = seen.known + 1;
    let fine = order::may_follow(seen.reached, name);
    Seen {
        segments,
        known,
        reached: order::past(seen.reached, name),
        fault: seen.fault.or((!fine).then_some(known)),
        counts: tally(seen.counts, name),
    }
}

// The counts with this name.
#[tactic(auto, unfolding(crate::specs::Frame::tallied))]
fn tally(c: Counts, name: Name) -> Counts
    requires { (c.spm ≤ most_bytes) × (c.obr ≤ most_bytes) × (c.obx ≤ most_bytes) }
    ensures { result ≡ tallied c name }
{
    let mut counts = c;
    match name {
        Name::Spm => counts.spm += 1,
        Name::Obr => counts.obr += 1,
        Name::Obx => counts.obx += 1,
        _ => {}
    }
    counts
}
