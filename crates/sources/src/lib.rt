// Where the lines of a segment take their values from: its fields and components, found in one walk. Each routine goes on from what is left of the
// segment, a part that starts in the middle.
#![tactic(auto, using(crate::proofs::Laws::walking))]

ghost use Rattle.std.specs.Prelude.{◌≡◌, ◌≤◌, length};
ghost use Rattle.rules.specs.Shift.{met};
ghost use Rattle.rules.specs.Proper.{Delim, Proper};
ghost use Rattle.plain_bytes.specs.Bytes.{until, is_byte};
ghost use Rattle.scan.specs.Scan as Scan;
ghost use Rattle.scan.specs.Scan.{ends, next};
ghost use Rattle.sources.specs.Sources.{Leads};

use rules::Delims;

// A part of a segment, which has at most 4,096 bytes.
#[derive(Clone, Copy)]
pub struct Part<'a> {
    pub text: &'a [u8],
    ghost short: { length text.now ≤ 4096 },
}

impl<'a> Part<'a> {
    // What follows the n-th separator from here.
    pub fn onward(self, sep: u8, n: usize) -> Part<'a>
        requires { Delim sep }
        ensures result_value { met result.text.now ≡ Scan.onward sep n (met self.entry.text.now) }
        ensures within { length result.text.now ≤ length self.entry.text.now }
    {
        Part {
            text: scan::skip(self.text, sep, n),
        }
    }

    // What follows the k-th field separator from here, where what is read already, which begins here, holds none and is passed over.
    pub fn field_behind(self, read: Part<'a>, d: Delims, k: usize) -> Part<'a>
        requires { Proper d × Leads d (length read.text.now) self.text.now × (1 ≤ k) }
        ensures result_value { met result.text.now ≡ Scan.onward d.field k (met self.entry.text.now) }
        ensures within { length result.text.now ≤ length self.entry.text.now }
    {
        Part {
            text: scan::skip(&self.text[read.text.len()..], d.field, k),
        }
    }

    // The component here.
    pub fn component(self, d: Delims) -> Part<'a>
        requires { Proper d }
        ensures result_value { met result.text.now ≡ until (ends d) (met self.entry.text.now) }
        ensures within { length result.text.now ≤ length self.entry.text.now }
        ensures leads { Leads d (length result.text.now) self.entry.text.now }
    {
        let c = scan::first(self.text, d);
        Part {
            text: &self.text[..c.len],
        }
    }

    // From the next component on, where the one here is read already.
    pub fn next_component(self, read: Part<'a>, d: Delims) -> Part<'a>
        requires { (met read.text.now ≡ until (ends d) (met self.text.now)) × Proper d }
        ensures result_value { met result.text.now ≡ next d (met self.entry.text.now) }
        ensures within { length result.text.now ≤ length self.entry.text.now }
    {
        Part {
            text: scan::behind(self.text, read.text.len(), d),
        }
    }

    // The piece before the next separator.
    pub fn piece(self, sep: u8) -> Part<'a>
        ensures result_value { met result.text.now ≡ until (is_byte sep) (met self.entry.text.now) }
        ensures within { length result.text.now ≤ length self.entry.text.now }
    {
        let n = scan::find(self.text, 0x0D, sep);
        Part {
            text: &self.text[..n],
        }
    }
}
