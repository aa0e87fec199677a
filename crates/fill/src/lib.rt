// The lines of a sheet, written as far as the lent buffer reaches. Each routine goes as far as its text is long, whatever the room: lent nothing, it
// measures.
#![tactic(auto)]

ghost use Rattle.std.specs.Prelude.{◌≡◌, [], ◌∷◌, ◌++◌, ◌+◌, ◌≤◌, ◌<◌, length};
ghost use Rattle.rules.specs.Shift.{met};
ghost use Rattle.rules.specs.Proper.{Proper};
ghost use Rattle.rules.specs.Judge.{plain_of};
ghost use Rattle.fill.specs.Fill.{Filled, FilledAt, Near, keyed};

use rules::Delims;
use sources::Part;

// Bytes as they are.
#[tactic(auto, using(crate::proofs::Laws::prefix_room, crate::proofs::Laws::put_fills))]
fn put(out: &mut [u8], bytes: &[u8]) -> usize
    ensures { Filled result out.new bytes.now out.old }
{
    let n = bytes.len().min(out.len());
    writer::put(out, &bytes[..n]);
    bytes.len()
}

// A component of a segment without its escapes; nothing where it has a bad one.
pub fn text(out: &mut [u8], raw: Part<'_>, d: Delims) -> usize
    requires { Proper d }
    ensures filled { Filled result out.new (plain_of d (met raw.entry.text.now)) out.old }
    ensures within { result ≤ length raw.entry.text.now }
{
    let c = scan::first(raw.text, d);
    if c.clean & (c.len == raw.text.len()) {
        return put(out, raw.text);
    }
    let mut buf = [0u8; 4096];
    match unescape::unescape_into(raw.text, d, &mut buf) {
        Ok(n) => put(out, &buf[..n]),
        Err(_) => 0,
    }
}

// Lines as they are written: over what is lent, as far as it reaches. The next line begins at `at`.
#[derive(Drop)]
pub struct Lines<'a> {
    pub out: &'a mut [u8],
    pub at: usize,
    pub delims: Delims,
    ghost proper: { Proper delims },
}

impl<'a> Lines<'a> {
    ghost use Rattle.fill.specs.Lines.{Same, Continued};

    // Bytes as they are, behind those that stand already.
    #[tactic(auto, using(crate::proofs::Laws::back))]
    fn put(&mut self, bytes: &[u8])
        requires { self.old.at + length bytes.now < 18446744073709551616 }
        ensures same { Same self.old self.new }
        ensures filled { FilledAt self.old.at self.old.out.now bytes.now self.new.at self.new.out.now }
    {
        let from = self.at.min(self.out.len());
        self.at += put(&mut self.out[from..], bytes);
    }

    // A component without its escapes.
    #[tactic(auto, using(crate::proofs::Laws::back))]
    fn text(&mut self, raw: Part<'_>)
        requires { self.old.at + length raw.text.now < 18446744073709551616 }
        ensures same { Same self.old self.new }
        ensures filled { FilledAt self.old.at self.old.out.now (plain_of self.old.delims (met raw.entry.text.now)) self.new.at self.new.out.now }
        ensures within { self.new.at ≤ self.old.at + length raw.entry.text.now }
    {
        let from = self.at.min(self.out.len());
        self.at += text(&mut self.out[from..], raw, self.delims);
    }

    // A line: its key with `=`, its value, 0A.
    pub fn line(&mut self, key: &[u8], raw: Part<'_>)
        requires { (length key.now ≤ 16) × Near 1 self.old.at }
        ensures { Continued 1 self.old self.new (λ d. keyed d key.now (met raw.entry.text.now) ∷ []) }
    {
        self.put(key);
        self.text(raw);
        self.put(b"\n");
    }

    // A line whose value is written as it is.
    pub fn line_as_is(&mut self, key: &[u8], value: &[u8])
        requires { (length key.now ≤ 16) × (length value.now ≤ 4096) × Near 1 self.old.at }
        ensures { Continued 1 self.old self.new (λ d. (key.now ++ value.now) ∷ []) }
    {
        self.put(key);
        self.put(value);
        self.put(b"\n");
    }

    // A line whose value is blank.
    pub fn blank_line(&mut self, key: &[u8])
        requires { (length key.now ≤ 16) × Near 1 self.old.at }
        ensures { Continued 1 self.old self.new (λ d. key.now ∷ []) }
    {
        self.line_as_is(key, b"");
    }
}
