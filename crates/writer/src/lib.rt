// Writing into a lent buffer: bytes, numbers and escaped texts, each over the front of what remains of it, and the rest stays.
#![tactic(auto)]

ghost use Rattle.std.specs.Prelude.{◌≡◌, ◌+◌, ◌*◌, ◌≤◌, length, drop, MatchOption};
ghost use Rattle.std.proofs.Math.Option.{none, some};
ghost use Rattle.rules.specs.Escape.{letters, letter_for, escape};
ghost use Rattle.rules.specs.Lists.{decimal};
ghost use Rattle.rules.specs.Proper.{Proper};
ghost use Rattle.writer.specs.Over.{Wrote, Put, Fit};
ghost use Rattle.writer.specs.Woven.{delimiter_of, taken, slot_text, first_text, woven, holes, sizes};
ghost use Rattle.writer.specs.Escaping.{unit_of};

use rules::Delims;

// Copies bytes to the front of the lent tail. (Byte by byte: the library's copy_from_slice is a memmove, and the archive for C asks for memcpy and memset alone.)
pub fn put(out: &mut [u8], bytes: &[u8]) -> usize
    requires { length bytes.now ≤ length out.old }
    ensures { Wrote result out.new bytes.now out.old }
{
    for i in 0..bytes.len() {
        out[i] = bytes[i];
    }
    bytes.len()
}

// The same at a place: lends the tail.
#[tactic(auto, using(crate::proofs::Laws::back))]
pub fn put_at(out: &mut [u8], at: usize, bytes: &[u8]) -> usize
    requires { at + length bytes.now ≤ length out.old }
    ensures { Put at out.old bytes.now result out.new }
{
    let n = put(&mut out[at..], bytes);
    at + n
}

// A number in decimal. (Written out: what prints a number for Display goes to a writer that may fail, and this can't.)
pub fn put_number(out: &mut [u8], n: usize) -> usize
    requires { length (decimal n) ≤ length out.old }
    ensures { Wrote result out.new (decimal n) out.old }
{
    if n < 10 {
        return put_at(out, 0, &[(48 + n) as u8]);
    }
    let k = put_number(out, n / 10);
    put_at(out, k, &[(48 + n % 10) as u8])
}

#[tactic(auto, using(crate::proofs::Laws::back))]
pub fn put_number_at(out: &mut [u8], at: usize, n: usize) -> usize
    requires { at + length (decimal n) ≤ length out.old }
    ensures { Put at out.old (decimal n) result out.new }
{
    at + put_number(&mut out[at..], n)
}

// ---- escaped text: what is written has a measure beside it, since a write that counts as well would test the room at each byte

// The letter that stands for a delimiter; another byte has none.
#[tactic(auto, using(crate::proofs::Escapes::letter_laws))]
fn letter_for(b: u8, d: Delims) -> Option<u8>
    ensures { MatchOption result (letter_for (letters d) b ≡ none) (λ l. letter_for (letters d) b ≡ some l) }
{
    if b == d.field {
        Some(b'F')
    } else if b == d.component {
        Some(b'S')
    } else if b == d.sub {
        Some(b'T')
    } else if b == d.repetition {
        Some(b'R')
    } else if b == d.escape {
        Some(b'E')
    } else {
        None
    }
}

// A byte of one-byte mode, escaped where it is a delimiter.
#[tactic(auto, using(crate::proofs::Escapes::unit_plain, crate::proofs::Escapes::unit_escaped))]
fn put_unit(out: &mut [u8], at: usize, b: u8, d: Delims) -> usize
    requires { at + length (unit_of d b) ≤ length out.old }
    ensures { Put at out.old (unit_of d b) result out.new }
{
    match letter_for(b, d) {
        Some(l) => put_at(out, at, &[d.escape, l, d.escape]),
        None => put_at(out, at, &[b]),
    }
}

// How many bytes it takes.
#[tactic(auto, using(crate::proofs::Escapes::len_plain, crate::proofs::Escapes::len_escaped))]
fn unit_len(b: u8, d: Delims) -> usize
    ensures { (result ≡ length (unit_of d b)) × (result ≤ 3) }
{
    match letter_for(b, d) {
        Some(_) => 3,
        None => 1,
    }
}

// How many bytes a text takes, escaped.
fn escaped_len(text: &[u8], d: Delims) -> usize
    requires { (length text.now ≤ 1000000) × Proper d }
    ensures value { result ≡ length (escape d text.now) }
    ensures within { result ≤ 3 * length text.now }
{
    let mut n: usize = 0;
    let mut i = 0;
    // A step is one byte, or a byte and the two-byte units behind it: no `for` goes so.
    while i < text.len() {
        let b = text[i];
        // A letter or digit is no delimiter and stands for itself.
        if scan::simple(b) {
            n += 1;
            i += 1;
            continue;
        }
        let next = scan::next_byte(text, i, 0x0D);
        let to = next.at;
        n += unit_len(b, d) + (to - (i + 1));
        i = to;
    }
    n
}

// A text, with the delimiters of its one-byte stretches escaped; what stands between two bytes of one-byte mode is copied as it is.
fn put_escaped(out: &mut [u8], text: &[u8], d: Delims) -> usize
    requires { (length (escape d text.now) ≤ length out.old) × Proper d }
    ensures { Wrote result out.new (escape d text.now) out.old }
{
    let mut at = 0;
    let mut i = 0;
    // A step as in `escaped_len`.
    while i < text.len() {
        let b = text[i];
        // A letter or digit is no delimiter and stands for itself.
        if scan::simple(b) {
            out[at] = b;
            at += 1;
            i += 1;
            continue;
        }
        let next = scan::next_byte(text, i, 0x0D);
        let to = next.at;
        let after = i + 1;
        at = put_unit(out, at, b, d);
        at = put_at(out, at, &text[after..to]);
        i = to;
    }
    at
}

#[tactic(auto, using(crate::proofs::Laws::back))]
fn put_escaped_at(out: &mut [u8], at: usize, text: &[u8], d: Delims) -> usize
    requires { (at + length (escape d text.now) ≤ length out.old) × Proper d }
    ensures { Put at out.old (escape d text.now) result out.new }
{
    at + put_escaped(&mut out[at..], text, d)
}

// ---- a segment by its pattern

// The delimiter that a byte of a pattern stands for, or the byte itself.
#[tactic(auto, using(std::proofs::lemmas::Bool::Decides::nat_tests), unfolding(crate::specs::Woven::delimiter_of))]
fn delimiter(slot: u8, d: Delims) -> u8
    ensures { result ≡ delimiter_of d slot }
{
    match slot {
        b'|' => d.field,
        b'^' => d.component,
        b'~' => d.repetition,
        b'\\' => d.escape,
        b'&' => d.sub,
        _ => slot,
    }
}

// How many texts it takes.
#[tactic(auto, using(std::proofs::lemmas::Bool::Decides::nat_tests), unfolding(crate::specs::Woven::taken))]
fn texts_for(slot: u8) -> usize
    ensures { (result ≡ taken slot) × (result ≤ 1) }
{
    match slot {
        b'$' | b'#' => 1,
        _ => 0,
    }
}

// What stands for it in the segment, and how many bytes that is.
#[tactic(auto, using(crate::proofs::Weaving::slot_laws))]
fn put_slot(out: &mut [u8], at: usize, slot: u8, texts: &[&[u8]], next: usize, d: Delims) -> usize
    requires { (next + taken slot ≤ length texts.now) × (at + length (slot_text d slot (first_text (drop next texts.now))) ≤ length out.old) × Proper d }
    ensures { Put at out.old (slot_text d slot (first_text (drop next texts.now))) result out.new }
{
    match slot {
        b'$' => put_escaped_at(out, at, texts[next], d),
        b'#' => put_at(out, at, texts[next]),
        _ => put_at(out, at, &[delimiter(slot, d)]),
    }
}

#[tactic(auto, using(crate::proofs::Weaving::slot_laws))]
fn slot_len(slot: u8, texts: &[&[u8]], next: usize, d: Delims) -> usize
    requires { (next + taken slot ≤ length texts.now) × (sizes texts.now ≤ 1000000) × Proper d }
    ensures { result ≡ length (slot_text d slot (first_text (drop next texts.now))) }
{
    match slot {
        b'$' => escaped_len(texts[next], d),
        b'#' => texts[next].len(),
        _ => 1,
    }
}

// The whole pattern.
fn put_woven(out: &mut [u8], pattern: &[u8], texts: &[&[u8]], d: Delims) -> usize
    requires { (holes pattern.now ≤ length texts.now) × (length (woven d pattern.now texts.now) ≤ length out.old) × Proper d }
    ensures { Wrote result out.new (woven d pattern.now texts.now) out.old }
{
    let mut at = 0;
    let mut next = 0;
    for slot in pattern {
        at = put_slot(out, at, *slot, texts, next, d);
        next += texts_for(*slot);
    }
    at
}

fn woven_len(pattern: &[u8], texts: &[&[u8]], d: Delims) -> usize
    requires { (holes pattern.now ≤ length texts.now) × (sizes texts.now ≤ 1000000) × (length pattern.now ≤ 100) × Proper d }
    ensures { result ≡ length (woven d pattern.now texts.now) }
{
    let mut n: usize = 0;
    let mut next = 0;
    for slot in pattern {
        n += slot_len(*slot, texts, next, d);
        next += texts_for(*slot);
    }
    n
}

// How long some texts are together.
fn sizes_of(texts: &[&[u8]]) -> usize
    requires { sizes texts.now ≤ 1000000 }
    ensures { result ≡ sizes texts.now }
{
    texts.iter().map(|t| t.len()).sum()
}

// Writes it where the lent tail has room, and answers its length in either case. No byte takes more than three, so it is measured only where
// the tail could be too short.
pub fn fit_woven(out: &mut [u8], pattern: &[u8], texts: &[&[u8]], d: Delims) -> usize
    requires { (holes pattern.now ≤ length texts.now) × (sizes texts.now ≤ 1000000) × (length pattern.now ≤ 100) × Proper d }
    ensures fit { Fit result out.new (woven d pattern.now texts.now) out.old }
    ensures within { result ≤ 300000000 }
{
    if 3 * sizes_of(texts) + pattern.len() <= out.len() {
        return put_woven(out, pattern, texts, d);
    }
    let n = woven_len(pattern, texts, d);
    if out.len() < n {
        return n;
    }
    put_woven(out, pattern, texts, d)
}
