// Shift_JIS (Req 01): whether an item of the commercial centre's file converts, and the item converted, from how it lies in the file, its quotes
// doubled.
#![tactic(auto, unfolding(csv_rules::specs::Kanji::first, csv_rules::specs::Kanji::second, crate::specs::Items::is_clear, crate::specs::Texts::pair_at))]

ghost use Rattle.std.specs.Prelude.{◌≡◌, false, cond, ltb, ◌-◌, ◌≤◌, ◌<◌, length};
ghost use Rattle.csv_rules.specs.Kanji as Kanji;
ghost use Rattle.csv_rules.specs.Kanji.{lead, trail, converted, good_character};
ghost use Rattle.csv_rules.specs.Written.{halved};
ghost use Rattle.reach.specs.Reach.{Adds};
ghost use Rattle.sjis.specs.Texts.{pair_text, one_text, end_text, pair_at, character_text};
ghost use Rattle.sjis.specs.Items.{NextAt, PastAt, char_at, is_clear};

// ---- one character

// A byte that stands alone and isn't doubled in the file.
pub fn clear(b: u8) -> bool
    ensures { result ≡ is_clear b }
{
    plain_bytes::is_plain(b) & (b != 0x22)
}

fn is_lead(b: u8) -> bool
    ensures { result ≡ lead b }
{
    plain_bytes::in_range(0x81, 0x9F, b) | plain_bytes::in_range(0xE0, 0xEF, b)
}

fn is_trail(b: u8) -> bool
    ensures { result ≡ trail b }
{
    plain_bytes::in_range(0x40, 0x7E, b) | plain_bytes::in_range(0x80, 0xFC, b)
}

// The lead less 71, or less B1 from E0 on.
fn lead_less(l: u8) -> u8
    ensures value { result ≡ l - cond (ltb l 0xE0) 0x71 0xB1 }
    ensures within { result < 0x6F }
{
    l.saturating_sub(if l < 0xE0 { 0x71 } else { 0xB1 })
}

// The first byte of a pair's image.
fn pair_first(l: u8, t: u8) -> u8
    ensures { result ≡ Kanji.first l t }
{
    2 * lead_less(l) + if t <= 0x9E { 1 } else { 2 }
}

// The second.
fn pair_second(t: u8) -> u8
    ensures { result ≡ Kanji.second t }
{
    match t {
        0..=0x7E => t.saturating_sub(0x1F),
        0x7F..=0x9E => t.saturating_sub(0x20),
        _ => t.saturating_sub(0x7E),
    }
}

// ---- an item, character by character
// The loops count an index: a step goes past a character, one byte to four, which no `for` over the bytes does.

// Whether a pair stands at a place: a lead byte, and any byte after it.
fn pair_at(raw: &[u8], i: usize) -> bool
    requires { i < length raw.now }
    ensures { result ≡ pair_at raw.now i }
{
    is_lead(raw[i]) && i + 1 < raw.len()
}

// The place behind a byte of the item, and behind the second of two quotes.
fn next_raw(raw: &[u8], i: usize) -> usize
    requires { i < length raw.now }
    ensures { NextAt raw.now i result }
{
    let j = i + 1;
    if j >= raw.len() {
        return j;
    }
    if raw[i] == 0x22 {
        return i + 2;
    }
    j
}

// The place behind a character of the item.
fn past_raw(raw: &[u8], i: usize) -> usize
    requires { i < length raw.now }
    ensures { PastAt raw.now i result }
{
    if pair_at(raw, i) {
        return next_raw(raw, i + 1);
    }
    next_raw(raw, i)
}

// Whether the character at a place can be converted.
fn good_at(raw: &[u8], i: usize) -> bool
    requires { i < length raw.now }
    ensures { result ≡ good_character (char_at raw.now i) }
{
    if pair_at(raw, i) {
        return is_trail(raw[i + 1]);
    }
    plain_bytes::is_plain(raw[i])
}

// 52 of an item.
pub fn convertible(raw: &[u8]) -> bool
    ensures { result ≡ Kanji.convertible (halved false raw.now) }
{
    let mut i = 0;
    while i < raw.len() {
        if clear(raw[i]) {
            i += 1;
            continue;
        }
        let n = past_raw(raw, i);
        if !good_at(raw, i) {
            return false;
        }
        i = n;
    }
    true
}

// ---- the item converted, as far as the buffer reaches

// A pair, in two-byte mode or one-byte mode.
fn put_pair(out: &mut [u8], at: usize, two: bool, l: u8, t: u8) -> usize
    requires { at ≤ length out.old }
    ensures { Adds at out.old (pair_text two l t) result out.new }
{
    let f = pair_first(l, t);
    let s = pair_second(t);
    if two {
        let k = reach::put_byte(out, at, f);
        return reach::put_byte(out, k, s);
    }
    reach::put(out, at, &[0x1B, 0x24, 0x42, f, s])
}

// A byte that stands alone.
fn put_one(out: &mut [u8], at: usize, two: bool, b: u8) -> usize
    requires { at ≤ length out.old }
    ensures { Adds at out.old (one_text two b) result out.new }
{
    if two {
        return reach::put(out, at, &[0x1B, 0x28, 0x42, b]);
    }
    reach::put_byte(out, at, b)
}

// The end of a text.
fn put_end(out: &mut [u8], at: usize, two: bool) -> usize
    requires { at ≤ length out.old }
    ensures { Adds at out.old (end_text two) result out.new }
{
    if two {
        return reach::put(out, at, &[0x1B, 0x28, 0x42]);
    }
    at
}

// The character at a place.
fn put_next(out: &mut [u8], at: usize, two: bool, raw: &[u8], i: usize) -> usize
    requires { (i < length raw.now) × (at ≤ length out.old) }
    ensures { Adds at out.old (character_text two raw.now i) result out.new }
{
    let b = raw[i];
    if pair_at(raw, i) {
        return put_pair(out, at, two, b, raw[i + 1]);
    }
    put_one(out, at, two, b)
}

// The whole item, from a place on.
pub fn put_converted(out: &mut [u8], at: usize, raw: &[u8]) -> usize
    requires { at ≤ length out.old }
    ensures { Adds at out.old (converted (halved false raw.now)) result out.new }
{
    let mut two = false;
    let mut k = at;
    let mut i = 0;
    while i < raw.len() {
        let b = raw[i];
        if !two & clear(b) {
            k = reach::put_byte(out, k, b);
            i += 1;
            continue;
        }
        k = put_next(out, k, two, raw, i);
        two = pair_at(raw, i);
        i = past_raw(raw, i);
    }
    put_end(out, k, two)
}
