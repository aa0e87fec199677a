// The keys of a row (Req 01): cut, looked up and compared as their bytes lie in the file; nothing is copied.
#![tactic(auto)]

ghost use Rattle.std.specs.Prelude.{◌≡◌, true, false, ◌&&◌, [], ◌+◌, ◌-◌, ◌≤◌, ◌<◌, length, MatchOption};
ghost use Rattle.rules.specs.declared.Name.TheVariants.{Pid, Pv1, Spm, Obr};
ghost use Rattle.rules.specs.Lists.{nth, same, all};
ghost use Rattle.rules.specs.Shift.{within};
ghost use Rattle.csv_rules.specs.Written.{halved};
ghost use Rattle.csv_rules.specs.Columns.{family_of, given_of, fifteen_of, type_of, number_of};
ghost use Rattle.csv_rules.specs.Columns as Columns;
ghost use Rattle.csv_rules.specs.Raw.{raw_by, raw_agree};
ghost use Rattle.csv_rows.specs.Rows.{raw_items, items_of};
ghost use Rattle.csv_keys.specs.Keys.{how_of, raw_value, KeyIs};
ghost use Rattle.csv_keys.specs.Ways.{blank_at, meaning_in, is_plain, by_column, NextOrBlank, FirstIs};

use csv_rows::RowItems;
use value::Rule;

// How a column's text becomes a value, as the table of columns has it.
#[derive(Clone, Copy)]
pub enum How {
    Text,
    UpToBlank,
    PastBlank,
    Fifteen,
    Sex,
    Class,
    Form,
    ValueType, // of the value in column 35, where the column is its form
}

// A key's value before it is converted: at most fifteen bytes that don't stand in the file, then an item or a part of one as it lies there, quotes doubled.
#[derive(Clone, Copy)]
pub struct RawKey<'a> {
    pub lead: &'a [u8],
    pub raw: &'a [u8],
}

// An item, or a part of one, as it lies in the file.
fn as_is<'a>(raw: &'a [u8]) -> RawKey<'a>
    ensures { KeyIs raw.now (halved false raw.now) result.lead.now result.raw.now }
{
    RawKey { lead: b"", raw }
}

// A word in place of an item, of which nothing is left.
fn in_place<'a>(word: &'a [u8]) -> RawKey<'a>
    requires few { length word.now ≤ 15 }
    requires plain { all (λ b. within 0x20 0x7E b) word.now ≡ true }
    ensures { KeyIs [] word.now result.lead.now result.raw.now }
{
    RawKey {
        lead: word,
        raw: b"",
    }
}

// ---- names

// The place behind a byte of an item as it lies in the file, and behind the second of two quotes.
fn past_byte(raw: &[u8], i: usize) -> usize
    requires { i < length raw.now }
    ensures { NextOrBlank raw.now i result }
{
    let j = i + 1;
    if j >= raw.len() {
        return j;
    }
    if raw[i] == 0x22 {
        return i + 2;
    }
    j
}

// The place of an item's first blank; its end where it has none.
fn blank_at(raw: &[u8]) -> usize
    ensures value { result ≡ blank_at false raw.now }
    ensures within { result ≤ length raw.now }
{
    let mut i = 0;
    // no `for`: over a doubled quote the step is two
    while i < raw.len() {
        if raw[i] == 0x20 {
            return i;
        }
        i = past_byte(raw, i);
    }
    i
}

// PID-5: the family name stands before the first blank.
fn family<'a>(raw: &'a [u8]) -> RawKey<'a>
    ensures { KeyIs raw.now (family_of (halved false raw.now)) result.lead.now result.raw.now }
{
    let at = blank_at(raw);
    as_is(&raw[..at])
}

// The given name stands behind it.
fn given<'a>(raw: &'a [u8]) -> RawKey<'a>
    ensures { KeyIs raw.now (given_of (halved false raw.now)) result.lead.now result.raw.now }
{
    let at = blank_at(raw);
    if at >= raw.len() {
        return as_is(b"");
    }
    let behind = at + 1;
    as_is(&raw[behind..])
}

// ---- order numbers

const ZEROS: [u8; 15] = [b'0'; 15];

// OBR-2: "15 digits, leading zeros"; what isn't 1 to 15 digits stays.
fn fifteen<'a>(raw: &'a [u8]) -> RawKey<'a>
    ensures { KeyIs raw.now (fifteen_of (halved false raw.now)) result.lead.now result.raw.now }
{
    let len = raw.len();
    if (len == 0) | (15 < len) {
        return as_is(raw);
    }
    if !plain_bytes::all_digits(raw) {
        return as_is(raw);
    }
    let end = 15 - len;
    RawKey {
        lead: &ZEROS[..end],
        raw,
    }
}

// ---- codes

// PID-8, table 2; PV1-2, table 6; SN, component 1, table 10: each code and its meaning.
const SEXES: [(&[u8], &[u8]); 3] = [(b"1", b"M"), (b"2", b"F"), (b"3", b"O")];

const CLASSES: [(&[u8], &[u8]); 2] = [(b"1", b"I"), (b"2", b"O")];

const FORMS: [(&[u8], &[u8]); 5] = [
    (b"U", b">="),
    (b"E", b"<="),
    (b"L", b"<"),
    (b"O", b">"),
    (b"B", b""),
];

// What an item means by a table of codes; what is no code stays.
fn coded<'a>(raw: &'a [u8], codes: &[(&[u8], &'a [u8])]) -> RawKey<'a>
    requires { all is_plain codes.now ≡ true }
    ensures { KeyIs raw.now (meaning_in codes.now (halved false raw.now)) result.lead.now result.raw.now }
{
    for (code, meaning) in codes {
        if plain_bytes::equal(raw, code) {
            return in_place(meaning);
        }
    }
    as_is(raw)
}

// OBX-2: a form other than B makes SN; without one a number is NM, any other value ST. (A text with a quote is no number, doubled or not.)
fn value_type<'a>(row: &RowItems, form: &[u8]) -> RawKey<'a>
    ensures { KeyIs form.now (type_of (nth (items_of row.now) 34) (halved false form.now)) result.lead.now result.raw.now }
{
    if (form.len() != 0) & !plain_bytes::equal(form, b"B") {
        return in_place(b"SN");
    }
    let number = row.item(34);
    if value::fault_of(true, Rule::Number, number).is_ok() {
        return in_place(b"NM");
    }
    in_place(b"ST")
}

// The key that a column feeds. (Its way stands beside its number, as in the table of columns: a pair of them would only lengthen each call.)
pub fn key<'a>(row: &RowItems<'a>, how: How, column: usize) -> RawKey<'a>
    requires { (1 ≤ column) × (column ≤ 45) }
    ensures { KeyIs (nth (raw_items row.now) (column - 1)) (raw_by (how_of how) (items_of row.now) column) result.lead.now result.raw.now }
{
    let raw = row.item(column - 1);
    match how {
        How::Text => as_is(raw),
        How::UpToBlank => family(raw),
        How::PastBlank => given(raw),
        How::Fifteen => fifteen(raw),
        How::Sex => coded(raw, &SEXES),
        How::Class => coded(raw, &CLASSES),
        How::Form => coded(raw, &FORMS),
        How::ValueType => value_type(row, raw),
    }
}

// ---- comparing

// The first byte of a key, and what is left of the key.
#[derive(Clone, Copy)]
struct First<'a> {
    byte: u8,
    rest: RawKey<'a>,
}

// None of a key without bytes.
fn split_first<'a>(key: &RawKey<'a>) -> Option<First<'a>>
    ensures { MatchOption result (raw_value key.now.lead.now key.now.raw.now ≡ []) (λ r. FirstIs key.now.lead.now key.now.raw.now r.byte r.rest.lead.now r.rest.raw.now) }
{
    let lead = key.lead;
    let raw = key.raw;
    if lead.len() > 0 {
        return Some(First {
            byte: lead[0],
            rest: RawKey {
                lead: &lead[1..],
                raw,
            },
        });
    }
    if raw.len() == 0 {
        return None;
    }
    let next = past_byte(raw, 0);
    Some(First {
        byte: raw[0],
        rest: RawKey {
            lead,
            raw: &raw[next..],
        },
    })
}

// Whether two keys have the same raw value.
fn same_key(a: RawKey, b: RawKey) -> bool
    ensures { result ≡ same (raw_value a.entry.lead.now a.entry.raw.now) (raw_value b.entry.lead.now b.entry.raw.now) }
{
    let mut x = a;
    let mut y = b;
    while let Some(p) = split_first(&x) {
        let Some(q) = split_first(&y) else {
            return false;
        };
        if p.byte != q.byte {
            return false;
        }
        x = p.rest;
        y = q.rest;
    }
    split_first(&y).is_none()
}

// Whether two rows agree in a key that its column alone feeds. Items that are the same byte for byte give the same key.
fn same_at(a: &RowItems, b: &RowItems, how: How, column: usize) -> bool
    requires { (1 ≤ column) × (column ≤ 45) × (by_column how ≡ true) }
    ensures { result ≡ same (raw_by (how_of how) (items_of a.now) column) (raw_by (how_of how) (items_of b.now) column) }
{
    let n = column - 1;
    if plain_bytes::equal(a.item(n), b.item(n)) {
        return true;
    }
    same_key(key(a, how, column), key(b, how, column))
}

// Whether two rows agree in the halves of a name.
fn same_name(a: &RowItems, b: &RowItems, column: usize) -> bool
    requires { (1 ≤ column) × (column ≤ 45) }
    ensures { result ≡ (same (raw_by Columns.up_to_blank (items_of a.now) column) (raw_by Columns.up_to_blank (items_of b.now) column) && same (raw_by Columns.past_blank (items_of a.now) column) (raw_by Columns.past_blank (items_of b.now) column)) }
{
    same_at(a, b, How::UpToBlank, column) & same_at(a, b, How::PastBlank, column)
}

// Whether two rows agree in the patient keys.
fn same_patient(a: &RowItems, b: &RowItems) -> bool
    ensures { result ≡ raw_agree Pid (items_of a.now) (items_of b.now) }
{
    same_at(a, b, How::Text, 8)
        & same_name(a, b, 9)
        & same_name(a, b, 10)
        & same_at(a, b, How::Text, 11)
        & same_at(a, b, How::Sex, 12)
}

// Whether the numbers of two rows are the same: column 7 as it stands.
pub fn same_number(a: &RowItems, b: &RowItems) -> bool
    ensures { result ≡ same (number_of (items_of a.now)) (number_of (items_of b.now)) }
{
    same_at(a, b, How::Text, 7)
}

// Whether two rows agree in the header keys.
pub fn same_header(a: &RowItems, b: &RowItems) -> bool
    ensures { result ≡ (raw_agree Pid (items_of a.now) (items_of b.now) && raw_agree Pv1 (items_of a.now) (items_of b.now)) }
{
    same_patient(a, b) & same_at(a, b, How::Class, 21)
}

// In the specimen keys; in the order keys.
pub fn same_specimen(a: &RowItems, b: &RowItems) -> bool
    ensures { result ≡ raw_agree Spm (items_of a.now) (items_of b.now) }
{
    same_at(a, b, How::Text, 25) & same_at(a, b, How::Text, 24)
}

pub fn same_order(a: &RowItems, b: &RowItems) -> bool
    ensures { result ≡ raw_agree Obr (items_of a.now) (items_of b.now) }
{
    same_at(a, b, How::Fifteen, 20) & same_at(a, b, How::Text, 30)
}
