// A row of the commercial centre's file (Req 01): one walk from a place, where it ends and what its items are.
#![tactic(auto)]

ghost use Rattle.std.specs.Prelude.{◌≡◌, false, ◌||◌, ◌+◌, ◌≤◌, ◌<◌, length, get_or, drop, [], replicate, MatchOption, IfSome};
ghost use Rattle.rules.specs.Lists.{nth};
ghost use Rattle.csv_rules.specs.Kanji.{convertible};
ghost use Rattle.csv_rules.specs.Written.{halved};
ghost use Rattle.csv_rules.specs.Quote.{Comma, Quote, broken, lines_at, cut};
ghost use Rattle.csv_rows.specs.Plain.{plain_at, comma_at, PlainItem};
ghost use Rattle.csv_rows.specs.Rows.{closing_at, quote_first, raw_of, raw_items, noted, BehindAt, ItemAt, RowIs};

// What stands behind an item's closing quote: its bytes, a comma's too; whether another item follows.
#[derive(Clone, Copy)]
struct Behind {
    size: usize,
    goes: bool,
}

// An item at a place: its bytes, quotes doubled; how many they are with the item's quotes, and comma or CR LF; whether another item follows.
// plain: each byte is seen to stand alone, so that the item converts.
#[derive(Clone, Copy)]
struct ItemFound<'a> {
    item: &'a [u8],
    size: usize,
    goes: bool,
    plain: bool,
}

// The first 45 items of a row, as their bytes lie in the file, quotes doubled; those that it doesn't have are empty.
#[derive(Clone, Copy)]
pub struct RowItems<'a> {
    pub raw: [&'a [u8]; 45],
}

impl<'a> RowItems<'a> {
    // Those of a row without items.
    #[tactic(auto, unfolding(crate::specs::Rows::raw_of))]
    pub fn none() -> RowItems<'a>
        ensures { raw_items result ≡ replicate 45 [] }
    {
        RowItems { raw: [b""; 45] }
    }

    // The bytes of the n-th item, from 0.
    #[tactic(auto, unfolding(crate::specs::Rows::raw_of))]
    pub fn item(&self, n: usize) -> &'a [u8]
        requires { n < 45 }
        ensures { result.now ≡ nth (raw_items self.now) n }
    {
        self.raw[n]
    }
}

// A row at a place of the file: its first 45 items; its bytes, CR LF too; how many items it has; whether each converts.
#[derive(Clone, Copy)]
pub struct RowAt<'a> {
    pub items: RowItems<'a>,
    pub size: usize,
    pub count: usize,
    pub good: bool,
}

// The place where the bytes end that each stand alone and aren't doubled in the file.
fn plain_end(file: &[u8], from: usize) -> usize
    requires { from ≤ length file.now }
    ensures value { result ≡ from + plain_at (drop from file.now) }
    ensures within { (from ≤ result) × (result ≤ length file.now) }
{
    for i in from..file.len() {
        if !sjis::clear(file[i]) {
            return i;
        }
    }
    file.len()
}

// The place of the quote that closes the item whose bytes begin at a place; the file's end where none does.
fn item_end(file: &[u8], from: usize) -> usize
    requires { from ≤ length file.now }
    ensures value { result ≡ from + closing_at false (drop from file.now) }
    ensures within { (from ≤ result) × (result ≤ length file.now) }
{
    let mut i = from;
    // no `for`: over a doubled quote the step is two
    while i < file.len() {
        if file[i] != 0x22 {
            i += 1;
            continue;
        }
        let j = i + 1;
        if j >= file.len() {
            return i;
        }
        if file[j] != 0x22 {
            return i;
        }
        i += 2;
    }
    i
}

// What stands at a place behind a closing quote: a comma, CR LF or the end; none where it is anything else.
fn after_close(file: &[u8], j: usize) -> Option<Behind>
    requires { (j ≤ length file.now) × (quote_first (drop j file.now) ≡ false) }
    ensures { MatchOption result (lines_at Quote (drop j file.now) ≡ broken) (λ b. BehindAt file.now j b.size b.goes) }
{
    if j >= file.len() {
        return Some(Behind {
            size: 0,
            goes: false,
        });
    }
    if file[j] == 0x2C {
        return Some(Behind {
            size: 1,
            goes: true,
        });
    }
    let k = j + 1;
    if k >= file.len() {
        return None;
    }
    if (file[j] == 0x0D) & (file[k] == 0x0A) {
        return Some(Behind {
            size: 2,
            goes: false,
        });
    }
    None
}

// Whether a quote and a comma stand at a place.
fn comma_at(file: &[u8], p: usize) -> bool
    requires { p ≤ length file.now }
    ensures { result ≡ comma_at file.now p }
{
    file[p..].starts_with(b"\",")
}

// The item whose opening quote stands at a place, and whose bytes are plain up to p.
fn item_past<'a>(file: &'a [u8], i: usize, p: usize) -> Option<ItemFound<'a>>
    requires { (i < length file.now) × (get_or file.now i 0 ≡ 0x22) × (p ≡ (i + 1) + plain_at (drop (i + 1) file.now)) × (p ≤ length file.now) }
    ensures item_at { MatchOption result (lines_at Comma (drop i file.now) ≡ broken) (λ t. ItemAt file.now i t.item.now t.size t.goes) }
    ensures plain { IfSome result (λ t. PlainItem t.item.now t.plain) }
{
    let s = i + 1;
    let e = item_end(file, p);
    if e >= file.len() {
        return None;
    }
    let b = after_close(file, e + 1)?;
    Some(ItemFound {
        item: &file[s..e],
        size: e - s + 2 + b.size,
        goes: b.goes,
        plain: e == p,
    })
}

// The item at a place; none where the quoting is broken. Plain bytes that a quote and a comma close, or none, as most items are, are seen at once.
fn next_item<'a>(file: &'a [u8], i: usize) -> Option<ItemFound<'a>>
    requires { i ≤ length file.now }
    ensures item_at { MatchOption result (lines_at Comma (drop i file.now) ≡ broken) (λ t. ItemAt file.now i t.item.now t.size t.goes) }
    ensures plain { IfSome result (λ t. PlainItem t.item.now t.plain) }
{
    if i >= file.len() {
        return None;
    }
    if file[i] != 0x22 {
        return None;
    }
    let s = i + 1;
    let p = plain_end(file, s);
    if comma_at(file, p) {
        return Some(ItemFound {
            item: &file[s..p],
            size: p - s + 3,
            goes: true,
            plain: true,
        });
    }
    item_past(file, i, p)
}

// Notes an item, where it is one of the first 45.
fn note<'a>(raw: &mut [&'a [u8]; 45], n: usize, item: &'a [u8])
    ensures { raw_of raw.new ≡ noted n item.now (raw_of raw.old) }
{
    if n < 45 {
        raw[n] = item;
    }
}

// Whether an item converts, where that isn't known.
fn converts(item: &[u8], known: bool) -> bool
    ensures { result ≡ (known || convertible (halved false item.now)) }
{
    known || sjis::convertible(item)
}

// The row that begins at a place of the file; none where its quoting is broken. Items that are known to convert aren't judged.
pub fn row<'a>(file: &'a [u8], at: usize, known: bool) -> Option<RowAt<'a>>
    requires { at < length file.now }
    ensures { MatchOption result (cut (drop at file.now) ≡ broken) (λ r. RowIs file.now at known r.items r.size r.count r.good) }
{
    let mut raw: [&'a [u8]; 45] = [b""; 45];
    let mut size = 0;
    let mut count = 0;
    let mut good = true;
    'items: loop {
        let t = next_item(file, at + size)?;
        note(&mut raw, count, t.item);
        good = good & converts(t.item, known | t.plain);
        size += t.size;
        count += 1;
        if !t.goes {
            return Some(RowAt {
                items: RowItems { raw },
                size,
                count,
                good,
            });
        }
    }
}
