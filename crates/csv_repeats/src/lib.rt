// How a row of the commercial centre's file (Req 01) stands to the rows before it: 53 and 54, by looking back, as far as a table keeps the numbers.
#![tactic(auto)]

ghost use Rattle.std.specs.Prelude.{◌≡◌, false, cond, ◌&&◌, ◌≤◌, ◌<◌, eqb, length};
ghost use Rattle.csv_rows.specs.Rows.{items_of};
ghost use Rattle.csv_repeats.specs.declared.Standing.TheVariants.{Same, Back, Differs};
ghost use Rattle.csv_places.specs.Places.{items_at, RowThere, Places};
ghost use Rattle.csv_repeats.specs.Looks.{same_header, looked_for, HeldThere, Looked, Stands, WithRow, is_differs, is_back, begun};

use csv_places::Slot;
use csv_rows::RowItems;

// Where 53 and 54 are met so far, by line, 0 where they aren't; how many runs there are; where the first row begins whose number isn't kept, and
// its line, 0 where every number is. From that row on no more numbers are kept.
#[derive(Clone, Copy)]
pub struct Repeated {
    pub differs: usize,
    pub returns: usize,
    pub count: usize,
    pub unkept: usize,
    pub line: usize,
}

// How a row stands to the rows before it.
#[derive(Clone, Copy)]
pub enum Standing {
    Same, // it goes on with the number of the row before
    New, // no row before that is kept has its number
    Back, // its number returns after another
    Differs, // 53: a row before with its number has another header key
}

// How a row stands that goes on with its number, or that returns, by whether its header keys agree.
fn by_header(agrees: bool, standing: Standing) -> Standing
    ensures { result ≡ cond agrees standing Differs }
{
    if agrees { standing } else { Standing::Differs }
}

// 53, where a row stands so: its line.
fn differs_at(s: Standing, line: usize) -> usize
    ensures { result ≡ cond (is_differs s) line 0 }
{
    match s {
        Standing::Same => 0,
        Standing::New => 0,
        Standing::Back => 0,
        Standing::Differs => line,
    }
}

// The runs that it begins.
fn begins(s: Standing) -> usize
    ensures value { result ≡ begun s }
    ensures few { result ≤ 1 }
{
    usize::from(matches!(s, Standing::New | Standing::Back))
}

// 54, where a row stands so.
fn comes_back(s: Standing) -> bool
    ensures { result ≡ is_back s }
{
    matches!(s, Standing::Back)
}

// The first line where a number returns: one that is named stays.
fn first_back(returns: usize, s: Standing, line: usize) -> usize
    ensures { result ≡ cond (eqb returns 0 && is_back s) line returns }
{
    if (returns == 0) & comes_back(s) {
        return line;
    }
    returns
}

// How a row stands to one with its number that begins at a place.
fn found_at(file: &[u8], p: usize, row: &RowItems) -> Standing
    requires { RowThere file.now p }
    ensures { result ≡ cond (same_header (items_of row.now) (items_at file.now p)) Back Differs }
{
    let there = csv_rows::row(file, p, true).unwrap();
    by_header(csv_keys::same_header(row, &there.items), Standing::Back)
}

// How a row stands whose number isn't that of the row before, by what is kept of it.
fn looked_for(file: &[u8], row: &RowItems, slot: Slot) -> Standing
    requires { HeldThere file.now slot }
    ensures { result ≡ looked_for file.now (items_of row.now) slot }
{
    match slot {
        Slot::Held(p) => found_at(file, p, row),
        Slot::Free(_) => Standing::New,
        Slot::Crowded => Standing::New,
    }
}

// Where the first row begins whose number isn't kept, with the row at a place.
fn unkept_with(at: usize, kept: bool) -> usize
    ensures { result ≡ cond kept 0 at }
{
    if kept {
        return 0;
    }
    at
}

// How a row stands, and where the first row begins whose number isn't kept.
#[derive(Clone, Copy)]
struct Stood {
    standing: Standing,
    unkept: usize,
}

// A row whose number isn't that of the row before. Its place is kept, where it can be, as long as every number is.
fn looked(file: &[u8], at: usize, row: &RowItems, unkept: usize, places: &mut [u32; 65536]) -> Stood
    requires { Places file.now places.old }
    ensures { Looked file.now at (items_of row.now) places.old unkept result.standing result.unkept places.new }
{
    let hash = csv_places::hash_of(row);
    let slot = csv_places::look_up(file, places, row, hash);
    let standing = looked_for(file, row, slot);
    if unkept == 0 {
        let kept = csv_places::keep(places, slot, at, hash);
        return Stood {
            standing,
            unkept: unkept_with(at, kept),
        };
    }
    Stood { standing, unkept }
}

// How the row at a place stands to those from `first` up to it. The first has none before it.
fn stands(
    file: &[u8],
    first: usize,
    at: usize,
    before: &RowItems,
    row: &RowItems,
    unkept: usize,
    places: &mut [u32; 65536],
) -> Stood
    requires { Places file.now places.old }
    ensures { Stands file.now first at (items_of before.now) (items_of row.now) places.old unkept result.standing result.unkept places.new }
{
    if (first < at) & csv_keys::same_number(before, row) {
        return Stood {
            standing: by_header(csv_keys::same_header(row, before), Standing::Same),
            unkept,
        };
    }
    looked(file, at, row, unkept, places)
}

// The line of the first row whose number isn't kept, with the row of the k-th line.
fn line_with(unkept: usize, after: usize, line: usize, k: usize) -> usize
    ensures { result ≡ cond (eqb after unkept) line k }
{
    if after == unkept {
        return line;
    }
    k
}

// 53 and 54 with the row at a place, the k-th line of the file, where none before it is found to differ.
pub fn with_row(
    met: Repeated,
    k: usize,
    file: &[u8],
    first: usize,
    at: usize,
    before: &RowItems,
    row: &RowItems,
    places: &mut [u32; 65536],
) -> Repeated
    requires { (met.count ≤ at) × (at < length file.now) × Places file.now places.old }
    ensures { WithRow file.now first at (items_of before.now) (items_of row.now) places.old met.unkept met.line k met.returns met.count result.unkept result.line result.differs result.returns result.count places.new }
{
    let t = stands(file, first, at, before, row, met.unkept, places);
    let s = t.standing;
    Repeated {
        differs: differs_at(s, k),
        returns: first_back(met.returns, s, k),
        count: met.count + begins(s),
        unkept: t.unkept,
        line: line_with(met.unkept, t.unkept, met.line, k),
    }
}
