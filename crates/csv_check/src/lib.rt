// 50 to 54 over the commercial centre's file (Req 01), in one walk over its lines, once the column count is read, and further rounds over the rows
// whose numbers the table of that walk could not keep.
#![tactic(auto)]

ghost use Rattle.std.specs.Prelude.{◌≡◌, true, false, cond, ltb, is_some, Err};
ghost use Rattle.rules.specs.Frame.{digit};
ghost use Rattle.csv_rows.specs.Rows.{items_of};
ghost use Rattle.csv_rules.specs.Quote.{cut, lines_in};
ghost use Rattle.csv_rules.specs.Sheets.{csv_count};
ghost use Rattle.csv_rules.specs.Spot.{csv_spot};
ghost use Rattle.csv_rules.specs.Written.{halved};
ghost use Rattle.csv_check.specs.Walk.{with_digit, first_found, count_spot, ColumnsAre, column_item, WalkIs};
ghost use Rattle.csv_check.specs.Repeats.{Askable, WithRowIf, RepeatsAre};
ghost use Rattle.csv_check.specs.Looked.{LookedIs};
ghost use Rattle.csv_check.specs.Verdicts.{told_verdict, line_of};

use csv_repeats::Repeated;
use csv_rows::RowItems;
use csv_rules::{CsvSheets, FileFault};

// Whether the quoting is broken; the lines before the end, or before the one that breaks it; where 51 and 52 are met, by line, 0 where they aren't;
// 53 and 54, where none of these is met, as far as the table keeps the numbers; where the first row begins.
#[derive(Clone, Copy)]
struct Looked {
    broken: bool,
    lines: usize,
    miscounted: usize,
    unconverted: usize,
    repeats: Repeated,
    first: usize,
}

// A number with one more digit; 10,000,000,000,000,000,000 for it and all above: no row has so many items.
fn one_more(n: usize, b: u8) -> usize
    requires { digit b ≡ true }
    ensures { result ≡ with_digit n b }
{
    if n < 1000000000000000000 {
        return 10 * n + (b - 48) as usize;
    }
    10000000000000000000
}

// The column count, by its bytes as they lie in the file: digits, one at least, meaning 7 or more.
fn column_count(raw: &[u8]) -> Option<usize>
    ensures { ColumnsAre (halved false raw.now) result }
{
    let mut number = 0;
    for &b in raw {
        if !plain_bytes::is_digit(b) {
            return None;
        }
        number = one_more(number, b);
    }
    if 7 <= number { Some(number) } else { None }
}

// The first line that a test refuses: the one found before, else this one, where it doesn't pass.
fn first_found(found: usize, line: usize, passes: bool) -> usize
    ensures { result ≡ first_found found line passes }
{
    if (found == 0) & !passes {
        return line;
    }
    found
}

// The bytes of a line before the rows: the version line or the heading line.
fn before_rows(line: usize, size: usize) -> usize
    ensures { result ≡ cond (ltb line 3) size 0 }
{
    if line < 3 {
        return size;
    }
    0
}

// 51: "no version or heading line, a column count there that isn't a number from 7 up, or a row with another count".
fn count_spot(lines: usize, columns: Option<usize>, miscounted: usize) -> usize
    ensures { result ≡ count_spot lines (is_some columns) miscounted }
{
    if lines == 0 {
        return 1;
    }
    if lines == 1 {
        return 2;
    }
    if columns.is_some() {
        return miscounted;
    }
    1
}

// The column count of a file: the second item of its version line.
fn columns_of(file: &[u8]) -> Option<usize>
    ensures { ColumnsAre (column_item (lines_in (cut file.now))) result }
{
    if file.is_empty() {
        return None;
    }
    let version = csv_rows::row(file, 0, true)?;
    column_count(version.items.item(1))
}

// 53 and 54 with a row more, where they are still looked for.
fn with_row_if(
    asked: bool,
    met: Repeated,
    k: usize,
    file: &[u8],
    first: usize,
    at: usize,
    before: &RowItems,
    row: &RowItems,
    places: &mut [u32; 65536],
) -> Repeated
    requires { Askable file.now at places.old met.count asked }
    ensures { WithRowIf file.now first at (items_of before.now) (items_of row.now) places.old met.unkept met.line k met.differs met.returns met.count asked result.unkept result.line result.differs result.returns result.count places.new }
{
    if asked {
        return csv_repeats::with_row(met, k, file, first, at, before, row, places);
    }
    met
}

// The walk over the lines, where the rows should have this many items; the version line and the heading line are no rows. 53 and 54 are looked for
// as long as every line converts and no row differs.
fn walked(file: &[u8], number: usize) -> Looked
    ensures walk_is { WalkIs file.now number result.broken result.lines result.miscounted result.unconverted result.first }
    ensures rows { RepeatsAre file.now result.broken result.lines result.unconverted result.first result.repeats.differs result.repeats.returns result.repeats.count result.repeats.unkept result.repeats.line }
{
    let mut places = csv_places::empty();
    let mut before = RowItems::none();
    let mut at = 0;
    let mut lines = 0;
    let mut miscounted = 0;
    let mut unconverted = 0;
    let mut repeats = Repeated {
        differs: 0,
        returns: 0,
        count: 0,
        unkept: 0,
        line: 0,
    };
    let mut first = 0;
    // Not a `for`: where the next line begins is known once this one is read.
    while at < file.len() {
        let Some(row) = csv_rows::row(file, at, false) else {
            return Looked {
                broken: true,
                lines,
                miscounted,
                unconverted,
                repeats,
                first,
            };
        };
        lines += 1;
        miscounted = first_found(miscounted, lines, (lines < 3) | (row.count == number));
        unconverted = first_found(unconverted, lines, row.good);
        first += before_rows(lines, row.size);
        let asked = (3 <= lines) & (unconverted == 0) & (repeats.differs == 0);
        repeats = with_row_if(
            asked,
            repeats,
            lines,
            file,
            first,
            at,
            &before,
            &row.items,
            &mut places,
        );
        before = row.items;
        at += row.size;
    }
    Looked {
        broken: false,
        lines,
        miscounted,
        unconverted,
        repeats,
        first,
    }
}

// Looks over a file: 50 to 54.
fn look(file: &[u8]) -> Looked
    ensures looked_is { LookedIs file.now result.broken result.lines result.miscounted result.unconverted result.first }
    ensures rows { RepeatsAre file.now result.broken result.lines result.unconverted result.first result.repeats.differs result.repeats.returns result.repeats.count result.repeats.unkept result.repeats.line }
{
    let columns = columns_of(file);
    let w = walked(file, columns.unwrap_or(0));
    let repeats = w.repeats;
    Looked {
        broken: w.broken,
        lines: w.lines,
        miscounted: count_spot(w.lines, columns, w.miscounted),
        unconverted: w.unconverted,
        repeats,
        first: w.first,
    }
}

// A fault of the file, and the line where it is met.
#[derive(Clone, Copy)]
pub struct Blame {
    pub fault: FileFault,
    pub line: usize,
}

fn wrong(fault: FileFault, line: usize) -> Result<CsvSheets, Blame>
    ensures { result ≡ Err (record { fault = fault; line = line }) }
{
    Err(Blame { fault, line })
}

// 50 to 54, "in that order, each over the whole file".
pub fn verdict_on(file: &[u8]) -> Result<CsvSheets, Blame>
    ensures result_value { told_verdict result ≡ csv_count file.now }
    ensures line { line_of result ≡ csv_spot file.now }
{
    let found = look(file);
    if found.broken {
        return wrong(FileFault::Quoting, found.lines + 1);
    }
    if found.miscounted != 0 {
        return wrong(FileFault::Columns, found.miscounted);
    }
    if found.unconverted != 0 {
        return wrong(FileFault::Unconverted, found.unconverted);
    }
    let walked = found.repeats;
    let repeats = csv_rounds::settled(file, walked);
    if repeats.differs != 0 {
        return wrong(FileFault::HeaderDiffers, repeats.differs);
    }
    if repeats.returns != 0 {
        return wrong(FileFault::Returns, repeats.returns);
    }
    Ok(CsvSheets {
        count: walked.count,
        first: found.first,
    })
}
