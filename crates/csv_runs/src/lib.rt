// The run of rows that begins at a place of the commercial centre's file (Req 01), and its sheet.
#![tactic(auto)]

ghost use Rattle.std.specs.Prelude.{◌≡◌, false, cond, [], ◌++◌, ◌≤◌, ◌<◌, length, MatchOption};
ghost use Rattle.csv_rows.specs.Rows.{lines_from, items_of};
ghost use Rattle.csv_lines.specs.Lines.{header_lines, first_lines, next_lines};
ghost use Rattle.csv_lines.specs.Written.{Writes};
ghost use Rattle.csv_runs.specs.Next.{goes_on, Joins};
ghost use Rattle.csv_runs.specs.Runs.{Broken, RunIs};
ghost use Rattle.csv_runs.specs.Sheet.{RowReady, PutIs};

use csv_lines::{GoodRow, Lines};
use csv_rows::RowItems;

// A run of rows with one number: its bytes; whether each row converts; whether two rows differ in a header key. Its bytes are asked for where 52 or
// 53 is met, too: the next run begins behind them.
#[derive(Clone, Copy)]
pub struct RunAt {
    pub size: usize,
    pub good: bool,
    pub differs: bool,
}

// A run, and where its sheet ends in the buffer.
#[derive(Clone, Copy)]
pub struct PutAt {
    pub run: RunAt,
    pub end: usize,
}

// One more row of a run: its items; its bytes; whether it converts; whether it differs from the first in a header key.
#[derive(Clone, Copy)]
struct After<'a> {
    items: RowItems<'a>,
    size: usize,
    good: bool,
    differs: bool,
}

// The run that begins at a place; none where the line there breaks the quoting.
pub fn run(file: &[u8], at: usize) -> Option<RunAt>
    requires { at < length file.now }
    ensures { MatchOption result (Broken file.now at) (λ r. RunIs file.now at r.size r.good r.differs) }
{
    let first = csv_rows::row(file, at, false)?;
    let mut size = first.size;
    let mut good = first.good;
    let mut differs = false;
    while let Some(other) = next_row(file, &first.items, at + size) {
        size += other.size;
        good = good & other.good;
        differs = differs | other.differs;
    }
    Some(RunAt {
        size,
        good,
        differs,
    })
}

// The row at a place, where it is well quoted and has the number of a run's first row (column 7); at the end of the file, at a broken line and at
// another number the run stops.
fn next_row<'a>(file: &'a [u8], first: &RowItems, at: usize) -> Option<After<'a>>
    requires { at ≤ length file.now }
    ensures { MatchOption result (goes_on (items_of first.now) (lines_from file.now at) ≡ false) (λ t. Joins file.now (items_of first.now) at t.items t.size t.good t.differs) }
{
    if at >= file.len() {
        return None;
    }
    let r = csv_rows::row(file, at, false)?;
    if csv_keys::same_number(first, &r.items) {
        return Some(After {
            items: r.items,
            size: r.size,
            good: r.good,
            differs: !csv_keys::same_header(first, &r.items),
        });
    }
    None
}

// ---- the sheet

// The lines of a sheet's header, and those of its first row where they are asked for.
fn put_first(
    lines: &mut Lines,
    mode: &[u8],
    sent: &[u8],
    control: &[u8],
    row: &RowItems,
    asked: bool,
)
    requires { RowReady row.now asked }
    ensures { Writes lines.old lines.new (header_lines mode.now sent.now control.now ++ cond asked (first_lines (items_of row.now)) []) }
{
    lines.header(mode, sent, control);
    if asked {
        lines.first_row(&GoodRow { items: row });
    }
}

// The lines of a row behind another, where they are asked for.
fn put_next(lines: &mut Lines, before: &RowItems, row: &RowItems, asked: bool)
    requires { RowReady before.now asked × RowReady row.now asked }
    ensures { Writes lines.old lines.new (cond asked (next_lines (items_of before.now) (items_of row.now)) []) }
{
    if asked {
        lines.next_row(&GoodRow { items: before }, &GoodRow { items: row });
    }
}

// "All rows with one result number (column 7) make one sheet": writes that of the run that begins at a place while its rows are walked, as far as
// they convert.
pub fn put_sheet(
    out: &mut [u8],
    file: &[u8],
    at: usize,
    mode: &[u8],
    sent: &[u8],
    control: &[u8],
) -> Option<PutAt>
    requires { at < length file.now }
    ensures { MatchOption result (Broken file.now at × (length out.new ≡ length out.old)) (λ p. PutIs file.now at (record { mode = mode.now; sent = sent.now; control = control.now }) out.old p.run.size p.end p.run.good p.run.differs out.new) }
{
    let first = csv_rows::row(file, at, false)?;
    let mut size = first.size;
    let mut good = first.good;
    let mut differs = false;
    let mut before = first.items;
    let mut lines = Lines::new(out);
    put_first(&mut lines, mode, sent, control, &first.items, good);
    while let Some(next) = next_row(file, &first.items, at + size) {
        size += next.size;
        good = good & next.good;
        differs = differs | next.differs;
        put_next(&mut lines, &before, &next.items, good);
        before = next.items;
    }
    let run = RunAt {
        size,
        good,
        differs,
    };
    Some(PutAt { run, end: lines.at })
}
