// 53 and 54 of the rows that a walk has left (Req 01), since the table could not keep their numbers: gone through again, round after round, each with
// a table of its own.
#![tactic(auto)]

ghost use Rattle.std.specs.Prelude.{◌≡◌, true, cond, ◌+◌, ◌≤◌, ◌<◌, eqb, length};
ghost use Rattle.rules.specs.Lists.{all};
ghost use Rattle.csv_rules.specs.Sheets.{row_converts};
ghost use Rattle.csv_rows.specs.Rows.{lines_from};
ghost use Rattle.csv_repeats.specs.Rounds.{first_line, Partly};
ghost use Rattle.csv_rounds.specs.Settled.{Unsettled, Settled};

use csv_repeats::Repeated;
use csv_rows::RowItems;

// Where 53 and 54 are met, by line, 0 where they aren't.
#[derive(Clone, Copy)]
pub struct Met {
    pub differs: usize,
    pub returns: usize,
}

// The first of two lines; 0 is none.
fn first_of(a: usize, b: usize) -> usize
    ensures { result ≡ first_line a b }
{
    if a == 0 {
        return b;
    }
    if (b != 0) & (b < a) {
        return b;
    }
    a
}

// A place in the file, by the place in what follows its first n bytes; 0 stays.
fn place_behind(n: usize, at: usize) -> usize
    requires { n + at < 18446744073709551616 }
    ensures { result ≡ cond (eqb at 0) 0 (n + at) }
{
    if at == 0 {
        return 0;
    }
    n + at
}

// One round: the rows from the second byte on, the first of which is the line-th line of the file, as far as the table keeps their numbers. No row
// begins at 0, which is no place in the table.
fn round(rows: &[u8], line: usize) -> Repeated
    requires { (0 < line) × (line + length rows.now ≤ 18446744073709551617) × all row_converts (lines_from rows.now 1) ≡ true }
    ensures { Partly rows.now 1 line result.differs result.returns result.unkept result.line }
{
    let mut places = csv_places::empty();
    let mut before = RowItems::none();
    let mut at = 1usize;
    let mut passed = line - 1;
    let mut met = Repeated {
        differs: 0,
        returns: 0,
        count: 0,
        unkept: 0,
        line: 0,
    };
    // Not a `for`: where the next row begins is known once this one is read.
    while (at < rows.len()) & (met.differs == 0) {
        let Some(row) = csv_rows::row(rows, at, true) else {
            return met;
        };
        passed += 1;
        met = csv_repeats::with_row(met, passed, rows, 1, at, &before, &row.items, &mut places);
        before = row.items;
        at += row.size;
    }
    met
}

// 53 and 54 over the whole, by what a walk has found of them and what the rows say that it has left.
pub fn settled(file: &[u8], found: Repeated) -> Met
    requires { Unsettled file.now found.unkept found.line }
    ensures { Settled file.now found.differs found.returns found.unkept found.line result.differs result.returns }
{
    let mut differs = found.differs;
    let mut returns = found.returns;
    let mut unkept = found.unkept;
    let mut line = found.line;
    // A round begins at the first row that the table of the last one did not keep.
    while unkept != 0 {
        let start = unkept - 1;
        let met = round(&file[start..], line);
        differs = first_of(differs, met.differs);
        returns = first_of(returns, met.returns);
        unkept = place_behind(start, met.unkept);
        line = met.line;
    }
    Met { differs, returns }
}
