// The calls on the commercial centre's file (Req 01): how many sheets it holds, one of them, the one that begins at a place; and where the file is
// refused. They take any bytes, any ordinal and any place.
#![tactic(auto)]

ghost use Rattle.std.specs.Prelude.{◌≡◌, ◌<◌, length, Err};
ghost use Rattle.csv_rules.specs.Answers.{SheetCall};
ghost use Rattle.csv_rules.specs.Sheets.{place_after};
ghost use Rattle.csv_rules.specs.declared.NotMade.TheVariants.{Unfit};
ghost use Rattle.csv_rules.specs.Promises.{SheetsCounted, LineTold, CsvSheetWritten, NextSheetWritten};
ghost use Rattle.csv_rules.specs.Claims.{place_of};
ghost use Rattle.csv_runs.specs.Sheet.{sheet_at};
ghost use Rattle.csv_calls.specs.Calls.{Convertible, copied_told, made_told};

use csv_rules::{CsvSheets, FileFault, Next, NotMade};
use rules::{Kind, Refusal};

// ---- the whole file
// How many sheets a file holds, and where its first row stands; or 50 to 54.
pub fn csv_count(file: &[u8]) -> Result<CsvSheets, FileFault>
    ensures { SheetsCounted file.now result }
{
    csv_check::verdict_on(file).map_err(|blame| blame.fault)
}

// The line where a file is refused, from 1; 0 where it isn't.
pub fn csv_spot(file: &[u8]) -> usize
    ensures { LineTold file.now result }
{
    match csv_check::verdict_on(file) {
        Ok(_) => 0,
        Err(blame) => blame.line,
    }
}

// ---- one sheet
fn refused(kind: Kind) -> Result<usize, NotMade>
    ensures { result ≡ Err (Unfit (record { kind = kind; segment = 0; field = 0 })) }
{
    Err(NotMade::Unfit(Refusal {
        kind,
        segment: 0,
        field: 0,
    }))
}

// One byte past the limit of a sheet, so that a longer one gives 40.
fn room() -> [u8; 65537]
    ensures { length result ≡ 65537 }
{
    [0; 65537]
}

// A right sheet, copied where there is room: 45.
fn copied(sheet: &[u8], out: &mut [u8]) -> Result<usize, NotMade>
    ensures { SheetCall (copied_told sheet.now (length out.old)) out.old result out.new }
{
    if out.len() < sheet.len() {
        return refused(Kind::Room);
    }
    Ok(writer::put(out, sheet))
}

// A sheet that was made is judged before it is copied: 40 to 43, 45.
fn handed(sheet: &[u8], out: &mut [u8]) -> Result<usize, NotMade>
    ensures { SheetCall (made_told sheet.now (length out.old)) out.old result out.new }
{
    sheets::judge(sheet)?;
    copied(sheet, out)
}

// A sheet that the small buffer can't hold, made once more in one that can: its rows convert.
fn large(
    file: &[u8],
    at: usize,
    mode: &[u8],
    sent: &[u8],
    control: &[u8],
    out: &mut [u8],
) -> Result<usize, NotMade>
    requires { (at < length file.now) × Convertible file.now at }
    ensures { SheetCall (made_told (sheet_at file.now at (record { mode = mode.now; sent = sent.now; control = control.now })) (length out.old)) out.old result out.new }
{
    let mut sheet = room();
    made_in(&mut sheet, file, at, mode, sent, control, out)
}

fn made_in(
    sheet: &mut [u8],
    file: &[u8],
    at: usize,
    mode: &[u8],
    sent: &[u8],
    control: &[u8],
    out: &mut [u8],
) -> Result<usize, NotMade>
    requires { (length sheet.old ≡ 65537) × (at < length file.now) × Convertible file.now at }
    ensures { SheetCall (made_told (sheet_at file.now at (record { mode = mode.now; sent = sent.now; control = control.now })) (length out.old)) out.old result out.new }
{
    let put = csv_runs::put_sheet(sheet, file, at, mode, sent, control).unwrap();
    handed(&sheet[..put.end], out)
}

// The sheet that begins at a place, and the place behind its rows: 50, 30; 52 and 53 of its rows; its own 40 to 43; 45. It is made in a buffer of
// its own, since a refusal leaves the lent one, while its rows are walked. Most sheets are small.
pub fn csv_next(
    file: &[u8],
    at: usize,
    mode: &[u8],
    sent: &[u8],
    control: &[u8],
    out: &mut [u8],
) -> Next
    ensures { NextSheetWritten file.now at (record { mode = mode.now; sent = sent.now; control = control.now }) out.old result out.new }
{
    if file.len() <= at {
        return Next {
            made: refused(Kind::NoOrdinal),
            place: file.len(),
        };
    }
    let mut sheet = [0u8; 8192];
    next_in(&mut sheet, file, at, mode, sent, control, out)
}

fn next_in(
    sheet: &mut [u8],
    file: &[u8],
    at: usize,
    mode: &[u8],
    sent: &[u8],
    control: &[u8],
    out: &mut [u8],
) -> Next
    requires { at < length file.now }
    ensures { NextSheetWritten file.now at (record { mode = mode.now; sent = sent.now; control = control.now }) out.old result out.new }
{
    let Some(put) = csv_runs::put_sheet(sheet, file, at, mode, sent, control) else {
        return Next {
            made: Err(NotMade::Faulty(FileFault::Quoting)),
            place: file.len(),
        };
    };
    let run = put.run;
    let place = at + run.size;
    if !run.good {
        return Next {
            made: Err(NotMade::Faulty(FileFault::Unconverted)),
            place,
        };
    }
    if run.differs {
        return Next {
            made: Err(NotMade::Faulty(FileFault::HeaderDiffers)),
            place,
        };
    }
    let end = put.end;
    if end < sheet.len() {
        let made = handed(&sheet[..end], out);
        return Next { made, place };
    }
    let made = large(file, at, mode, sent, control, out);
    Next { made, place }
}

// ---- the which-th sheet
fn place_after(file: &[u8], at: usize) -> usize
    ensures { result ≡ place_after file.now at }
{
    if file.len() <= at {
        return file.len();
    }
    match csv_runs::run(file, at) {
        Some(run) => at + run.size,
        None => file.len(),
    }
}

// The place behind n sheets.
fn place_behind(file: &[u8], first: usize, n: usize) -> usize
    ensures { result ≡ place_of file.now first n }
{
    let mut at = first;
    for _ in 0..n {
        at = place_after(file, at);
    }
    at
}

// The which-th sheet, from 1, into the lent buffer: 50 to 54, 30, the sheet's own 40 to 43, 45.
pub fn csv_sheet(
    file: &[u8],
    which: usize,
    mode: &[u8],
    sent: &[u8],
    control: &[u8],
    out: &mut [u8],
) -> Result<usize, NotMade>
    ensures { CsvSheetWritten file.now which (record { mode = mode.now; sent = sent.now; control = control.now }) out.old result out.new }
{
    let sheets = csv_count(file)?;
    if (which == 0) | (sheets.count < which) {
        return refused(Kind::NoOrdinal);
    }
    let at = place_behind(file, sheets.first, which - 1);
    csv_next(file, at, mode, sent, control, out).made
}
