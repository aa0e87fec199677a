// The face of the library for C: the calls of `oul` on numbers and bytes. Each answers 0, or the number of the refusal, and fills three numbers that the caller
// lends: what was asked for, or the refusal's segment (or line), its field and 0. include/oul.h declares them.
#![tactic(auto)]

ghost use Rattle.std.specs.Prelude.{◌≡◌, [], ◌∷◌, length};
ghost use Rattle.rules.specs.Told.{gives, number, told};
ghost use Rattle.rules.specs.Frame.{known};
ghost use Rattle.rules.specs.Check.{check_told};
ghost use Rattle.rules.specs.Fetch.{fetch_told, ordinal, text_told};
ghost use Rattle.rules.specs.Sheet.{to_sheet};
ghost use Rattle.rules.specs.Message.{to_message};
ghost use Rattle.csv_rules.specs.Answers.{fault_number, told_made};
ghost use Rattle.csv_rules.specs.Sheets.{csv_count, csv_sheet, csv_next, place_after};
ghost use Rattle.csv_rules.specs.Spot.{csv_spot};
ghost use Rattle.spot.specs.Spot.{spot_of};
ghost use Rattle.oul_c.specs.Numbers.{count_numbers, span_numbers, segment_numbers, spot_numbers, sheet_numbers, one_number, Tells, TellsWritten, TellsNext};

use csv_rules::{FileFault, NotMade};
use rules::{Kind, Refusal};

// The counts of the specimens, orders and results of a message.
#[unsafe(no_mangle)]
pub extern "C" fn oul_check(m: &[u8], told: &mut [usize; 3]) -> usize
    ensures { Tells count_numbers (check_told m.now) result told.new }
{
    match oul::check(m) {
        Ok(counts) => {
            *told = [counts.spm, counts.obr, counts.obx];
            0
        }
        Err(r) => refuse(r, told),
    }
}

// Where a part of a message starts, and how long it is.
#[unsafe(no_mangle)]
pub extern "C" fn oul_locate(
    m: &[u8],
    ordinal: usize,
    field: usize,
    component: usize,
    told: &mut [usize; 3],
) -> usize
    ensures { Tells span_numbers (fetch_told m.now ordinal field component) result told.new }
{
    match oul::locate(m, ordinal, field, component) {
        Ok(p) => {
            *told = [p.start, p.len, 0];
            0
        }
        Err(r) => refuse(r, told),
    }
}

// Writes the text of a part, without its escapes, into the lent buffer: how many bytes it has.
#[unsafe(no_mangle)]
pub extern "C" fn oul_part_text(
    m: &[u8],
    ordinal: usize,
    field: usize,
    component: usize,
    out: &mut [u8],
    told: &mut [usize; 3],
) -> usize
    ensures { TellsWritten (text_told m.now ordinal field component (length out.old)) out.old result told.new out.new }
{
    written(oul::part_text(m, ordinal, field, component, out), told)
}

// Writes the sheet of a message into the lent buffer: how many bytes it has.
#[unsafe(no_mangle)]
pub extern "C" fn oul_to_sheet(m: &[u8], out: &mut [u8], told: &mut [usize; 3]) -> usize
    ensures { TellsWritten (to_sheet m.now (length out.old)) out.old result told.new out.new }
{
    written(oul::to_sheet(m, out), told)
}

// Writes the message of a sheet in the same way; a refusal carries the line in place of the segment.
#[unsafe(no_mangle)]
pub extern "C" fn oul_to_message(sheet: &[u8], out: &mut [u8], told: &mut [usize; 3]) -> usize
    ensures { TellsWritten (to_message sheet.now (length out.old)) out.old result told.new out.new }
{
    written(oul::to_message(sheet, out), told)
}

// Where the known segment with this ordinal starts, and how long it is without its 0D; its name is its first three bytes. It takes any bytes.
#[unsafe(no_mangle)]
pub extern "C" fn oul_segment(m: &[u8], number: usize, told: &mut [usize; 3]) -> usize
    ensures { Tells segment_numbers (ordinal (known m.now) number) result told.new }
{
    match oul::known_segment(m, number) {
        Some(s) => {
            *told = [s.start, s.len, 0];
            0
        }
        None => refuse(Kind::NoOrdinal.into(), told),
    }
}

// The line and the byte at which a text breaks the rule of its refusal 12, 13 or 41. It always answers 0.
#[unsafe(no_mangle)]
pub extern "C" fn oul_spot(text: &[u8], refusal: usize, told: &mut [usize; 3]) -> usize
    ensures { Tells spot_numbers (gives (spot_of refusal text.now)) result told.new }
{
    let s = oul::spot_of(text, refusal);
    *told = [s.line, s.byte, 0];
    0
}

// ---- the commercial centre's file
// How many sheets a file holds, and where its first row stands.
#[unsafe(no_mangle)]
pub extern "C" fn oul_csv_count(file: &[u8], told: &mut [usize; 3]) -> usize
    ensures { Tells sheet_numbers (csv_count file.now) result told.new }
{
    match oul::csv_count(file) {
        Ok(sheets) => {
            *told = [sheets.count, sheets.first, 0];
            0
        }
        Err(fault) => faulty(fault, told),
    }
}

// Writes the which-th sheet of a file into the lent buffer: how many bytes it has.
#[unsafe(no_mangle)]
pub extern "C" fn oul_csv_sheet(
    file: &[u8],
    which: usize,
    mode: &[u8],
    sent: &[u8],
    control: &[u8],
    out: &mut [u8],
    told: &mut [usize; 3],
) -> usize
    ensures { TellsWritten (csv_sheet file.now which (record { mode = mode.now; sent = sent.now; control = control.now }) (length out.old)) out.old result told.new out.new }
{
    made(oul::csv_sheet(file, which, mode, sent, control, out), told)
}

// Writes the sheet that begins at a place; the third number is the place behind its rows, for refusals as well.
#[unsafe(no_mangle)]
pub extern "C" fn oul_csv_next(
    file: &[u8],
    at: usize,
    mode: &[u8],
    sent: &[u8],
    control: &[u8],
    out: &mut [u8],
    told: &mut [usize; 3],
) -> usize
    ensures { TellsNext (csv_next file.now at (record { mode = mode.now; sent = sent.now; control = control.now }) (length out.old)) (place_after file.now at) out.old result told.new out.new }
{
    let next = oul::csv_next(file, at, mode, sent, control, out);
    let number = made(next.made, told);
    told[2] = next.place;
    number
}

// The line where a file is refused, 0 where it isn't. It always answers 0.
#[unsafe(no_mangle)]
pub extern "C" fn oul_csv_spot(file: &[u8], told: &mut [usize; 3]) -> usize
    ensures { Tells one_number (gives (csv_spot file.now)) result told.new }
{
    *told = [oul::csv_spot(file), 0, 0];
    0
}

// ---- answers as numbers
// How many bytes were written, as numbers.
fn written(answer: Result<usize, Refusal>, numbers: &mut [usize; 3]) -> usize
    ensures { Tells one_number (told answer) result numbers.new }
{
    match answer {
        Ok(n) => {
            *numbers = [n, 0, 0];
            0
        }
        Err(r) => refuse(r, numbers),
    }
}

// A refusal as numbers.
fn refuse(r: Refusal, told: &mut [usize; 3]) -> usize
    ensures value { result ≡ number r.kind }
    ensures told_after { told.new ≡ r.segment ∷ r.field ∷ 0 ∷ [] }
{
    *told = [r.segment, r.field, 0];
    rules::paper_number(r.kind)
}

// A file's fault, which names no place.
fn faulty(fault: FileFault, told: &mut [usize; 3]) -> usize
    ensures value { result ≡ fault_number fault }
    ensures told_after { told.new ≡ 0 ∷ 0 ∷ 0 ∷ [] }
{
    *told = [0, 0, 0];
    csv_rules::fault_number(fault)
}

// How many bytes the sheet has, or its refusal.
fn made(answer: Result<usize, NotMade>, told: &mut [usize; 3]) -> usize
    ensures { Tells one_number (told_made answer) result told.new }
{
    match answer {
        Ok(n) => {
            *told = [n, 0, 0];
            0
        }
        Err(NotMade::Unfit(r)) => refuse(r, told),
        Err(NotMade::Faulty(fault)) => faulty(fault, told),
    }
}
