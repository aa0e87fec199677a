// The face of the library: its calls, each by its one named promise. None asks anything of its caller.
#![tactic(auto)]

ghost use Rattle.rules.specs.Promises.{Checked, Located, PartGiven, StretchGiven, SegmentFound, TextWritten, SheetWritten, MessageWritten};
ghost use Rattle.csv_rules.specs.Promises.{SheetsCounted, LineTold, CsvSheetWritten, NextSheetWritten};
ghost use Rattle.spot.specs.Spot.{SpotTold};

use csv_rules::{CsvSheets, FileFault, Next, NotMade};
use rules::{Counts, KnownSegment, Refusal, Span};
use spot::Spot;

// Checks a message: the counts of its specimens, orders and results, or its refusal (10 to 27).
pub fn check(m: &[u8]) -> Result<Counts, Refusal>
    ensures { Checked m.now result }
{
    checks::check(m)
}

// Where a part of a message stands, or the refusal: the check's own first, then 31, then 30.
pub fn locate(m: &[u8], ordinal: usize, field: usize, component: usize) -> Result<Span, Refusal>
    ensures { Located m.now ordinal field component result }
{
    fetch::locate(m, ordinal, field, component)
}

// That part, as the very stretch of m; where it is refused an empty one, at the start.
pub fn fetch(m: &[u8], ordinal: usize, field: usize, component: usize) -> &[u8]
    ensures { PartGiven m.now m.entry.ref_ptr ordinal field component result.now result.ref_ptr }
{
    fetch::fetch(m, ordinal, field, component)
}

// The stretch of m that an answer of `locate` names, without a second check; an empty one, at the start, where it names none that lies in m.
pub fn bytes_of(m: &[u8], answer: Result<Span, Refusal>) -> &[u8]
    ensures { StretchGiven m.now m.entry.ref_ptr answer result.now result.ref_ptr }
{
    fetch::bytes_of(m, answer)
}

// Writes the text of a part, without its escapes, into the lent buffer, whose bytes past it stay: how many bytes it has, or the refusal, which leaves the buffer: those of
// `locate`, then 23, then 45.
pub fn part_text(
    m: &[u8],
    ordinal: usize,
    field: usize,
    component: usize,
    out: &mut [u8],
) -> Result<usize, Refusal>
    ensures { TextWritten m.now ordinal field component out.old result out.new }
{
    part_text::part_text(m, ordinal, field, component, out)
}

// Writes the sheet of a message into the lent buffer, whose bytes past the sheet stay: how many bytes it has, or the refusal (10 to 27, 45), which leaves the buffer.
pub fn to_sheet(m: &[u8], out: &mut [u8]) -> Result<usize, Refusal>
    ensures { SheetWritten m.now out.old result out.new }
{
    to_sheet::to_sheet(m, out)
}

// Writes the message of a sheet in the same way. Refusals 40 to 45, with the line in place of the segment.
pub fn to_message(sheet: &[u8], out: &mut [u8]) -> Result<usize, Refusal>
    ensures { MessageWritten sheet.now out.old result out.new }
{
    to_message::to_message(sheet, out)
}

// Which known segment an ordinal is: its name, where it starts and how long it is without its 0D; none where there is none. It takes any bytes, checked or not.
pub fn known_segment(m: &[u8], ordinal: usize) -> Option<KnownSegment>
    ensures { SegmentFound m.now ordinal result }
{
    known::known_segment(m, ordinal)
}

// Where a text breaks the rule of 12, 13 or 41, which name no place: the line and the byte, counted from 1; zeros for any other refusal.
pub fn spot_of(text: &[u8], number: usize) -> Spot
    ensures { SpotTold text.now number result }
{
    spot::spot_of(text, number)
}

// ---- the commercial centre's file
// How many sheets a file holds, and where its first row stands; or its refusal (50 to 54).
pub fn csv_count(file: &[u8]) -> Result<CsvSheets, FileFault>
    ensures { SheetsCounted file.now result }
{
    csv_calls::csv_count(file)
}

// Writes the which-th sheet of a file, from 1, into the lent buffer, whose bytes past the sheet stay; mode, sent and control are the caller's. Its length, or the refusal,
// which leaves the buffer: 50 to 54, 30, the sheet's own 40 to 43 with the line of the sheet, 45.
pub fn csv_sheet(
    file: &[u8],
    which: usize,
    mode: &[u8],
    sent: &[u8],
    control: &[u8],
    out: &mut [u8],
) -> Result<usize, NotMade>
    ensures { CsvSheetWritten file.now which (record { mode = mode.now; sent = sent.now; control = control.now }) out.old result out.new }
{
    csv_calls::csv_sheet(file, which, mode, sent, control, out)
}

// Writes the sheet that begins at a place of a file in the same way, and tells the place behind its rows: from the first row on, sheet after sheet. It takes any bytes and
// any place: 50, 30; 52 and 53 of the sheet's own rows; 40 to 43; 45.
pub fn csv_next(
    file: &[u8],
    at: usize,
    mode: &[u8],
    sent: &[u8],
    control: &[u8],
    out: &mut [u8],
) -> Next
    ensures { NextSheetWritten file.now at (record { mode = mode.now; sent = sent.now; control = control.now }) out.old result out.new }
{
    csv_calls::csv_next(file, at, mode, sent, control, out)
}

// The line, from 1, where a file is refused by 50 to 54, which name no place; 0 where it isn't.
pub fn csv_spot(file: &[u8]) -> usize
    ensures { LineTold file.now result }
{
    csv_calls::csv_spot(file)
}
