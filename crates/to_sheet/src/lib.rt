// Message to sheet: the message is checked, its sheet is measured, then written.
#![tactic(auto)]

ghost use Rattle.std.specs.Prelude.{◌+◌, length};
ghost use Rattle.rules.specs.Told.{Call};
ghost use Rattle.rules.specs.Frame.{segments};
ghost use Rattle.rules.specs.View.{view};
ghost use Rattle.rules.specs.Sheet.{sheet_told};
ghost use Rattle.rules.specs.Promises.{SheetWritten};
ghost use Rattle.frame.specs.Frame.{Sound};
ghost use Rattle.fill.specs.Fill.{Filled};
ghost use Rattle.to_sheet.specs.Sections.{sections};

use frame::segments::Segments;
use rules::{Delims, Kind, Refusal};

// The check's refusal first; "Message to sheet gives 45 last."
#[tactic(auto, unfolding(rules::specs::Sheet::to_sheet))]
pub fn to_sheet(m: &[u8], out: &mut [u8]) -> Result<usize, Refusal>
    ensures { SheetWritten m.now out.old result out.new }
{
    checks::check(m)?;
    write(out, m, header::delims(m))
}

// 45, or the sheet. It is measured first, where nothing of the buffer is lent.
fn write(out: &mut [u8], m: &[u8], d: Delims) -> Result<usize, Refusal>
    requires { Sound m.now d }
    ensures { Call (sheet_told (view m.now) (length out.old)) out.old result out.new }
{
    let n = pass(&mut out[..0], m, d);
    if out.len() < n {
        return Err(Kind::Room.into());
    }
    pass(out, m, d);
    Ok(n)
}

// One pass over the segments: their lines as far as the buffer reaches, and how long they are, whatever the room.
fn pass(out: &mut [u8], m: &[u8], d: Delims) -> usize
    requires { Sound m.now d }
    ensures { Filled result out.new (sections d (segments m.now)) out.old }
{
    let mut written = 0;
    for s in (Segments { rest: m }) {
        written = section::put(out, written, s, d);
    }
    written
}
