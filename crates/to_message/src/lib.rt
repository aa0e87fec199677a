// A sheet turned into a message. The first pass over the sheet's groups has nothing to write into: it judges them and measures the message.
// The second writes each segment into what remains of the lent buffer, once it is known that there is room.
#![tactic(auto)]

ghost use Rattle.std.specs.Prelude.{◌≡◌};
ghost use Rattle.rules.specs.Told.{told, gives};
ghost use Rattle.rules.specs.Message.{base};
ghost use Rattle.rules.specs.Promises.{MessageWritten};
ghost use Rattle.to_message.specs.Call.{measured_told};

use compose::Size;
use rules::{Delims, Kind, Refusal};

// "The writer uses `|^~\&`".
fn delimiters() -> Delims
    ensures { result ≡ base }
{
    Delims {
        field: b'|',
        component: b'^',
        repetition: b'~',
        escape: b'\\',
        sub: b'&',
    }
}

// 40 to 43 of a sheet, or how many bytes and segments its message has.
fn measure(sheet: &[u8]) -> Result<Size, Refusal>
    ensures { told result ≡ measured_told sheet.now }
{
    sheets::readable(sheet)?;
    let d = delimiters();
    let mut nothing = [0u8; 0];
    compose::pass(&mut nothing, sheet, d, false)
}

// 44, 45, or the message of a sheet that was judged and whose message has this size.
fn write(out: &mut [u8], sheet: &[u8], size: Size) -> Result<usize, Refusal>
    requires { gives size ≡ measured_told sheet.now }
    ensures { MessageWritten sheet.now out.old result out.new }
{
    let bytes = size.bytes;
    if (32768 < bytes) | (512 < size.segments) {
        return Err(sheets::refused(Kind::Overflow, 0));
    }
    if out.len() < bytes {
        return Err(sheets::refused(Kind::Room, 0));
    }
    let d = delimiters();
    let _ = compose::pass(out, sheet, d, true);
    Ok(bytes)
}

// Sheet to message.
pub fn to_message(sheet: &[u8], out: &mut [u8]) -> Result<usize, Refusal>
    ensures { MessageWritten sheet.now out.old result out.new }
{
    let size = measure(sheet)?;
    write(out, sheet, size)
}
