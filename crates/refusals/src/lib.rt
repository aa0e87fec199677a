// How a program tells a refusal: three lines on standard output, and a line in words on standard error. Each function tells how many bytes the three lines have.
#![tactic(auto)]

ghost use Rattle.std.specs.Prelude.{◌≡◌, length};
ghost use Rattle.rules.specs.Lists.{bytes};
ghost use Rattle.printed.specs.Printed.{refusal_text, fault_text};

use csv_rules::FileFault;
use program::{Program, Told, front};
use rules::{Kind, Name, Refusal};
use spot::Spot;

// ---- of a message
pub fn tell_message(program: &Program, m: &[u8], refusal: Refusal) -> usize
    ensures { result ≡ length (refusal_text (bytes "segment=") refusal) }
{
    let lines = printed::of_message(refusal);
    program.output(lines.as_bytes(), b"");
    say_with_spot(program, m, refusal, segment_name(m, refusal.segment));
    lines.as_bytes().len()
}

// The name of the known segment with this ordinal, `Other` where there is none.
fn segment_name(m: &[u8], ordinal: usize) -> Name {
    oul::known_segment(m, ordinal).map_or(Name::Other, |segment| segment.name)
}

// ---- of a sheet
pub fn tell_sheet(program: &Program, sheet: &[u8], refusal: Refusal) -> usize
    ensures { result ≡ length (refusal_text (bytes "line=") refusal) }
{
    let n = three_lines(program, b"", refusal);
    say_with_spot(program, sheet, refusal, Name::Other);
    n
}

// The three lines, behind `before`.
fn three_lines(program: &Program, before: &[u8], refusal: Refusal) -> usize
    ensures { result ≡ length (refusal_text (bytes "line=") refusal) }
{
    let lines = printed::of_sheet(refusal);
    program.output(before, lines.as_bytes());
    lines.as_bytes().len()
}

// ---- of the commercial centre's file
// A file's fault: three lines behind `before`, and where it is met in words.
pub fn tell_file(program: &Program, before: &[u8], file: &[u8], fault: FileFault) -> usize
    ensures { result ≡ length (fault_text fault) }
{
    let lines = printed::of_fault(fault);
    program.output(before, lines.as_bytes());
    program.say(in_words::of_fault(fault, oul::csv_spot(file)).as_bytes());
    lines.as_bytes().len()
}

// A sheet of a file.
pub fn tell_csv_sheet(program: &Program, refusal: Refusal) -> usize
    ensures { result ≡ length (refusal_text (bytes "line=") refusal) }
{
    let n = three_lines(program, b"", refusal);
    say_without_spot(program, refusal);
    n
}

// The k-th of several sheets, which is named before.
pub fn tell_one(program: &Program, k: usize, refusal: Refusal) -> usize
    ensures { result ≡ length (refusal_text (bytes "line=") refusal) }
{
    let n = three_lines(
        program,
        printed::of_number(b"sheet=", k).as_bytes(),
        refusal,
    );
    let _ = eprint!(program.rt; "sheet {k}: ");
    say_without_spot(program, refusal);
    n
}

// ---- the words
fn say_with_spot(program: &Program, text: &[u8], refusal: Refusal, name: Name) {
    let number = rules::paper_number(refusal.kind);
    say(program, refusal, name, oul::spot_of(text, number));
}

// The sheet that is refused isn't kept, so that no byte of it can be named: 41 is a fault of what the caller gives.
fn say_without_spot(program: &Program, refusal: Refusal) {
    match refusal.kind {
        Kind::NoOrdinal => program.say(b"the file has no such sheet\n"),
        Kind::SheetBytes => program.say(
            b"MODE, SENT or CONTROL has a byte or a shift that is not allowed\n",
        ),
        _ => say(program, refusal, Name::Other, Spot { line: 0, byte: 0 }),
    }
}

fn say(program: &Program, refusal: Refusal, name: Name, spot: Spot) {
    program.say(in_words::of_refusal(refusal, name, spot).as_bytes());
}

// ---- a conversion
// Reads a text, and hands over what it is converted to in the lent room; a refusal is told.
pub fn convert<C, T>(
    program: &Program,
    text: &mut [u8],
    room: &mut [u8],
    call: C,
    tell: T,
) -> Result<(), Told>
where
    C: Fn(&[u8], &mut [u8]) -> Result<usize, Refusal>,
    T: Fn(&Program, &[u8], Refusal) -> usize,
    requires { (C.IsAlwaysCallable call) × (T.IsAlwaysCallable tell) }
{
    let n = program.read_input(1, text)?;
    let text = front(text, n);
    match call(text, room) {
        Ok(n) => program.output(front(room, n), b""),
        Err(refusal) => {
            tell(program, text, refusal);
        }
    }
    Ok(())
}
