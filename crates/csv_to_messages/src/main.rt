// Turns the commercial centre's file on standard input, or in the file that is named, into the messages of all its sheets, one after the other; the k-th has the control that
// is given followed by k. Where the file or a sheet is refused it prints the number of the sheet (0 for the file's own) and the refusal, and nothing of any message: all sheets
// are tried before the first is written.
#![tactic(auto)]

ghost use Rattle.std.specs.Prelude.{◌≡◌, ◌++◌, ◌≤◌, length};
ghost use Rattle.rules.specs.Lists.{decimal};

use csv_rules::{CsvSheets, NotMade};
use printed::text::Text;
use program::{Program, Told, file, front};

// MODE, SENT and CONTROL as they are given.
#[derive(Clone, Copy)]
struct Given<'a> {
    mode: &'a [u8],
    sent: &'a [u8],
    control: &'a [u8],
}

fn main(rt: HostRuntime) {
    let program = Program {
        rt: &rt,
        name: "csv_to_messages",
        usage: "usage: csv_to_messages MODE SENT CONTROL [FILE]\n",
    };
    let mut text = file::room();
    let _ = convert(&program, &mut text);
}

// A file that is right: every sheet is tried, and then every message written.
fn convert(program: &Program, text: &mut [u8]) -> Result<(), Told> {
    let mut mode = [0u8; 4096];
    let mut sent = [0u8; 4096];
    let mut control = [0u8; 4096];
    let given = Given {
        mode: program.text_at(1, &mut mode)?,
        sent: program.text_at(2, &mut sent)?,
        control: program.text_at(3, &mut control)?,
    };
    let n = program.read_file(4, text)?;
    let file = front(text, n);
    match oul::csv_count(file) {
        Ok(sheets) => {
            each(program, file, sheets, given, |_| Ok(()))?;
            each(
                program,
                file,
                sheets,
                given,
                |message| program.write(message),
            )?;
            program.output(b"", b"");
        }
        Err(fault) => {
            refusals::tell_file(program, b"sheet=0\n", file, fault);
        }
    }
    Ok(())
}

// The message of every sheet in turn, handed on. What is refused, or can't be handed on, is told, and ends it.
fn each<F: Fn(&[u8]) -> Result<(), Told>>(
    program: &Program,
    file: &[u8],
    sheets: CsvSheets,
    given: Given,
    hand_on: F,
) -> Result<(), Told>
    requires callable { F.IsAlwaysCallable hand_on }
    requires short { length given.control.now ≤ 4096 }
{
    // as long as a sheet and a message may be, so that none gives 45
    let mut sheet = [0u8; 65536];
    let mut message = [0u8; 32768];
    let mut at = sheets.first;
    for k in 1..=sheets.count {
        let control = numbered(given.control, k);
        let next = oul::csv_next(
            file,
            at,
            given.mode,
            given.sent,
            control.as_bytes(),
            &mut sheet,
        );
        at = next.place;
        let n = next.made.map_err(|fault| tell(program, file, k, fault))?;
        let n = oul::to_message(front(&sheet, n), &mut message).map_err(|refusal| tell(
            program,
            file,
            k,
            refusal.into(),
        ))?;
        hand_on(front(&message, n))?;
    }
    Ok(())
}

// The control of the k-th message.
fn numbered(control: &[u8], k: usize) -> Text<4116>
    requires { length control.now ≤ 4096 }
    ensures { result ≡ control.now ++ decimal k }
{
    let mut text = Text::new();
    text.push(control);
    text.push_number(k);
    text
}

// Why the k-th message isn't made.
fn tell(program: &Program, file: &[u8], k: usize, why: NotMade) -> Told {
    match why {
        NotMade::Unfit(refusal) => refusals::tell_one(program, k, refusal),
        NotMade::Faulty(fault) => refusals::tell_file(program, b"sheet=0\n", file, fault),
    };
    Told
}
