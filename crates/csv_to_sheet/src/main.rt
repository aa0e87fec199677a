// Prints one sheet of the commercial centre's file on standard input, or in the file that is named: the WHICH-th, from 1, with the MODE, SENT and CONTROL that are given; or
// its refusal.
#![tactic(auto)]

use csv_rules::NotMade;
use program::{Program, Told, file, front};

fn main(rt: HostRuntime) {
    let program = Program {
        rt: &rt,
        name: "csv_to_sheet",
        usage: "usage: csv_to_sheet WHICH MODE SENT CONTROL [FILE] (WHICH: a whole number of at most nine digits)\n",
    };
    let mut text = file::room();
    let _ = convert(&program, &mut text);
}

fn convert(program: &Program, text: &mut [u8]) -> Result<(), Told> {
    let which = program.number_at(1)?;
    let mut mode = [0u8; 4096];
    let mode = program.text_at(2, &mut mode)?;
    let mut sent = [0u8; 4096];
    let sent = program.text_at(3, &mut sent)?;
    let mut control = [0u8; 4096];
    let control = program.text_at(4, &mut control)?;
    let n = program.read_file(5, text)?;
    let file = front(text, n);
    // as long as a sheet may be, so that none gives 45
    let mut sheet = [0u8; 65536];
    match oul::csv_sheet(file, which, mode, sent, control, &mut sheet) {
        Ok(n) => program.output(front(&sheet, n), b""),
        Err(NotMade::Unfit(refusal)) => {
            refusals::tell_csv_sheet(program, refusal);
        }
        Err(NotMade::Faulty(fault)) => {
            refusals::tell_file(program, b"", file, fault);
        }
    }
    Ok(())
}
