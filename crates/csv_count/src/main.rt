// Counts the sheets of the commercial centre's file on standard input, or in the file that is named: prints `sheets=` with the number, or the file's refusal.
#![tactic(auto)]

use program::{Program, Told, file, front};

fn main(rt: HostRuntime) {
    let program = Program {
        rt: &rt,
        name: "csv_count",
        usage: "usage: csv_count [FILE]\n",
    };
    let mut text = file::room();
    let _ = count(&program, &mut text);
}

fn count(program: &Program, text: &mut [u8]) -> Result<(), Told> {
    let n = program.read_file(1, text)?;
    let file = front(text, n);
    match oul::csv_count(file) {
        Ok(sheets) => program.output(printed::of_number(b"sheets=", sheets.count).as_bytes(), b""),
        Err(fault) => {
            refusals::tell_file(program, b"", file, fault);
        }
    }
    Ok(())
}
