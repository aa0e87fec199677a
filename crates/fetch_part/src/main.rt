// Fetches a part of the message on standard input, or in the file that is named, by its ordinal, field and component, the first three arguments: prints its bytes and 0A, or
// its refusal.
#![tactic(auto)]

use program::{Program, Told, front};

fn main(rt: HostRuntime) {
    let program = Program {
        rt: &rt,
        name: "fetch_part",
        usage: "usage: fetch_part ORDINAL FIELD COMPONENT [FILE] (whole numbers of at most nine digits)\n",
    };
    // one byte past the limit, so that a longer message gives 10
    let mut message = [0u8; 32769];
    let _ = fetch(&program, &mut message);
}

fn fetch(program: &Program, message: &mut [u8]) -> Result<(), Told> {
    let ordinal = program.number_at(1)?;
    let field = program.number_at(2)?;
    let component = program.number_at(3)?;
    let n = program.read_input(4, message)?;
    let m = front(message, n);
    let answer = oul::locate(m, ordinal, field, component);
    match answer {
        Ok(_) => program.output(oul::bytes_of(m, answer), b"\n"),
        Err(refusal) => {
            refusals::tell_message(program, m, refusal);
        }
    }
    Ok(())
}
