// Checks the message on standard input, or in the file that is named: prints the counts of its specimens, orders and results, or its refusal.
#![tactic(auto)]

use program::{Program, Told, front};

fn main(rt: HostRuntime) {
    let program = Program {
        rt: &rt,
        name: "check_message",
        usage: "usage: check_message [FILE]\n",
    };
    // one byte past the limit, so that a longer message gives 10
    let mut message = [0u8; 32769];
    let _ = check(&program, &mut message);
}

fn check(program: &Program, message: &mut [u8]) -> Result<(), Told> {
    let n = program.read_input(1, message)?;
    let m = front(message, n);
    match oul::check(m) {
        Ok(counts) => program.output(printed::of_counts(counts).as_bytes(), b""),
        Err(refusal) => {
            refusals::tell_message(program, m, refusal);
        }
    }
    Ok(())
}
