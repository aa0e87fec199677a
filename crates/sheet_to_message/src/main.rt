// Turns the sheet on standard input, or in the file that is named, into a message on standard output; prints its refusal instead.
#![tactic(auto)]

use program::Program;

fn main(rt: HostRuntime) {
    let program = Program {
        rt: &rt,
        name: "sheet_to_message",
        usage: "usage: sheet_to_message [FILE]\n",
    };
    // one byte past the limit, so that a longer sheet gives 40
    let mut sheet = [0u8; 65537];
    // as long as a message may be, so that none gives 45
    let mut message = [0u8; 32768];
    let _ = refusals::convert(
        &program,
        &mut sheet,
        &mut message,
        oul::to_message,
        refusals::tell_sheet,
    );
}
