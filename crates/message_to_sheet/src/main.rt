// Turns the message on standard input, or in the file that is named, into its sheet on standard output; prints its refusal instead.
#![tactic(auto)]

use program::Program;

fn main(rt: HostRuntime) {
    let program = Program {
        rt: &rt,
        name: "message_to_sheet",
        usage: "usage: message_to_sheet [FILE]\n",
    };
    // one byte past the limit, so that a longer message gives 10
    let mut message = [0u8; 32769];
    // as long as a sheet may be, so that none gives 45
    let mut sheet = [0u8; 65536];
    let _ = refusals::convert(
        &program,
        &mut message,
        &mut sheet,
        oul::to_sheet,
        refusals::tell_message,
    );
}
