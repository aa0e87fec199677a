// The commercial centre's file, read whole or not at all.
ghost use Rattle.std.specs.Prelude.{◌≡◌, ◌≤◌, length};
ghost use Rattle.program.specs.Reading.{InBuffer};

use crate::{Program, Told};

// A buffer for the longest file that the programs take, and one byte more.
pub fn room() -> [u8; 4194305]
    ensures { length result ≡ 4194305 }
{
    [0; 4194305]
}

impl Program<'_> {
    // Reads the file in the way of `read_input`, into a buffer that is longer by one byte than the longest file.
    pub fn read_file(&self, others: usize, buf: &mut [u8]) -> Result<usize, Told>
        ensures { InBuffer (length buf.new) result }
    {
        let n = self.read_input(others, buf)?;
        if n == buf.len() {
            self.say(self.name.as_bytes());
            self.say(b": the file has more than 4,194,304 bytes\n");
            return Err(Told);
        }
        Ok(n)
    }
}
