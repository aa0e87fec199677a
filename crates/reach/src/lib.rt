// Writing as far as a lent buffer reaches, and no further: each routine tells where its text ends, which is the buffer's end where it is cut.
#![tactic(auto)]

ghost use Rattle.std.specs.Prelude.{[], ◌∷◌, ◌≤◌, length};
ghost use Rattle.reach.specs.Reach.{Adds};

#[tactic(auto, using(crate::proofs::Laws::byte_in, crate::proofs::Laws::byte_out))]
pub fn put_byte(out: &mut [u8], at: usize, b: u8) -> usize
    requires { at ≤ length out.old }
    ensures { Adds at out.old (b ∷ []) result out.new }
{
    if at < out.len() {
        out[at] = b;
        return at + 1;
    }
    at
}

#[tactic(auto, using(crate::proofs::Laws::rest_room))]
pub fn put(out: &mut [u8], at: usize, bytes: &[u8]) -> usize
    requires { at ≤ length out.old }
    ensures { Adds at out.old bytes.now result out.new }
{
    let n = bytes.len().min(out.len() - at);
    writer::put(&mut out[at..], &bytes[..n]);
    at + n
}
