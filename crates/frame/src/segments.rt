// The segments of a message, one after another: "the rest of the message after each segment's start is passed on without copying".
ghost use Rattle.std.specs.Iterator.{item_count};
ghost use Rattle.frame.specs.Taken.{Takes, left};

// What is left of a message.
#[derive(Drop)]
pub struct Segments<'a> {
    pub rest: &'a [u8],
}

impl<'a> Iterator for Segments<'a> {
    type Item = &'a [u8];

    ghost next_gives = { Takes };

    ghost remaining = { item_count left };

    // The next segment, without its 0D; nothing where no 0D is left.
    fn next(&mut self) -> Option<&'a [u8]> {
        let rest = self.rest;
        let n = plain_bytes::before(rest, 0x0D);
        if n == rest.len() {
            return None;
        }
        self.rest = &rest[n + 1..];
        Some(&rest[..n])
    }
}
