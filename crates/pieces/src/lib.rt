// The pieces of a text between separators that act, by their places.
#![tactic(auto)]

ghost use Rattle.std.specs.Prelude.{◌≡◌, ◌+◌, ◌<◌, ◌≤◌, ◌^◌, length};
ghost use Rattle.rules.specs.Proper.{Delim};
ghost use Rattle.pieces.specs.Pieces.{PieceOf, Nearest};

use rules::Span;

// A piece: which one it is, from 0, where it begins, and how long it is.
#[derive(Clone, Copy)]
pub struct Piece {
    pub number: usize,
    pub start: usize,
    pub len: usize,
}

// The n-th piece, from 0; the last where there are fewer.
pub fn reach(s: &[u8], sep: u8, n: usize) -> Piece
    requires { Delim sep }
    ensures nearest { Nearest sep n s.now result.number result.start result.len }
    ensures within { result.start + result.len ≤ length s.now }
{
    let mut p = Piece {
        number: 0,
        start: 0,
        len: scan::find(s, 0x0D, sep),
    };

    // Not a `for` up to n: the pieces are counted by their own numbers, and the walk may end before the n-th.
    while p.number < n {
        let end = p.start + p.len;
        if end == s.len() {
            return p;
        }
        let start = end + 1;
        let len = scan::find(&s[start..], 0x0D, sep);
        p = following(p, start, len);
    }
    p
}

// The piece after p, by its own place. An empty piece counts like any other.
fn following(p: Piece, start: usize, len: usize) -> Piece
    requires { p.number + 1 < 2 ^ 64 }
    ensures { (result.number ≡ p.number + 1) × (result.start ≡ start) × (result.len ≡ len) }
{
    let number = p.number + 1;
    Piece { number, start, len }
}

// The n-th piece, from 0; an absent one is empty, at the end.
pub fn nth_piece(s: &[u8], sep: u8, n: usize) -> Span
    requires { Delim sep }
    ensures piece_of { PieceOf sep n s.now result.start result.len }
    ensures within { result.start + result.len ≤ length s.now }
{
    let p = reach(s, sep, n);
    if p.number < n {
        return Span {
            start: s.len(),
            len: 0,
        };
    }
    Span {
        start: p.start,
        len: p.len,
    }
}
