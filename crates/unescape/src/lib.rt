// A component without its escapes: "the escape byte, one of F S T R E, the escape byte".
#![tactic(auto, unfolding(scan::specs::Scan::meets_of, crate::specs::Unescaped::turn_of, rules::specs::Shift::is_one, rules::specs::Shift::mark, crate::specs::Unescaped::named_of))]

ghost use Rattle.std.specs.Prelude.{◌≡◌, ◌+◌, ◌<◌};
ghost use Rattle.rules.specs.Shift.{mark, met};
ghost use Rattle.rules.specs.Escape.{unescape};
ghost use Rattle.unescape.specs.Unescaped.{turn_of, named_of, byte_at, kept_len, kept_buf, answer_of, Fits, BufferHolds};

use rules::{Delims, Mode};

// Where a reader of a component stands: in the text, after an escape byte, after its letter, or past a fault.
#[derive(Clone, Copy)]
pub enum At {
    Plain,
    Opened,
    Named(u8),
    Broken,
}

// Why a buffer doesn't hold a component without its escapes: it has a bad one, or there are this many bytes.
#[derive(Clone, Copy)]
pub enum NotHeld {
    Faulty,
    Over(usize),
}

// After the letter of an escape.
fn named(mode: Mode, b: u8, d: Delims) -> At
    ensures { result ≡ named_of d (mark mode b) }
{
    if mode != Mode::One {
        return At::Broken;
    }
    match b {
        b'F' => At::Named(d.field),
        b'S' => At::Named(d.component),
        b'T' => At::Named(d.sub),
        b'R' => At::Named(d.repetition),
        b'E' => At::Named(d.escape),
        _ => At::Broken,
    }
}

// After one byte more.
fn turn(at: At, mode: Mode, b: u8, d: Delims) -> At
    ensures value { result ≡ turn_of d at (mark mode b) }
    ensures byte { b < 256 }
{
    match at {
        At::Plain => {
            if scan::meets(mode, b, d.escape) {
                return At::Opened;
            }
            if scan::meets(mode, b, d.sub) {
                return At::Broken;
            }
            At::Plain
        }
        At::Opened => named(mode, b, d),
        At::Named(_) => {
            if scan::meets(mode, b, d.escape) {
                return At::Plain;
            }
            At::Broken
        }
        At::Broken => At::Broken,
    }
}

// The byte that a step into the text gives.
fn given(at: At, b: u8) -> u8
    ensures { result ≡ byte_at at b }
{
    match at {
        At::Named(v) => v,
        _ => b,
    }
}

// Keeps the byte v at k where the step to t gives one, as far as the buffer reaches.
fn keep(buf: &mut [u8], k: usize, v: u8, t: At) -> usize
    requires { k + 1 < 18446744073709551616 }
    ensures { (result ≡ kept_len t k) × (buf.new ≡ kept_buf t k v buf.old) }
{
    match t {
        At::Plain => {
            if k < buf.len() {
                buf[k] = v;
            }
            k + 1
        }
        _ => k,
    }
}

fn answer(at: At, k: usize, room: usize) -> Result<usize, NotHeld>
    ensures { result ≡ answer_of at k room }
{
    match at {
        At::Plain => {
            if k <= room {
                return Ok(k);
            }
            Err(NotHeld::Over(k))
        }
        _ => Err(NotHeld::Faulty),
    }
}

// A component without its escapes, as far as the buffer reaches; how many bytes there are, where it holds them.
pub fn unescape_into(raw: &[u8], d: Delims, buf: &mut [u8]) -> Result<usize, NotHeld>
    ensures fits { Fits result (unescape d (met raw.now)) buf.new }
    ensures whole { BufferHolds (unescape d (met raw.now)) buf.old buf.new }
{
    let mut at = At::Plain;
    let mut mode = Mode::One;
    let mut k: usize = 0;
    for b in raw {
        let t = turn(at, mode, *b, d);
        k = keep(buf, k, given(at, *b), t);
        at = t;
        mode = scan::step(mode, *b, 0x0D);
    }
    answer(at, k, buf.len())
}
