// What a program does around its call: its input is read whole or not at all, its output is handed over whole or told as failed, and wrong arguments are answered by how it
// is called. No contract can say what is read or written; what fails is told on standard error, with the system's reason.
#![tactic(auto)]

pub mod file;

ghost use Rattle.std.specs.Prelude.{◌≡◌, ◌≤◌, length, take, IfOk};
ghost use Rattle.program.specs.Reading.{brought, ending_of, InBuffer, NineDigits};

use std::env::FillError;
use std::fs::{File, OpenOptions};
use std::io::{IsTerminal, Read, Write};
use std::rt::Env;
use std::{fs, io};

// A program: the system that it runs on, its name, and how it is called.
#[derive(Clone, Copy)]
pub struct Program<'a> {
    pub rt: &'a HostRuntime,
    pub name: &'a str,
    pub usage: &'a str,
}

// What stopped a program, and is told already.
#[derive(Clone, Copy)]
pub struct Told;

// ---- input
impl Program<'_> {
    // Reads the file that the last argument names, or standard input where there is none: so many bytes, at the start of the lent buffer. Before it stand `others` arguments,
    // the program's own name among them.
    pub fn read_input(&self, others: usize, buf: &mut [u8]) -> Result<usize, Told>
        ensures { InBuffer (length buf.new) result }
    {
        match self.arg_count().checked_sub(others) {
            Some(0) => self.read_standard(buf),
            Some(1) => self.read_named(others, buf),
            _ => Err(self.explain()),
        }
    }

    fn read_standard(&self, buf: &mut [u8]) -> Result<usize, Told>
        ensures { InBuffer (length buf.new) result }
    {
        let mut input = self.rt.stdin();
        if input.is_terminal() {
            self.say(self.name.as_bytes());
            self.say(b": waiting for standard input\n");
        }
        self.read_all(b"standard input", &mut input, buf)
    }

    // A word that begins with - names no file: ./-x does.
    fn read_named(&self, at: usize, buf: &mut [u8]) -> Result<usize, Told>
        ensures { InBuffer (length buf.new) result }
    {
        let mut room = [0u8; 4096];
        let Ok(n) = self.rt.arg(at, &mut room) else {
            return Err(self.fail(b"FILE", &name_too_long()));
        };
        let path = &room[..n];
        if path.starts_with(b"-") {
            return Err(self.explain());
        }
        let mut file = open(self.rt, path).map_err(|error| self.fail(path, &error))?;
        self.read_all(path, &mut file, buf)
    }

    // Reads until the input ends or the buffer is full. A `while`, since a read brings as many bytes as it likes, and std's `read_to_end` allocates.
    #[tactic(auto, using(crate::proofs::Laws::ending_within))]
    fn read_all<R: Read>(&self, file: &[u8], reader: &mut R, buf: &mut [u8]) -> Result<usize, Told>
        ensures { InBuffer (length buf.new) result }
    {
        let mut done = 0;
        while done < buf.len() {
            match reader.read(&mut buf[done..]) {
                Ok(more) if more > 0 => done += more,
                answer => return self.ending(file, answer, done),
            }
        }
        Ok(done)
    }

    // What a read that brought nothing says, behind so many bytes: that the input ends with them.
    #[tactic(auto, unfolding(crate::specs::Reading::brought, crate::specs::Reading::ending_of))]
    fn ending(&self, file: &[u8], answer: io::Result<usize>, done: usize) -> Result<usize, Told>
        ensures { result ≡ ending_of answer done }
    {
        self.brought(file, answer).and(Ok(done))
    }

    // What a read brings, which is nothing at the end of the input. A failure is told, and never taken for the end.
    #[tactic(auto, unfolding(crate::specs::Reading::brought))]
    fn brought(&self, file: &[u8], answer: io::Result<usize>) -> Result<usize, Told>
        ensures { result ≡ brought answer }
    {
        answer.map_err(|error| self.fail(file, &error))
    }
}

// std takes a name only as text.
fn open(rt: &HostRuntime, path: &[u8]) -> io::Result<File> {
    match str::from_utf8(path) {
        Ok(name) => File::open(rt, name),
        Err(_) => Err(io::Error::new(io::ErrorKind::InvalidInput, "the name is not UTF-8")),
    }
}

// The system's reason for a name with more bytes than it takes, ENAMETOOLONG.
fn name_too_long() -> io::Error {
    io::Error::from_raw_os_error(36)
}

// The first n bytes of a buffer; all of it where it has fewer.
pub fn front(buf: &[u8], n: usize) -> &[u8]
    ensures { result.now ≡ take n buf.now }
{
    if buf.len() < n {
        return buf;
    }
    &buf[..n]
}

// ---- what fails, and how the program is called
impl Program<'_> {
    // The program, the file, and the reason.
    pub fn fail(&self, file: &[u8], error: &io::Error) -> Told {
        self.say(self.name.as_bytes());
        self.say(b": ");
        self.say(file);
        self.say(b": ");
        self.say_reason(error);
        self.say(b"\n");
        Told
    }

    // The system's words, without the number that std puts behind them.
    fn say_reason(&self, error: &io::Error) {
        let mut text = [0u8; 320];
        let n = put_error(&mut text, error);
        let words = front(&text, n);
        let end = words
            .windows(NUMBER.len())
            .position(|w| w == NUMBER)
            .unwrap_or(n);
        self.say(front(words, end));
    }

    pub fn explain(&self) -> Told {
        self.say(self.usage.as_bytes());
        Told
    }

    // Words on standard error. Where that fails, nothing is left to tell it on.
    pub fn say(&self, words: &[u8]) {
        let _ = self.rt.stderr().write_all(words);
    }
}

const NUMBER: &[u8] = b" (os error ";

// How many bytes an error's text has, which is put at the front of the buffer.
fn put_error(text: &mut [u8], error: &io::Error) -> usize {
    let room = text.len();
    let mut rest = text;
    let _ = write!(rest, "{error}");
    room.saturating_sub(rest.len())
}

// ---- the arguments
impl Program<'_> {
    // How many there are, the program's own name among them.
    pub fn arg_count(&self) -> usize {
        (0..usize::MAX)
            .find(|i| !self.is_given(*i))
            .unwrap_or(usize::MAX)
    }

    fn is_given(&self, i: usize) -> bool {
        !matches!(self.rt.arg(i, &mut []), Err(FillError::NotPresent))
    }

    // An argument that is a whole number of at most nine digits; where it isn't, the program is explained.
    pub fn number_at(&self, i: usize) -> Result<usize, Told>
        ensures { IfOk result (λ n. n ≤ 999999999) }
    {
        self.given_number(i).ok_or_else(|| self.explain())
    }

    fn given_number(&self, i: usize) -> Option<usize>
        ensures { NineDigits result }
    {
        let mut digits = [0u8; 9];
        let n = self.rt.arg(i, &mut digits).ok()?;
        read_number(&digits[..n])
    }

    // An argument in the lent room; where it has more bytes, or is none, the program is explained.
    pub fn text_at<'b>(&self, i: usize, room: &'b mut [u8]) -> Result<&'b [u8], Told>
        ensures { IfOk result (λ text. length text.now ≤ length room.old) }
    {
        match self.rt.arg(i, room) {
            Ok(n) => Ok(&room[..n]),
            Err(_) => Err(self.explain()),
        }
    }
}

// At least one digit, and nothing else: `parse` alone takes a sign, too.
fn read_number(digits: &[u8]) -> Option<usize>
    ensures { NineDigits result }
{
    if !digits.iter().all(u8::is_ascii_digit) {
        return None;
    }
    let text = str::from_utf8(digits).ok()?;
    text.parse::<usize>().ok().filter(|n| *n <= 999_999_999)
}

// ---- output
impl Program<'_> {
    // Hands bytes, and what ends them, to standard output.
    pub fn output(&self, bytes: &[u8], end: &[u8]) {
        if let Err(error) = self.hand_over(bytes, end) {
            self.fail(b"standard output", &error);
        }
    }

    fn hand_over(&self, bytes: &[u8], end: &[u8]) -> io::Result<()> {
        let mut out = self.rt.stdout();
        out.write_all(bytes)?;
        out.write_all(end)?;
        // fails where standard output is closed, even if there was nothing to write; a full device, too, refuses that
        passing(out.write(b"").map(|_| ()), io::ErrorKind::StorageFull)?;
        match output_file(self.rt) {
            // what can't be synced is written
            Some(file) => passing(file.sync_data(), io::ErrorKind::InvalidInput),
            None => Ok(()),
        }
    }

    // Hands bytes to standard output where more are to come.
    pub fn write(&self, bytes: &[u8]) -> Result<(), Told> {
        self.rt
            .stdout()
            .write_all(bytes)
            .map_err(|error| self.fail(b"standard output", &error))
    }
}

// An answer, but for failures of one kind.
fn passing(answer: io::Result<()>, kind: io::ErrorKind) -> io::Result<()> {
    match answer {
        Err(error) if error.kind() == kind => Ok(()),
        other => other,
    }
}

// Standard output, where that is a file: some file systems tell a full disk only when a file is synced.
fn output_file(rt: &HostRuntime) -> Option<File> {
    let about = fs::metadata(rt, OUTPUT).ok()?;
    if !about.is_file() {
        return None;
    }
    OpenOptions::new().write(true).open(rt, OUTPUT).ok()
}

const OUTPUT: &str = "/dev/stdout";
