// What the programs share: lists of requests and their answers, inputs that are read whole, what is said on standard error where
// something has no answer, and the FNV-1a digest of 64 bits.
#![tactic(auto)]

ghost use Rattle.std.specs.Prelude.{◌≡◌, ◌≤◌, ◌-◌, ◌++◌, length, replicate, cond, IfOk};
ghost use Rattle.std.specs.Int.{w16, w64, to_le_bytes};
ghost use Rattle.wire.specs.Fnv.{of_nothing, with_byte, with_bytes};

use std::fmt::InlineText;
use std::io::{Read, Write};
use std::{fmt, io};

// What answers requests of eight bytes, each with N bytes.
pub trait Answers<const N: usize> {
    fn answer(&mut self, request: [u8; 8]) -> [u8; N];
}

// Why the answers to a list of requests end: the list ends within a request, after so many of its bytes; a read failed; a write
// failed.
#[derive(Clone, Copy, Debug, PartialEq, Eq)]
pub enum Stop {
    Cut(usize),
    Unread,
    Unwritten,
}

impl fmt::Display for Stop {
    fn fmt<W: fmt::Write>(&self, f: &mut fmt::Formatter<W>) -> fmt::Result {
        match *self {
            Stop::Cut(over) => write!(
                f,
                "the input ends within a request, after {over} of its 8 bytes: it has no answer"
            ),
            Stop::Unread => f.write_str(
                "the input could not be read to its end: the answers end with the last whole request that came",
            ),
            Stop::Unwritten => f.write_str(
                "an answer could not be written: the answers end before the requests do",
            ),
        }
    }
}

impl From<io::Error> for Stop {
    fn from(_e: io::Error) -> Stop {
        Stop::Unwritten
    }
}

// Why an input that is read whole has no answer, or not all of it: a read failed; it is longer than 65536 bytes; it ends within an
// edit of two bytes; a write failed. No case says what one of `Stop` says, and no program meets both: one enum would have all seven.
#[derive(Clone, Copy, Debug, PartialEq, Eq)]
pub enum NoAnswer {
    Unread,
    Long,
    Cut,
    Unwritten,
}

impl fmt::Display for NoAnswer {
    fn fmt<W: fmt::Write>(&self, f: &mut fmt::Formatter<W>) -> fmt::Result {
        f.write_str(match *self {
            NoAnswer::Unread => "the input could not be read to its end: there is no answer",
            NoAnswer::Long => "the input is longer than 65536 bytes: there is no answer",
            NoAnswer::Cut => "the input ends within an edit: there is no answer",
            NoAnswer::Unwritten => "the answer could not be written to its end",
        })
    }
}

impl From<io::Error> for NoAnswer {
    fn from(_e: io::Error) -> NoAnswer {
        NoAnswer::Unwritten
    }
}

// Reads until the buffer is full, the input ends or a read fails, and answers how many bytes came: they stand at its start. A number and no slice,
// as std's `read` has it, so that the caller's buffer stays its own.
pub fn read_full(input: &mut impl Read, buffer: &mut [u8]) -> usize
    ensures { result ≤ length buffer.new }
{
    let mut done = 0;
    // No `for`: a read brings any number of bytes.
    while done < buffer.len() {
        match input.read(&mut buffer[done..]) {
            Ok(0) | Err(_) => return done,
            Ok(n) => done += n,
        }
    }
    done
}

// Whether a read that came short came to the end of the input. `read_full` stops there and at a failed read alike, so one byte
// more is asked for: only at the end does none come.
pub fn is_at_end(input: &mut impl Read) -> bool {
    let mut byte = [0u8; 1];
    matches!(input.read(&mut byte), Ok(0))
}

// Reads an input whole, or as much of it as the buffer takes: so many bytes, at its start, as `read_full`.
pub fn read_input(input: &mut impl Read, buffer: &mut [u8]) -> Result<usize, NoAnswer>
    ensures { IfOk result (λ n. n ≤ length buffer.new) }
{
    let n = read_full(input, buffer);
    if n < buffer.len() && !is_at_end(input) {
        return Err(NoAnswer::Unread);
    }
    Ok(n)
}

// Says something on standard error, after the program's name: any bytes. Where that fails too, nothing is left to do.
pub fn say(err: &mut impl Write, program: &[u8], line: &[u8]) {
    let _ = err.write_all(program);
    let _ = err.write_all(line);
}

// Says why something has no answer, in a line of its own: the words and the line's end have 256 bytes at most, and longer ones are cut.
pub fn say_why(err: &mut impl Write, program: &str, why: &impl fmt::Display) {
    let line = InlineText::<256>::of(format_args!(": {why}\n"));
    say(err, program.as_bytes(), line.as_str().as_bytes());
}

// An answer that begins with these bytes: 0s stand behind them.
pub fn padded<const N: usize>(bytes: &[u8]) -> [u8; N]
    requires { length bytes.now ≤ N }
    ensures { result ≡ bytes.now ++ replicate (N - length bytes.now) 0 }
{
    let mut answer = [0; N];
    answer[..bytes.len()].copy_from_slice(bytes);
    answer
}

// Answers requests in order, each with 16 bytes at most, and writes the answers a buffer at a time.
fn answer_all<const N: usize>(
    out: &mut impl Write,
    desk: &mut impl Answers<N>,
    requests: &[[u8; 8]],
) -> io::Result<()>
    requires { N ≤ 16 }
{
    let mut answers = [[0u8; N]; 4096];
    for part in requests.chunks(4096) {
        for (request, answer) in part.iter().zip(answers.iter_mut()) {
            *answer = desk.answer(*request);
        }
        out.write_all(answers[..part.len()].as_flattened())?;
    }
    Ok(())
}

// Answers the requests of a buffer, and whether the list ends with them, which a full buffer does not tell: a question, and so a `bool`.
fn turn<const N: usize>(
    input: &mut impl Read,
    out: &mut impl Write,
    desk: &mut impl Answers<N>,
) -> Result<bool, Stop>
    requires { N ≤ 16 }
{
    let mut buffer = [0u8; 65536];
    let came = read_full(input, &mut buffer);
    let is_full = came == buffer.len();
    let is_over = !is_full && is_at_end(input);
    let (requests, over) = buffer[..came].as_chunks::<8>();
    answer_all(out, desk, requests)?;
    if !is_full && !is_over {
        return Err(Stop::Unread);
    }
    if !over.is_empty() {
        return Err(Stop::Cut(over.len()));
    }
    Ok(is_over)
}

// Answers a list of requests to its end. That an answer has 16 bytes at most stands in clauses: a const parameter has no bound of its own.
pub fn answer_list<const N: usize>(
    input: &mut impl Read,
    out: &mut impl Write,
    desk: &mut impl Answers<N>,
) -> Result<(), Stop>
    requires { N ≤ 16 }
{
    // Nothing says that an input ends, and a loop without an end needs a handle: so the turns are counted, up to a number that no run
    // comes to.
    for _ in 0..u64::MAX {
        if turn(input, out, desk)? {
            break;
        }
    }
    Ok(())
}

// The digest of the bytes taken in so far.
#[derive(Clone, Copy, Debug, PartialEq, Eq)]
pub struct Digest(u64);

impl Digest {
    // The digest of nothing.
    pub fn new() -> Self
        ensures { result ≡ of_nothing }
    {
        Digest(0xCBF2_9CE4_8422_2325)
    }

    // With one byte more.
    pub fn byte(self, byte: u8) -> Self
        ensures { result ≡ with_byte self byte }
    {
        Digest((self.0 ^ u64::from(byte)).wrapping_mul(0x100_0000_01B3))
    }

    // With more bytes.
    pub fn bytes(self, bytes: &[u8]) -> Self
        ensures { result ≡ with_bytes self bytes.now }
    {
        bytes.iter().fold(self, |digest, byte| digest.byte(*byte))
    }

    // With a word, low byte first.
    pub fn word(self, word: u16) -> Self
        ensures { result ≡ with_bytes self (to_le_bytes w16 word) }
    {
        self.bytes(&word.to_le_bytes())
    }

    // With a flag, 0 or 1.
    pub fn flag(self, yes: bool) -> Self
        ensures { result ≡ with_byte self (cond yes 1 0) }
    {
        self.byte(u8::from(yes))
    }

    // The digest as bytes, the lowest first.
    pub fn to_bytes(self) -> [u8; 8]
        ensures { result ≡ to_le_bytes w64 self.0 }
    {
        self.0.to_le_bytes()
    }
}
