// The lines of a capture: read from its file, each a call that is made, or an error that ends it.
use crate::desk::Desk;
use crate::trouble::Stop;
use captures::Call;
use std::io;
use std::io::{Read, Write};
use std::rt::Files;
use texts::Text;

// The longest line.
pub const LINE_BYTES: usize = 1000;

// A line as far as it was read; none where it is too long.
#[derive(Drop)]
struct Line {
    text: Option<Text<LINE_BYTES>>,
}

impl Line {
    fn new() -> Line {
        Line {
            text: Some(Text::new()),
        }
    }

    // Puts bytes behind those that were read.
    fn put(&mut self, bytes: &[u8]) {
        let Some(text) = &mut self.text else { return };
        let held = text.as_bytes().len();
        if held + bytes.len() <= LINE_BYTES {
            text.put(bytes);
        } else {
            self.text = None;
        }
    }

    // The call of a whole line.
    fn call(&self) -> Result<Option<Call>, Stop> {
        match &self.text {
            Some(text) => captures::read_line(text.as_bytes()).map_err(Stop::NoCall),
            None => Err(Stop::TooLong),
        }
    }
}

// Makes the call of a whole line.
fn make<W: Write>(
    rt: &(impl Files + Print + Eprint),
    desk: &mut Desk<'_, W>,
    line: &Line,
) -> Result<(), Stop> {
    match line.call()? {
        Some(call) => desk
            .act(rt, call)
            .map_err(|trouble| Stop::NotMade(call, trouble)),
        None => Ok(()),
    }
}

// Takes a chunk of the capture, line by line. The last may go on in the next chunk.
fn take_chunk<W: Write>(
    rt: &(impl Files + Print + Eprint),
    desk: &mut Desk<'_, W>,
    line: &mut Line,
    chunk: &[u8],
) -> Result<(), Stop> {
    for piece in chunk.split_inclusive(|byte| *byte == b'\n') {
        match piece.split_last() {
            Some((b'\n', bytes)) => {
                line.put(bytes);
                make(rt, desk, line)?;
                *line = Line::new();
                desk.line = desk.line.saturating_add(1);
            }
            _ => line.put(piece),
        }
    }
    Ok(())
}

// Draws a capture, whose last line may lack a line's end.
pub fn run<W: Write>(
    rt: &(impl Files + Print + Eprint),
    desk: &mut Desk<'_, W>,
    source: &mut impl Read,
) -> Result<(), Stop> {
    let mut line = Line::new();
    let mut chunk = [0u8; 65536];
    // Nothing says that a file ends, and a loop without an end needs a handle: so the reads are counted, up to a number that no run comes
    // to.
    for _ in 0..u64::MAX {
        let n = source.read(&mut chunk).map_err(Stop::Unread)?;
        if n == 0 {
            return make(rt, desk, &line);
        }
        take_chunk(rt, desk, &mut line, &chunk[..n])?;
    }
    Err(Stop::Unread(io::Error::from(io::ErrorKind::Other)))
}
