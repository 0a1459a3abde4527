// What the bench says: a line a picture on standard output; how far it is, and what is wrong, on standard error. Where standard error
// cannot be written either, nothing is left to do.
ghost use Rattle.std.specs.Prelude.{◌≡◌};

use crate::page;
use crate::tally::{Requests, Tally};
use crate::trouble::{Failed, Stop, Trouble};
use filing::Label;
use std::io;
use std::io::Write;

// The line of a picture, by the name of its file.
pub fn picture(rt: &impl Print, label: Label, seen: Requests, name: &str) -> io::Result<()> {
    let number = label.number;
    let stored = label.stored;
    let mark = page::mark_word(label.mark);
    let mut out = io::writer(rt);
    write!(
        out,
        "picture {number} {mark}, {stored} of 23040 places stored, "
    )?;
    writeln!(out, "requests: {seen}, filed as {name}")
}

// The last line, of a capture that was drawn to its end.
pub fn done(rt: &impl Print, tally: Tally) -> io::Result<()> {
    writeln!(io::writer(rt), "done: {tally}")
}

// How far a long capture is.
pub fn progress(rt: &impl Eprint, line: u64, pictures: u32) {
    let _ = eprintln!(rt; "bench: at line {line}, {pictures} pictures so far");
}

// What could not be read or written while the capture is drawn.
pub fn failed(rt: &impl Eprint, failed: Failed) {
    let _ = eprintln!(rt; "{failed}");
}

// Says what could not be read or written, and answers the trouble that comes of it.
pub fn for_trouble(rt: &impl Eprint, what: &str, why: io::Error, trouble: Trouble) -> Trouble
    ensures { result ≡ trouble }
{
    failed(rt, Failed { what, why });
    trouble
}

// What stopped a capture, and where.
pub fn stopped(rt: &impl Eprint, capture: &str, line: u64, stop: Stop) {
    match stop {
        Stop::Unread(why) => failed(rt, Failed { what: capture, why }),
        stop => {
            let _ = eprintln!(rt; "bench: {capture}:{line}: {stop}");
        }
    }
}
