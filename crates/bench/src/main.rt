// Draws a capture by the picture unit and files its pictures, each with its mark: bench CAPTURE FOLDER.
//
// The exit status tells nothing: where all was drawn and filed, the last line on standard output begins with `done`, and otherwise
// standard error says what is wrong. `./bench` at the top of the project makes an exit status of it.
#![tactic(auto)]

mod desk;
mod lines;
mod page;
mod say;
mod shelf;
mod tally;
mod trouble;
mod unit;

use desk::Desk;
use shelf::Shelf;
use std::env::{Env, FillError};
use std::fs::{File, OpenFile};
use std::io::{Read, Write};
use std::rt::Files;
use std::{fmt, fs, io, str};
use trouble::Failed;

// The text of some bytes; nothing where they are none.
pub fn text_of(bytes: &[u8]) -> &str {
    str::from_utf8(bytes).unwrap_or("")
}

// The paths of a capture, of the folder for its pictures, and of the page there.
#[derive(Clone, Copy)]
struct Paths<'a> {
    capture: &'a str,
    folder: &'a str,
    page: &'a str,
}

// Says that a file could not be opened, made or written.
fn report(rt: &impl Eprint, done: Result<(), Failed>) {
    if let Err(failed) = done {
        let _ = eprintln!(rt; "bench: {failed}");
    }
}

// Draws a capture onto a page that is not begun. It ends with the counts, which are told on standard output too, or with the line where
// the capture stopped.
fn draw<'a, W: Write>(
    rt: &(impl Files + Print + Eprint),
    paths: Paths<'a>,
    desk: &mut Desk<'_, W>,
    source: &mut impl Read,
) -> Result<(), Failed<'a>> {
    let name = text_of(desk.shelf.capture.as_bytes());
    Failed::at(paths.page, page::begin(&mut desk.page, name))?;
    match lines::run(rt, desk, source) {
        Ok(()) => {
            Failed::at(paths.page, page::end(&mut desk.page, desk.tally))?;
            Failed::at("standard output", say::done(rt, desk.tally))
        }
        Err(stop) => {
            say::stopped(rt, paths.capture, desk.line, stop);
            Failed::at(paths.page, page::stop(&mut desk.page, desk.line))
        }
    }
}

// Makes a folder where it is missing.
fn make_folder(rt: &impl Files, folder: &str) -> io::Result<()> {
    match fs::create_dir(rt, folder) {
        Err(why) if why.kind() != io::ErrorKind::AlreadyExists => Err(why),
        _ => Ok(()),
    }
}

// Makes the folder where it is missing, and the page, which no folder with pictures in it lacks: so one that is there stops it, and
// nothing is overwritten.
fn draw_into<'a>(rt: &(impl Files + Print + Eprint), paths: Paths<'a>) -> Result<(), Failed<'a>> {
    let mut source = Failed::at(paths.capture, fs::open(rt, paths.capture))?;
    Failed::at(paths.folder, make_folder(rt, paths.folder))?;
    let page = Failed::at(paths.page, File::create_new(rt, paths.page))?;
    let shelf = Shelf {
        folder: paths.folder,
        capture: filing::shown_name(paths.capture.as_bytes()),
    };
    let mut desk = Desk::new(shelf, page);
    report(rt, draw(rt, paths, &mut desk, &mut source));
    Failed::at(paths.page, desk.page.sync_all())
}

// Why the arguments cannot be taken: there are not two; one is no path, by its name; the folder's is too long.
#[derive(Clone, Copy)]
enum Unusable {
    Count,
    Argument(&'static str, &'static str),
    LongFolder,
}

impl fmt::Display for Unusable {
    fn fmt<W: fmt::Write>(&self, f: &mut fmt::Formatter<W>) -> fmt::Result {
        match self {
            Unusable::Count => f.write_str("usage: bench CAPTURE FOLDER"),
            Unusable::Argument(name, why) => write!(f, "bench: {name}: {why}"),
            Unusable::LongFolder => f.write_str("bench: FOLDER is longer than 4000 bytes"),
        }
    }
}

// Whether there is an argument of that number; the program's own name is number 0.
fn is_given(env: &impl Env, number: usize) -> bool {
    !matches!(env.arg(number, &mut []), Err(FillError::NotPresent))
}

// An argument, at the start of a buffer.
fn argument<'a>(
    env: &impl Env,
    number: usize,
    name: &'static str,
    buffer: &'a mut [u8; 4096],
) -> Result<&'a str, Unusable> {
    let unusable = |why| Unusable::Argument(name, why);
    match env.arg(number, buffer) {
        Ok(length) => str::from_utf8(&buffer[..length]).map_err(|_| unusable("not UTF-8")),
        Err(FillError::TooLong) => Err(unusable("File name too long")),
        Err(FillError::NotPresent) => Err(unusable("Invalid argument")),
    }
}

// Draws the capture and folder that the arguments name.
fn draw_named(rt: &(impl Files + Env + Print + Eprint)) -> Result<(), Unusable> {
    if is_given(rt, 3) || !is_given(rt, 2) {
        return Err(Unusable::Count);
    }
    let mut buffer = [0u8; 4096];
    let capture = argument(rt, 1, "CAPTURE", &mut buffer)?;
    let mut buffer = [0u8; 4096];
    let folder = argument(rt, 2, "FOLDER", &mut buffer)?;
    if folder.len() > shelf::FOLDER_BYTES {
        return Err(Unusable::LongFolder);
    }
    let page = shelf::path_of(folder, "index.html");
    let paths = Paths {
        capture,
        folder,
        page: page.as_str(),
    };
    report(rt, draw_into(rt, paths));
    Ok(())
}

fn main(rt: HostRuntime) {
    if let Err(why) = draw_named(&rt) {
        let _ = rt.eprintln(why);
    }
}
