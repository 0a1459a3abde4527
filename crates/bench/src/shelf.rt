// The folder that pictures are filed in: paths, and a picture's file. A file appears under its name only when all of it is written.
use crate::trouble::Trouble;
use crate::{say, text_of};
use filing::Label;
use std::fmt::InlineText;
use std::fs::{File, OpenFile};
use std::io::Write;
use std::rt::Files;
use std::{fs, io};
use texts::Text;

// The longest path of a folder, and room for that of a file in it, whose name has at most 32 bytes.
pub const FOLDER_BYTES: usize = 4000;

pub const PATH_BYTES: usize = 4096;

// A folder, and the name of the capture whose pictures it holds.
#[derive(Drop)]
pub struct Shelf<'a> {
    pub folder: &'a str,
    pub capture: Text<{ filing::NAME_BYTES }>,
}

// The path of a file in a folder.
pub fn path_of(folder: &str, name: &str) -> InlineText<PATH_BYTES> {
    InlineText::of(format_args!("{folder}/{name}"))
}

// Whether there is a file of that name.
fn is_taken(rt: &impl Files, path: &str) -> bool {
    fs::open(rt, path).is_ok()
}

// Writes all of a new file. An error that the system would tell of only when the file is closed is asked for before.
fn fill(file: &mut (impl Write + OpenFile), bytes: &[u8]) -> io::Result<()> {
    file.write_all(bytes)?;
    file.sync_all()
}

// Writes a new file: under another name first, so that no part of it is ever seen under its own. Where it cannot, says why, and then takes
// away what there is of it.
fn write_file(
    rt: &(impl Files + Eprint),
    path: &str,
    part: &str,
    bytes: &[u8],
) -> Result<(), Trouble> {
    if is_taken(rt, path) {
        let why = io::Error::new(io::ErrorKind::AlreadyExists, "there is a file of that name");
        return Err(say::for_trouble(rt, path, why, Trouble::NotFiled));
    }
    let filled = {
        let mut file = File::create_new(rt, part).map_err(|why| say::for_trouble(
            rt,
            part,
            why,
            Trouble::NotFiled,
        ))?;
        fill(&mut file, bytes)
    };
    filled
        .and_then(|()| fs::rename(rt, part, path))
        .map_err(|why| {
            let trouble = say::for_trouble(rt, path, why, Trouble::NotFiled);
            let _ = fs::remove_file(rt, part);
            trouble
        })
}

impl Shelf<'_> {
    // Files a picture with what is known of it; where it cannot, says why (a picture of the screen's length always has a file).
    pub fn file(
        &self,
        rt: &(impl Files + Eprint),
        picture: &[u8],
        label: Label,
    ) -> Result<(), Trouble> {
        let mut file = Text::new();
        filing::file_of(&mut file, picture, label, self.capture.as_bytes()).map_err(
            |_| Trouble::NotFiled,
        )?;
        let name = filing::name_of(label.number, label.mark);
        let path = path_of(self.folder, text_of(name.as_bytes()));
        let part = path_of(self.folder, "picture.part");
        write_file(rt, path.as_str(), part.as_str(), file.as_bytes())
    }
}
