// What a picture is filed as: the name of its file, and the file, with the texts that tell what it is.
#![tactic(auto)]

ghost use Rattle.std.specs.Prelude.{◌≡◌, ◌↔◌, ◌+◌, ◌≤◌, true, length, take, drop, IsOk, IfOk, IfErr};
ghost use Rattle.texts.specs.Appended.{Appended, IsPrefixLen};
ghost use Rattle.texts.specs.Numbers.{decimal};
ghost use Rattle.png.specs.File.{text_chunk};
ghost use Rattle.filing.specs.Names.{mark_word, mark_end, name_of, behind_slash, shown_name};
ghost use Rattle.filing.specs.Names.{shown as shown_of};
ghost use Rattle.filing.specs.Files.{file_of, is_filed, Unfit};

use beam::Mark;
use hardware::Machine;
use texts::Text;

// There are six digits for a picture's number.
pub const MOST_PICTURES: u32 = 999_999;

// The longest name of a capture that is shown.
pub const NAME_BYTES: usize = 255;

// Room for a file with all of its texts.
pub const FILE_BYTES: usize = 70_656;

// What is known of a picture: its number, its mark, and how many of its places were stored.
#[derive(Clone, Copy)]
pub struct Label {
    pub number: u32,
    pub mark: Mark,
    pub stored: u16,
}

// Why there is no file: the picture has another length than the screen's, or the name of its capture is too long.
#[derive(Clone, Copy, Debug, PartialEq, Eq)]
pub enum Unfiled {
    Picture,
    Capture,
}

// The word of a mark.
#[tactic(auto, unfolding(crate::specs::Names::mark_word))]
pub fn mark_word(mark: Mark) -> &'static [u8]
    ensures word { result.now ≡ mark_word mark }
    ensures most { length result.now ≤ 6 }
{
    match mark {
        Mark::No => b"torn",
        Mark::Whole => b"whole",
        Mark::Unseen => b"unseen",
    }
}

// What tells in a name that a picture is not whole.
#[tactic(auto, unfolding(crate::specs::Names::mark_end))]
fn mark_end(mark: Mark) -> &'static [u8]
    ensures end { result.now ≡ mark_end mark }
    ensures most { length result.now ≤ 7 }
{
    match mark {
        Mark::No => b"-torn",
        Mark::Whole => b"",
        Mark::Unseen => b"-unseen",
    }
}

// The name of a picture's file.
#[tactic(auto, unfolding(crate::specs::Names::name_of))]
pub fn name_of(number: u32, mark: Mark) -> Text<32>
    ensures { result ≡ name_of number mark }
{
    let mut name = Text::new();
    name.put(b"picture-");
    name.put_digits(u64::from(number), 10, 6);
    name.put(mark_end(mark));
    name.put(b".png");
    name
}

// A number as a text of the file, by its key, from a place on.
#[tactic(auto, using(png::proofs::Chunks::text_length))]
fn put_number(out: &mut [u8], at: usize, key: &[u8], n: u32) -> usize
    requires { (length key.now ≤ 79) × (at + 23 + length key.now ≤ length out.old) }
    ensures put { Appended out.old out.new at result (text_chunk key.now (decimal n)) }
    ensures most { result ≤ at + 23 + length key.now }
{
    let mut word = Text::<10>::new();
    word.put_decimal(n);
    png::add_text(out, at, key, word.as_bytes())
}

// The file of a picture, the picture with what is known of it and the name of its capture, at the start of a buffer,
// the rest of which stays as it was; and how many bytes it has. Nothing where there is none.
#[tactic(auto, using(png::proofs::Chunks::opening_length, png::proofs::Chunks::text_length))]
pub fn put_file(
    out: &mut [u8; FILE_BYTES],
    picture: &[u8],
    label: Label,
    capture: &[u8],
) -> Result<usize, Unfiled>
    ensures file { IfOk result (λ end. IsPrefixLen end out.new
        × (take end out.new ≡ file_of picture.now label.number label.mark label.stored capture.now)
        × (drop end out.new ≡ drop end out.old)) }
    ensures untouched { IfErr result (λ _. out.new ≡ out.old) }
    ensures size { length out.new ≡ FILE_BYTES }
    ensures filed { IsOk result ↔ (is_filed picture.now capture.now ≡ true) }
    ensures why { IfErr result (Unfit picture.now capture.now) }
{
    if picture.len() != Machine::PICTURE_BYTES {
        return Err(Unfiled::Picture);
    }
    if capture.len() > NAME_BYTES {
        return Err(Unfiled::Capture);
    }
    let at = png::begin(out);
    let at = put_number(out, at, b"Number", label.number);
    let at = png::add_text(out, at, b"Mark", mark_word(label.mark));
    let at = put_number(out, at, b"Stored", u32::from(label.stored));
    let at = png::add_text(out, at, b"Capture", capture);
    let end = png::finish(out, at, picture);
    Ok(end)
}

// The file of a picture as a text. No byte where there is none.
pub fn file_of(
    out: &mut Text<FILE_BYTES>,
    picture: &[u8],
    label: Label,
    capture: &[u8],
) -> Result<(), Unfiled>
    ensures file { out.new ≡ file_of picture.now label.number label.mark label.stored capture.now }
    ensures filed { IsOk result ↔ (is_filed picture.now capture.now ≡ true) }
    ensures why { IfErr result (Unfit picture.now capture.now) }
{
    match put_file(out.room(), picture, label, capture) {
        Ok(end) => {
            out.truncate(end);
            Ok(())
        }
        Err(why) => {
            out.clear();
            Err(why)
        }
    }
}

// The last part of a path, behind the last `/`.
fn last_part(path: &[u8]) -> &[u8]
    ensures { result.now ≡ behind_slash path.now path.now }
{
    match path.iter().rposition(|&byte| byte == b'/') {
        Some(slash) => &path[slash + 1..],
        None => path,
    }
}

// A byte of a name as it is shown: what is no letter, digit or sign of ASCII is a `?`.
#[tactic(auto, unfolding(crate::specs::Names::shown))]
fn shown(byte: u8) -> u8
    ensures { result ≡ shown_of byte }
{
    match byte {
        b' '..=b'~' => byte,
        _ => b'?',
    }
}

// The name of a capture as a picture has it.
pub fn shown_name(path: &[u8]) -> Text<NAME_BYTES>
    ensures { result ≡ shown_name path.now }
{
    let whole = last_part(path);
    let part = &whole[..NAME_BYTES.min(whole.len())];
    let mut name = Text::new();
    for &byte in part {
        name.put_byte(shown(byte));
    }
    name
}
