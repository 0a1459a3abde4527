// The page of a folder: index.html shows its pictures with their numbers and marks. Each function that writes stops at the first write
// that fails.
use crate::tally::Tally;
use crate::text_of;
use beam::Mark;
use filing::Label;
use std::io::Write;
use std::{fmt, io};

// How the page looks: pictures three times their size, torn ones in a broad red frame, unseen ones in a dashed one.
const STYLE: &str = "<style>
body { font: 16px sans-serif; margin: 24px; background: #f4f4f2; color: #222 }
main { display: flex; flex-wrap: wrap; gap: 24px }
figure { margin: 0; padding: 12px; background: #fff; border: 6px solid #ccc }
img { display: block; width: 480px; height: 432px; image-rendering: pixelated }
figcaption { margin-top: 8px; width: 480px }
.torn { border-color: #c00; background: #fdd }
.torn b { color: #c00 }
.unseen { border: 6px dashed #b80 }
.unseen b { color: #850 }
.stopped { color: #c00 }
</style>
";

// A text, as HTML wants it.
#[derive(Clone, Copy)]
struct Html<'a>(&'a str);

impl fmt::Display for Html<'_> {
    fn fmt<W: fmt::Write>(&self, f: &mut fmt::Formatter<W>) -> fmt::Result {
        for letter in self.0.chars() {
            match letter {
                '&' => f.write_str("&amp;")?,
                '<' => f.write_str("&lt;")?,
                '>' => f.write_str("&gt;")?,
                '"' => f.write_str("&quot;")?,
                _ => write!(f, "{letter}")?,
            }
        }
        Ok(())
    }
}

// The head of the page, with the capture's name.
pub fn begin(page: &mut impl Write, capture: &str) -> io::Result<()> {
    let name = Html(capture);
    write!(
        page,
        "<!DOCTYPE html>\n<html lang=\"en\">\n<head>\n<meta charset=\"utf-8\">\n<title>{name}</title>\n{STYLE}"
    )?;
    write!(page, "</head>\n<body>\n<h1>{name}</h1>\n<main>\n")
}

// The word of a mark, on the page and on standard output.
pub fn mark_word(mark: Mark) -> &'static str {
    text_of(filing::mark_word(mark))
}

// What a mark means, beside it.
fn meaning(mark: Mark) -> &'static str {
    match mark {
        Mark::No => "<b>TORN</b>, not a reference",
        Mark::Whole => "<b>whole</b>",
        Mark::Unseen => {
            "<b>unseen</b>: whole, but the first after switching on, which the screen does not show"
        }
    }
}

// A picture, by the name of its file.
pub fn picture(page: &mut impl Write, label: Label, name: &str) -> io::Result<()> {
    let number = label.number;
    let stored = label.stored;
    let mark = mark_word(label.mark);
    let meaning = meaning(label.mark);
    write!(
        page,
        "<figure class=\"{mark}\"><img src=\"{name}\" alt=\"picture {number}\"><figcaption>"
    )?;
    write!(
        page,
        "{number} {meaning}<br>{stored} of 23040 places stored</figcaption></figure>\n"
    )
}

// The end of the page.
pub fn end(page: &mut impl Write, tally: Tally) -> io::Result<()> {
    write!(page, "</main>\n<p>{tally}</p>\n</body>\n</html>\n")
}

// The end of a page whose capture was not drawn to its end.
pub fn stop(page: &mut impl Write, line: u64) -> io::Result<()> {
    write!(
        page,
        "</main>\n<p class=\"stopped\">The capture was not drawn to its end: it stopped at line {line}.</p>\n"
    )?;
    page.write_all(b"</body>\n</html>\n")
}
