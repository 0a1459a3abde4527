// What can go wrong, in words.
use crate::text_of;
use captures::{Call, Reason};
use refusals::Refusal;
use std::fmt::InlineText;
use std::{fmt, io};

// Why a call is not made: the unit refuses it; it comes before the start, or is a second start; a picture could not be filed, or not
// be told of, and the cause has been said; there are more pictures than numbers for them.
#[derive(Clone, Copy)]
pub enum Trouble {
    Refused(Refusal),
    NotStarted,
    StartedAgain,
    NotFiled,
    NotTold,
    TooMany,
}

impl From<Refusal> for Trouble {
    fn from(why: Refusal) -> Trouble {
        Trouble::Refused(why)
    }
}

impl fmt::Display for Trouble {
    fn fmt<W: fmt::Write>(&self, f: &mut fmt::Formatter<W>) -> fmt::Result {
        match self {
            Trouble::Refused(why) => write!(f, "refused by {}, {why}", why.number()),
            Trouble::NotStarted => {
                f.write_str("a capture begins with its start, as start cgb colour")
            }
            Trouble::StartedAgain => {
                f.write_str("a second start: a capture has one, at its beginning")
            }
            Trouble::NotFiled => f.write_str("a picture could not be filed"),
            Trouble::NotTold => {
                f.write_str("a picture was filed, and its line could not be written")
            }
            Trouble::TooMany => f.write_str("more than 999999 pictures"),
        }
    }
}

// What stops a capture: it cannot be read; a line is too long, or is no call; a call is not made.
#[derive(Drop)]
pub enum Stop {
    Unread(io::Error),
    TooLong,
    NoCall(Reason),
    NotMade(Call, Trouble),
}

impl fmt::Display for Stop {
    fn fmt<W: fmt::Write>(&self, f: &mut fmt::Formatter<W>) -> fmt::Result {
        match self {
            Stop::Unread(why) => write!(f, "{why}"),
            Stop::TooLong => f.write_str("a line has at most 1000 bytes"),
            Stop::NoCall(reason) => f.write_str(words_of(*reason)),
            Stop::NotMade(call, trouble) => {
                write!(f, "{trouble}")?;
                if matches!(trouble, Trouble::Refused(_)) {
                    let call = captures::print_call(*call);
                    write!(f, ": {}", text_of(call.as_bytes()))?;
                }
                Ok(())
            }
        }
    }
}

// What is wrong with a line that is no call. A function, since `Reason` is another crate's, and the words are the bench's own.
fn words_of(reason: Reason) -> &'static str {
    match reason {
        Reason::Unknown => "no call of that name: start, write, vram, oam, step, corrupt, colour",
        Reason::Missing => "the line ends where the call wants another word",
        Reason::BadDevice => "the device is dmg or cgb",
        Reason::BadColour => "after the device comes colour or grey",
        Reason::BadAddress => "an address is four hexadecimal digits, as FF40",
        Reason::BadValue => "a value is two hexadecimal digits, as 91",
        Reason::BadBytes => {
            "bytes are two hexadecimal digits each, one to eight bytes written together, as 3C7E"
        }
        Reason::BadCycles => "the cycles of a step are a number from 0 to 255",
        Reason::BadTimes => "a count is a number from 1 to 4294967295",
        Reason::BadKind => "a corruption is write, read or read-write",
        Reason::BadSwitch => "the colour flag is on or off",
        Reason::Extra => "a word more than the call takes; a comment begins with #",
    }
}

// What could not be read, opened, made or written, and why.
#[derive(Drop)]
pub struct Failed<'a> {
    pub what: &'a str,
    pub why: io::Error,
}

impl<'a> Failed<'a> {
    // What came of something that was done with a file; an error names the file.
    pub fn at<T>(what: &'a str, done: io::Result<T>) -> Result<T, Failed<'a>> {
        done.map_err(|why| Failed { what, why })
    }
}

// The system's words for an error, without the number that stands behind them.
fn without_number(text: &str) -> &str {
    match text.split_once(" (os error ") {
        Some((words, _)) => words,
        None => text,
    }
}

impl fmt::Display for Failed<'_> {
    fn fmt<W: fmt::Write>(&self, f: &mut fmt::Formatter<W>) -> fmt::Result {
        let why = InlineText::<256>::of(&self.why);
        write!(f, "{}: {}", self.what, without_number(why.as_str()))
    }
}
