// A line of a capture, read as a call of the unit, and a call printed as its line. What a line says is `reading`
// (specs/Reading); a call's text is `printed` (specs/Printing). No line and no call is refused.
#![tactic(auto)]

ghost use Rattle.std.specs.Prelude.{◌≡◌, cond, ◌∷◌, ◌+◌, ◌≤◌, max, length, take, drop};
ghost use Rattle.std.specs.Prelude.{not, true, false, List, ℕ, position};
ghost use Rattle.std.specs.Iterator.{YieldsFirstRef, item_count};
ghost use Rattle.texts.specs.Appended.{Appended, IsPrefixLen};
ghost use Rattle.texts.specs.Numbers.{digits, decimal as decimalText};
ghost use Rattle.captures.specs.Words.{is_hash, is_blank, text, words};
ghost use Rattle.captures.specs.Numbers.{digit_in, number_from};
ghost use Rattle.captures.specs.Reading.{hexadecimal as hexadecimalOf, decimal as decimalOf};
ghost use Rattle.captures.specs.Reading.{either as either_of, kind_of, bytes_of, meaning};
ghost use Rattle.captures.specs.Reading.{read_start, read_write, read_bytes, read_step, read_corrupt, read_colour};
ghost use Rattle.captures.specs.Reading.{is_optional, wrong as wrongOf, whole as whole_of};
ghost use Rattle.captures.specs.Reading.{read_call, said, reading};
ghost use Rattle.captures.specs.Printing.{spaced, kind_word, bytes_words, name_of, arguments_of, printed};
ghost use Rattle.captures.specs.Parts.{Took, TookBytes};

use std::marker::Model;
use texts::Text;

// What begins a comment.
const COMMENT: u8 = b'#';

// Bytes for VRAM or OAM: `count` of them (1 to 8), the first the highest of `bytes`, `times` over from `address` on. A number with a
// count, since a line's digits are read as one number (`number_from`) and say by how many they are how many bytes it stands for.
#[derive(Clone, Copy, Debug, PartialEq, Eq)]
pub struct Bytes {
    pub address: u16,
    pub bytes: u64,
    pub count: u8,
    pub times: u32,
}

// A call of the unit. A kind of corruption is a number, since `print_call` takes any: one over 2 it prints as 2.
#[derive(Clone, Copy, Debug, PartialEq, Eq)]
pub enum Call {
    Start { dmg: bool, cgb: bool },
    Write { address: u16, value: u8 },
    Vram(Bytes),
    Oam(Bytes),
    Step { cycles: u8, times: u32 },
    Corrupt { kind: u8 },
    Colour { on: bool },
}

// What is wrong with a line: the first from the left.
#[derive(Clone, Copy, Debug, PartialEq, Eq)]
pub enum Reason {
    Unknown,
    Missing,
    BadDevice,
    BadColour,
    BadAddress,
    BadValue,
    BadBytes,
    BadCycles,
    BadTimes,
    BadKind,
    BadSwitch,
    Extra,
}

// The arguments that a call may want.
#[derive(Clone, Copy)]
enum Wanted {
    Device,
    Colour,
    Address,
    Value,
    Bytes,
    Cycles,
    Times,
    Kind,
    Switch,
}

// An argument: its number, and how many bytes its word has.
#[derive(Clone, Copy)]
struct Argument {
    value: u64,
    size: usize,
}

// The words that are left of a text.
#[derive(Drop)]
struct Words<'a> {
    text: &'a [u8],
}

impl<'a> Model for Words<'a> {
    ghost Value = { List (List ℕ) };

    ghost view = { λ w. words w.text.now };
}

// What a line says: a call, or nothing. The line has no line feed; any bytes will do.
pub fn read_line(line: &[u8]) -> Result<Option<Call>, Reason>
    ensures { result ≡ reading line.now }
{
    read_words(Words {
        text: text_of(line),
    })
}

// The text before a comment.
fn text_of(line: &[u8]) -> &[u8]
    ensures { result.now ≡ text line.now }
{
    let end = comment_start(line).unwrap_or(line.len());
    &line[..end]
}

// The place of a line's comment.
fn comment_start(line: &[u8]) -> Option<usize>
    ensures { result ≡ position is_hash line.now }
{
    line.iter().position(|b| *b == COMMENT)
}

// The first word names the call.
fn read_words(mut words: Words) -> Result<Option<Call>, Reason>
    ensures { result ≡ said words.entry }
{
    match words.next() {
        Some(name) => read_call(name, words),
        None => Ok(None),
    }
}

// By `==`: a match on seven texts says no more, and gives the proof a case for each of their bytes.
fn read_call(name: &[u8], words: Words) -> Result<Option<Call>, Reason>
    ensures { result ≡ read_call name.now words.entry }
{
    if name == b"start".as_slice() {
        read_start(words)
    } else if name == b"write".as_slice() {
        read_write(words)
    } else if name == b"vram".as_slice() {
        read_vram(words)
    } else if name == b"oam".as_slice() {
        read_oam(words)
    } else if name == b"step".as_slice() {
        read_step(words)
    } else if name == b"corrupt".as_slice() {
        read_corrupt(words)
    } else if name == b"colour".as_slice() {
        read_colour(words)
    } else {
        Err(Reason::Unknown)
    }
}

fn read_start(mut words: Words) -> Result<Option<Call>, Reason>
    ensures { result ≡ read_start words.entry }
{
    let device = words.argument(Wanted::Device)?;
    let colour = words.argument(Wanted::Colour)?;
    words.whole(Call::Start {
        dmg: device.value == 1,
        cgb: colour.value == 1,
    })
}

// Two arguments, as `read_step`: what they share is `argument` and `whole`, and each line says what differs.
fn read_write(mut words: Words) -> Result<Option<Call>, Reason>
    ensures { result ≡ read_write words.entry }
{
    let address = words.argument(Wanted::Address)?;
    let value = words.argument(Wanted::Value)?;
    words.whole(Call::Write {
        address: address.value as u16,
        value: value.value as u8,
    })
}

// This and `read_oam` are two lines each: one function over the call's name would need a clause on what that name makes.
fn read_vram(mut words: Words) -> Result<Option<Call>, Reason>
    ensures { result ≡ read_bytes false words.entry }
{
    let bytes = words.bytes()?;
    words.whole(Call::Vram(bytes))
}

fn read_oam(mut words: Words) -> Result<Option<Call>, Reason>
    ensures { result ≡ read_bytes true words.entry }
{
    let bytes = words.bytes()?;
    words.whole(Call::Oam(bytes))
}

// Two arguments, as `read_write`, and a line for each of them.
fn read_step(mut words: Words) -> Result<Option<Call>, Reason>
    ensures { result ≡ read_step words.entry }
{
    let cycles = words.argument(Wanted::Cycles)?;
    let times = words.argument(Wanted::Times)?;
    words.whole(Call::Step {
        cycles: cycles.value as u8,
        times: times.value as u32,
    })
}

fn read_corrupt(mut words: Words) -> Result<Option<Call>, Reason>
    ensures { result ≡ read_corrupt words.entry }
{
    let kind = words.argument(Wanted::Kind)?;
    words.whole(Call::Corrupt {
        kind: kind.value as u8,
    })
}

fn read_colour(mut words: Words) -> Result<Option<Call>, Reason>
    ensures { result ≡ read_colour words.entry }
{
    let switch = words.argument(Wanted::Switch)?;
    words.whole(Call::Colour {
        on: switch.value == 1,
    })
}

impl<'a> Iterator for Words<'a> {
    type Item = &'a [u8];

    ghost next_gives = { YieldsFirstRef (λ ws. ws) };

    ghost remaining = { item_count (λ ws. ws) };

    fn next(&mut self) -> Option<&'a [u8]> {
        let (_, text) = self.text.split_at(word_start(self.text)?);
        let end = blank_start(text).unwrap_or(text.len());
        let (word, rest) = text.split_at(end);
        self.text = rest;
        Some(word)
    }
}

impl<'a> Words<'a> {
    // Takes the next argument. TIMES may be left out, and is 1 then.
    fn argument(&mut self, wanted: Wanted) -> Result<Argument, Reason>
        ensures { Took self.old wanted result self.new }
    {
        match self.next() {
            Some(word) => {
                let value = meant(word, wanted).ok_or(wrong(wanted))?;
                Ok(Argument {
                    value,
                    size: word.len(),
                })
            }
            None if is_optional(wanted) => Ok(Argument { value: 1, size: 0 }),
            None => Err(Reason::Missing),
        }
    }

    // Takes the arguments of bytes: two digits make one.
    fn bytes(&mut self) -> Result<Bytes, Reason>
        ensures { TookBytes self.old result self.new }
    {
        let address = self.argument(Wanted::Address)?;
        let bytes = self.argument(Wanted::Bytes)?;
        let times = self.argument(Wanted::Times)?;
        Ok(Bytes {
            address: address.value as u16,
            bytes: bytes.value,
            count: (bytes.size / 2) as u8,
            times: times.value as u32,
        })
    }

    // A call is whole where the words end behind its last argument.
    fn whole(mut self, call: Call) -> Result<Option<Call>, Reason>
        ensures { result ≡ whole_of call self.entry }
    {
        match self.next() {
            Some(_) => Err(Reason::Extra),
            None => Ok(Some(call)),
        }
    }
}

// Whether an argument may be left out.
fn is_optional(wanted: Wanted) -> bool
    ensures { result ≡ is_optional wanted }
{
    matches!(wanted, Wanted::Times)
}

// What is wrong with a word that means nothing where an argument is wanted. By its own name and no `From`: a wanted argument is no reason.
fn wrong(wanted: Wanted) -> Reason
    ensures { result ≡ wrongOf wanted }
{
    match wanted {
        Wanted::Device => Reason::BadDevice,
        Wanted::Colour => Reason::BadColour,
        Wanted::Address => Reason::BadAddress,
        Wanted::Value => Reason::BadValue,
        Wanted::Bytes => Reason::BadBytes,
        Wanted::Cycles => Reason::BadCycles,
        Wanted::Times => Reason::BadTimes,
        Wanted::Kind => Reason::BadKind,
        Wanted::Switch => Reason::BadSwitch,
    }
}

// What a word means where an argument is wanted: a number for a flag and a kind too, as `meaning` says, so that one reader,
// `argument`, and one promise, `Took`, serve all nine.
fn meant(word: &[u8], wanted: Wanted) -> Option<u64>
    ensures { result ≡ meaning wanted word.now }
{
    match wanted {
        Wanted::Device => either(word, b"dmg", b"cgb"),
        Wanted::Colour => either(word, b"colour", b"grey"),
        Wanted::Address => hexadecimal(word, 4),
        Wanted::Value => hexadecimal(word, 2),
        Wanted::Bytes => bytes_of(word),
        Wanted::Cycles => decimal(word, 0, 255),
        Wanted::Times => decimal(word, 1, 4294967295),
        Wanted::Kind => kind(word),
        Wanted::Switch => either(word, b"on", b"off"),
    }
}

// One of two words: the first means 1, the other 0. No `bool`: `meant` wants a number of each word.
fn either(word: &[u8], one: &[u8], other: &[u8]) -> Option<u64>
    ensures { result ≡ either_of one.now other.now word.now }
{
    if word == one {
        Some(1)
    } else if word == other {
        Some(0)
    } else {
        None
    }
}

// A kind by its number, which `Call::Corrupt` has.
fn kind(word: &[u8]) -> Option<u64>
    ensures { result ≡ kind_of word.now }
{
    if word == b"write".as_slice() {
        Some(0)
    } else if word == b"read".as_slice() {
        Some(1)
    } else if word == b"read-write".as_slice() {
        Some(2)
    } else {
        None
    }
}

// So many hexadecimal digits.
fn hexadecimal(word: &[u8], size: usize) -> Option<u64>
    requires { size ≤ 16 }
    ensures { result ≡ hexadecimalOf size word.now }
{
    if word.len() == size {
        number_of(word, 16)
    } else {
        None
    }
}

// One to eight bytes, each of two hexadecimal digits.
#[tactic(auto, using(crate::proofs::Numbers::bytes_sized, crate::proofs::Numbers::no_bytes))]
fn bytes_of(word: &[u8]) -> Option<u64>
    ensures { result ≡ bytes_of word.now }
{
    match word.len() {
        2..=16 if word.len() % 2 == 0 => number_of(word, 16),
        _ => None,
    }
}

// One to ten decimal digits that say a number from low to high.
#[tactic(auto, using(crate::proofs::Numbers::no_decimal))]
fn decimal(word: &[u8], low: u64, high: u64) -> Option<u64>
    ensures { result ≡ decimalOf low high word.now }
{
    match word.len() {
        1..=10 => number_of(word, 10).filter(|n| (low..=high).contains(n)),
        _ => None,
    }
}

// The number that a word's digits say: sixteen of them fit a u64.
fn number_of(word: &[u8], base: u64) -> Option<u64>
    requires { (base ≤ 16) × (length word.now ≤ 16) }
    ensures { result ≡ number_from base 0 word.now }
{
    let mut n = 0;
    for b in word {
        let d = u64::from(digit(*b)?);
        if d >= base {
            return None;
        }
        n = n * base + d;
    }
    Some(n)
}

// What a hexadecimal digit is worth.
#[tactic(auto, using(crate::proofs::Numbers::digit_given))]
fn digit(b: u8) -> Option<u32>
    ensures { result ≡ digit_in 16 b }
{
    char::from(b).to_digit(16)
}

// The place of the first byte of a word.
fn word_start(text: &[u8]) -> Option<usize>
    ensures { result ≡ position (λ b. not (is_blank b)) text.now }
{
    text.iter().position(|b| !is_blank(*b))
}

// The place of the first blank.
fn blank_start(text: &[u8]) -> Option<usize>
    ensures { result ≡ position is_blank text.now }
{
    text.iter().position(|b| is_blank(*b))
}

#[tactic(auto, using(crate::proofs::Texts::blank, crate::proofs::Texts::no_blank))]
fn is_blank(b: u8) -> bool
    ensures { result ≡ is_blank b }
{
    matches!(b, b' ' | b'\t' | b'\r')
}

// A call's text.
pub fn print_call(call: Call) -> Text<40>
    ensures { result ≡ printed call }
{
    let mut line = Text::new();
    let len = put_call(call, line.room());
    line.truncate(len);
    line
}

// A call's text at the start of a buffer, the rest of which stays as it was; and how many bytes it has.
pub fn put_call(call: Call, out: &mut [u8; 40]) -> usize
    ensures prefix_len { IsPrefixLen result out.new }
    ensures out_after { take result out.new ≡ printed call }
    ensures out_unchanged { drop result out.new ≡ drop result out.old }
{
    let at = texts::put_bytes(out, 0, name_of(call));
    put_arguments(out, at, call)
}

// A call's name.
fn name_of(call: Call) -> &'static [u8]
    ensures name { result.now ≡ name_of call }
    ensures most { length result.now ≤ 7 }
{
    match call {
        Call::Start { .. } => b"start",
        Call::Write { .. } => b"write",
        Call::Vram(_) => b"vram",
        Call::Oam(_) => b"oam",
        Call::Step { .. } => b"step",
        Call::Corrupt { .. } => b"corrupt",
        Call::Colour { .. } => b"colour",
    }
}

// Puts a call's arguments, from a place on. Each function that puts answers the place behind what it put.
fn put_arguments(out: &mut [u8], at: usize, call: Call) -> usize
    requires { at + 33 ≤ length out.old }
    ensures { Appended out.old out.new at result (spaced (arguments_of call)) }
{
    match call {
        Call::Start { dmg, cgb } => {
            let at = put_either(out, at, dmg, b"dmg", b"cgb");
            put_either(out, at, cgb, b"colour", b"grey")
        }
        Call::Write { address, value } => {
            let at = put_hexadecimal(out, at, u64::from(address), 4);
            put_hexadecimal(out, at, u64::from(value), 2)
        }
        Call::Vram(bytes) | Call::Oam(bytes) => put_bytes(out, at, bytes),
        Call::Step { cycles, times } => {
            let at = put_decimal(out, at, u32::from(cycles));
            put_decimal(out, at, times)
        }
        Call::Corrupt { kind } => put_word(out, at, kind_word(kind)),
        Call::Colour { on } => put_either(out, at, on, b"on", b"off"),
    }
}

// Puts the arguments of bytes: eight at most.
fn put_bytes(out: &mut [u8], at: usize, bytes: Bytes) -> usize
    requires { at + 33 ≤ length out.old }
    ensures { Appended out.old out.new at result (spaced (bytes_words bytes)) }
{
    let count = usize::from(bytes.count.min(8));
    let at = put_hexadecimal(out, at, u64::from(bytes.address), 4);
    let at = put_hexadecimal(out, at, bytes.bytes, 2 * count);
    put_decimal(out, at, bytes.times)
}

// The word of a kind.
fn kind_word(kind: u8) -> &'static [u8]
    ensures word { result.now ≡ kind_word kind }
    ensures most { length result.now ≤ 10 }
{
    // By the number, since `print_call` takes any: those over 2 print as the third.
    match kind {
        0 => b"write",
        1 => b"read",
        _ => b"read-write",
    }
}

// Puts a space and one of two words.
fn put_either(out: &mut [u8], at: usize, first: bool, one: &[u8], other: &[u8]) -> usize
    requires { (at + 1 + length one.now ≤ length out.old) × (at + 1 + length other.now ≤ length out.old) }
    ensures put { Appended out.old out.new at result (32 ∷ cond first one.now other.now) }
    ensures most { result ≤ at + 1 + max (length one.now) (length other.now) }
{
    put_word(out, at, if first { one } else { other })
}

// Puts a space and a decimal number.
fn put_decimal(out: &mut [u8], at: usize, n: u32) -> usize
    requires { at + 11 ≤ length out.old }
    ensures put { Appended out.old out.new at result (32 ∷ decimalText n) }
    ensures most { result ≤ at + 11 }
{
    let at = texts::put_byte(out, at, b' ');
    texts::put_decimal(out, at, n)
}

// Puts a space and the last k hexadecimal digits of a number.
fn put_hexadecimal(out: &mut [u8], at: usize, n: u64, k: usize) -> usize
    requires { at + 1 + k ≤ length out.old }
    ensures put { Appended out.old out.new at result (32 ∷ digits 16 k n) }
    ensures end { result ≡ at + (1 + k) }
{
    let at = texts::put_byte(out, at, b' ');
    texts::put_digits(out, at, n, 16, k)
}

// Puts a space and a word.
fn put_word(out: &mut [u8], at: usize, word: &[u8]) -> usize
    requires { at + 1 + length word.now ≤ length out.old }
    ensures put { Appended out.old out.new at result (32 ∷ word.now) }
    ensures end { result ≡ at + (1 + length word.now) }
{
    let at = texts::put_byte(out, at, b' ');
    texts::put_bytes(out, at, word)
}
