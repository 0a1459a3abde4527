// Reads OAM, a line and how tall sprites are from standard input, 162 bytes, and prints what a search of that line picks.
#![tactic(auto)]

ghost use Rattle.std.specs.Prelude.{◌≡◌};
ghost use Rattle.sprite.specs.Pick.{picked};
ghost use Rattle.picks.specs.Request.{answer_to};

use hardware::Machine;
use refusals::Refusal;
use sprite::{SelectedSprite, Selection};
use std::io;
use std::io::{Read, Write};
use wire::NoAnswer;

// What a request asks for: its last two bytes are the line and the sprites' height, OAM is what stands before them.
fn answer(request: &[u8]) -> Result<Selection, Refusal>
    ensures { picked result ≡ answer_to request.now }
{
    match request {
        [oam @ .., line, tall] => sprite::pick(oam, *line, *tall),
        _ => Err(Refusal::Length),
    }
}

// One picked entry as a line: its index, y, x, tile and flags. Each function that prints stops at the first write that fails.
fn print_slot(out: &mut impl Write, slot: &SelectedSprite) -> io::Result<()> {
    let [index, y, x, tile, flags] = slot.to_bytes();
    writeln!(out, "{index} {y} {x} {tile} {flags}")
}

// How many entries were picked, and each of them in order.
fn print_selection(out: &mut impl Write, selection: &Selection) -> io::Result<()> {
    let count = selection.count;
    writeln!(out, "picked {count}")?;
    for slot in selection.entries() {
        print_slot(out, slot)?;
    }
    Ok(())
}

// The number of a refusal, or the picks. `sprite_lists` prints a refusal by the same two lines: no crate under both has a refusal and an output.
fn print_answer(out: &mut impl Write, answer: Result<Selection, Refusal>) -> io::Result<()> {
    match answer {
        Ok(selection) => print_selection(out, &selection),
        Err(why) => {
            let number = why.number();
            writeln!(out, "refused {number}")
        }
    }
}

// A request and one byte more, which tells a longer input from a whole one.
const INPUT_BYTES: usize = Machine::OAM_BYTES + 3;

// Reads a request and prints its answer.
fn run(input: &mut impl Read, out: &mut impl Write) -> Result<(), NoAnswer> {
    let mut buffer = [0u8; INPUT_BYTES];
    let n = wire::read_input(input, &mut buffer)?;
    print_answer(out, answer(&buffer[..n]))?;
    Ok(())
}

// The exit status tells nothing: a failed read or write is said on standard error.
fn main(rt: HostRuntime) {
    if let Err(why) = run(&mut rt.stdin(), &mut rt.stdout()) {
        wire::say_why(&mut rt.stderr(), "picks", &why);
    }
}
