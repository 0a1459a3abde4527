// Reads OAM, how tall sprites are and edits of OAM from standard input, and prints which sprites touch which line after them. An
// edit is two bytes: the low byte of an address, and a value.
#![tactic(auto)]

ghost use Rattle.std.specs.Prelude.{◌≡◌, true, ◌/◌, length, OnOk, IfOk};
ghost use Rattle.refusals.specs.Ladder.{own};
ghost use Rattle.refusals.specs.Refused.{number_of};
ghost use Rattle.sprite.specs.Pick.{is_tall};
ghost use Rattle.line_sets.specs.Lines.{AreOf};
ghost use Rattle.sprite_lists.specs.Edits.{edited};

use hardware::Machine;
use refusals::Refusal;
use sprite::Selection;
use std::io;
use std::io::{Read, Write};
use wire::NoAnswer;

// The indexes of a selection, in order. Each function that prints stops at the first write that fails.
fn print_indexes(out: &mut impl Write, selection: &Selection) -> io::Result<()> {
    for slot in selection.entries() {
        let index = slot.index;
        write!(out, " {index}")?;
    }
    Ok(())
}

// A refusal, by its number, as `picks` prints one.
fn print_refusal(out: &mut impl Write, why: Refusal) -> io::Result<()> {
    let number = why.number();
    writeln!(out, "refused {number}")
}

// An edit that is refused, by its place among the edits.
fn print_refused(out: &mut impl Write, edit: usize, why: Refusal) -> io::Result<()> {
    write!(out, "edit {edit} ")?;
    print_refusal(out, why)
}

// OAM and the sets of its lines, for sprites so tall: the sets are OAM's.
#[derive(Drop)]
struct Lists {
    oam: [u8; Machine::OAM_BYTES],
    sets: [u64; Machine::HEIGHT],
    tall: u8,
    ghost is_tall: { is_tall tall ≡ true },
    ghost are_true: { AreOf oam tall sets },
}

impl Lists {
    // The lists of OAM, unless sprites cannot be so tall.
    fn of(oam: [u8; Machine::OAM_BYTES], tall: u8) -> Result<Self, Refusal>
        ensures number { number_of result ≡ own (is_tall tall) 4 }
        ensures held { IfOk result (λ lists. (lists.oam ≡ oam) × (lists.tall ≡ tall)) }
    {
        let mut sets = [0; Machine::HEIGHT];
        line_sets::build(&oam, &mut sets, tall)?;
        Ok(Lists { oam, sets, tall })
    }

    // Makes the edits in order, each through the sets. Ok where all were made and what was refused was printed.
    fn edit_all(&mut self, out: &mut impl Write, edits: &[u8]) -> io::Result<()>
        ensures { (self.new.tall ≡ self.old.tall)
            × OnOk result (self.new.oam ≡ edited self.old.oam edits.now (length edits.now / 2)) }
    {
        let (pairs, _) = edits.as_chunks::<2>();
        for (edit, pair) in pairs.iter().enumerate() {
            let address = u16::from(pair[0]);
            let value = pair[1];
            if let Err(why) = line_sets::write_oam(
                &mut self.oam,
                &mut self.sets,
                self.tall,
                address,
                value,
            ) {
                print_refused(out, edit, why)?;
            }
        }
        Ok(())
    }

    // A line of the picture: its number, how many entries touch it, the first of them, and the ten at most that are drawn.
    fn print_line(&self, out: &mut impl Write, line: u8) -> io::Result<()> {
        let count = line_sets::count(&self.sets, line).unwrap_or(0);
        write!(out, "{line} {count}")?;
        if let Ok(Some(first)) = line_sets::first(&self.sets, line) {
            write!(out, " {first}:")?;
        }
        if let Ok(selection) = line_sets::pick(&self.oam, &self.sets, line) {
            print_indexes(out, &selection)?;
        }
        out.write_all(b"\n")
    }

    // All lines, from the top. The index is the line's number.
    fn print(&self, out: &mut impl Write) -> io::Result<()> {
        for line in 0..144 {
            self.print_line(out, line)?;
        }
        Ok(())
    }
}

// The answer to an input, which begins with OAM and the height: a refusal, or the lists after the edits.
fn answer(out: &mut impl Write, input: &[u8]) -> Result<(), NoAnswer> {
    let Some((oam, [tall, edits @ ..])) = input.split_first_chunk::<{ Machine::OAM_BYTES }>() else {
        return Ok(print_refusal(out, Refusal::Length)?);
    };
    match Lists::of(*oam, *tall) {
        Err(why) => Ok(print_refusal(out, why)?),
        Ok(_) if edits.len() % 2 != 0 => Err(NoAnswer::Cut),
        Ok(mut lists) => {
            lists.edit_all(out, edits)?;
            Ok(lists.print(out)?)
        }
    }
}

// Reads an input and prints its answer.
fn run(input: &mut impl Read, out: &mut impl Write) -> Result<(), NoAnswer> {
    let mut buffer = [0u8; 65536];
    let n = wire::read_input(input, &mut buffer)?;
    if n == buffer.len() && !wire::is_at_end(input) {
        return Err(NoAnswer::Long);
    }
    answer(out, &buffer[..n])
}

// The exit status tells nothing: what has no answer, and a failed read or write, are said on standard error.
fn main(rt: HostRuntime) {
    if let Err(why) = run(&mut rt.stdin(), &mut rt.stdout()) {
        wire::say_why(&mut rt.stderr(), "sprite_lists", &why);
    }
}
