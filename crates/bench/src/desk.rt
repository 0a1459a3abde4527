// The calls of a capture, made to the picture unit in their order; a picture is filed at every swap.
ghost use Rattle.std.specs.Prelude.{◌<◌, ◌≤◌};

use crate::shelf::Shelf;
use crate::tally::{Requests, Tally};
use crate::trouble::Trouble;
use crate::unit::Unit;
use crate::{page, say, text_of};
use captures::Call;
use filing::Label;
use hardware::Machine;
use std::io::Write;
use std::rt::Files;
use step::Report;

// Steps after which the desk looks up, and steps after which it says how far it is.
const PART: u32 = 262_144;

const SAID_EVERY: u64 = 2_097_152;

// The unit, the shelf and the page of its pictures, the line of the capture, what was seen since the last picture, the pictures, and
// the steps since it was last said how far the capture is.
#[derive(Drop)]
pub struct Desk<'a, W> {
    unit: Unit,
    pub shelf: Shelf<'a>,
    pub page: W,
    pub line: u64,
    seen: Requests,
    pub tally: Tally,
    silent: u64,
}

// Some of the steps that a call asks for: how many were taken, and the report of the last where it swapped.
#[derive(Clone, Copy)]
struct Drawn {
    taken: u32,
    swap: Result<Option<Report>, Trouble>,
}

impl<'a, W: Write> Desk<'a, W> {
    // A desk at the first line, before the start that a capture begins with.
    pub fn new(shelf: Shelf<'a>, page: W) -> Self {
        Desk {
            unit: Unit::new(),
            shelf,
            page,
            line: 1,
            seen: Requests::default(),
            tally: Tally::default(),
            silent: 0,
        }
    }

    // Makes a call of the capture. The first is a start, and no other is.
    pub fn act(&mut self, rt: &(impl Files + Print + Eprint), call: Call) -> Result<(), Trouble> {
        match call {
            Call::Start { dmg, cgb } => self.unit.start(Machine { dmg, cgb }),
            Call::Write { address, value } => self.unit.write_register(address, value),
            Call::Vram(bytes) => self.unit.write_bytes(bytes, Unit::write_vram),
            Call::Oam(bytes) => self.unit.write_bytes(bytes, Unit::write_oam),
            Call::Step { cycles, times } => self.step(rt, cycles, times),
            Call::Corrupt { kind } => self.unit.corrupt(kind),
            Call::Colour { on } => self.unit.set_colour(on),
        }
    }

    // Steps in parts, a picture at every swap, up to the first that is refused or whose picture cannot be filed.
    fn step(
        &mut self,
        rt: &(impl Files + Print + Eprint),
        cycles: u8,
        times: u32,
    ) -> Result<(), Trouble> {
        let mut left = times;
        // No `for`: a part that swaps ends early, and only what was taken counts.
        while left > 0 {
            let drawn = self.draw(cycles, left.min(PART));
            left -= drawn.taken;
            self.look_up(rt, drawn.taken);
            if let Some(report) = drawn.swap? {
                self.file(rt, report)?;
            }
        }
        Ok(())
    }

    // Takes steps until one swaps or is refused, or all are taken.
    fn draw(&mut self, cycles: u8, times: u32) -> Drawn
        requires { 0 < times }
        ensures { (0 < result.taken) × (result.taken ≤ times) }
    {
        // By number, which is how many steps were taken before.
        for before in 0..times {
            let swap = self.step_once(cycles);
            if !matches!(swap, Ok(None)) {
                return Drawn {
                    taken: before + 1,
                    swap,
                };
            }
        }
        Drawn {
            taken: times,
            swap: Ok(None),
        }
    }

    // A step, and its report where it swaps.
    fn step_once(&mut self, cycles: u8) -> Result<Option<Report>, Trouble> {
        let report = self.unit.step(cycles)?;
        self.seen.see(report.requests);
        Ok(report.swapped.then_some(report))
    }

    // After so many steps more: where it was long silent, it is said how far the capture is.
    fn look_up(&mut self, rt: &impl Eprint, steps: u32) {
        if self.silent < SAID_EVERY {
            self.silent += u64::from(steps);
        } else {
            say::progress(rt, self.line, self.tally.pictures);
            self.silent = 0;
        }
    }

    // Files the picture that is shown after a swap, and tells of it.
    fn file(&mut self, rt: &(impl Files + Print + Eprint), report: Report) -> Result<(), Trouble> {
        if self.tally.pictures >= filing::MOST_PICTURES {
            return Err(Trouble::TooMany);
        }
        self.tally.count(report.mark);
        let label = Label {
            number: self.tally.pictures,
            mark: report.mark,
            stored: report.count,
        };
        self.shelf.file(rt, self.unit.shown(), label)?;
        self.tell(rt, label)?;
        self.seen = Requests::default();
        Ok(())
    }

    // Tells of a picture that was filed, on standard output and on the page.
    fn tell(&mut self, rt: &(impl Print + Eprint), label: Label) -> Result<(), Trouble> {
        let name = filing::name_of(label.number, label.mark);
        let name = text_of(name.as_bytes());
        say::picture(rt, label, self.seen, name).map_err(|why| say::for_trouble(
            rt,
            "standard output",
            why,
            Trouble::NotTold,
        ))?;
        page::picture(&mut self.page, label, name).map_err(|why| say::for_trouble(
            rt,
            "index.html",
            why,
            Trouble::NotTold,
        ))
    }
}
