// The beam goes on: the cycle, the line, the frame, and what a swap answers.
// The bounds of the cycle, the line and the picture shown stand in clauses and in no type: docs/PROMISES.md and docs/EDITS.md name these functions, and a
// type would ask more of who calls them. Of a whole state `Fine` (`order`) holds them, of the arguments of a step `Steppable` (`step`).
#![tactic(auto)]

ghost use Rattle.std.specs.Prelude.{◌≡◌, ◌<◌, ◌≤◌, ◌+◌};
ghost use Rattle.hardware.specs.Screen.{line_cycles, frame_lines};
ghost use Rattle.beam.specs.Advance.{ends, swaps, onward, next_line, next_frame, advanced_beam, advanced_registers, whole};
ghost use Rattle.beam.specs.Marks.{mark_number, mark_of};

use hardware::Machine;
use state::{Beam, Registers};

// The mark of a picture: not whole; whole; whole, but the first after a blanking, which the screen does not show.
#[derive(Clone, Copy)]
pub enum Mark {
    No,
    Whole,
    Unseen,
}

impl Mark {
    // The number of a mark. docs/CHANGING.md names it, so it is no `From<Mark>`.
    pub fn number(self) -> u8
        ensures { result ≡ mark_number self }
    {
        match self {
            Mark::No => 0,
            Mark::Whole => 1,
            Mark::Unseen => 2,
        }
    }
}

// The beam further in its line.
fn onward_by(b: Beam, cycles: u8) -> Beam
    requires { b.cycle + cycles ≤ line_cycles }
    ensures { result ≡ onward cycles b }
{
    Beam {
        cycle: b.cycle + u16::from(cycles),
        turned: false,
        ..b
    }
}

// The beam on the next line.
fn next_line(b: Beam) -> Beam
    requires { b.line < frame_lines }
    ensures { result ≡ next_line b }
{
    Beam {
        line: b.line + 1,
        cycle: 0,
        turned: false,
        ..b
    }
}

// After line 153: the pictures swap, no place is stored yet, and no blanking has come since.
fn next_frame(b: Beam) -> Beam
    requires { b.shown ≤ 1 }
    ensures { result ≡ next_frame b }
{
    Beam {
        line: 0,
        cycle: 0,
        x: 0,
        shown: lcd::next_buffer_index(b.shown),
        count: 0,
        turned: false,
        blanked: false,
        ..b
    }
}

// Whether a step ends the line.
fn ends_line(b: Beam, cycles: u8) -> bool
    requires { b.cycle + cycles ≤ line_cycles }
    ensures { result ≡ ends cycles b }
{
    b.cycle + u16::from(cycles) == Machine::LINE_CYCLES
}

// Whether a step ends the frame.
pub fn does_swap(b: Beam, cycles: u8) -> bool
    requires { (b.cycle + cycles ≤ line_cycles) × (b.line < frame_lines) }
    ensures { result ≡ swaps cycles b }
{
    ends_line(b, cycles) && b.line + 1 == Machine::FRAME_LINES
}

// Whether the picture that a step ends is whole.
#[tactic(auto, unfolding(crate::specs::Advance::whole))]
pub fn is_whole(b: Beam, cycles: u8) -> bool
    requires { (b.cycle + cycles ≤ line_cycles) × (b.line < frame_lines) }
    ensures { result ≡ whole cycles b }
{
    does_swap(b, cycles) && usize::from(b.count) == Machine::PLACES
}

// The mark of the picture that a step ends; no where it ends none.
#[tactic(auto, unfolding(crate::specs::Marks::mark_of))]
pub fn mark_of(b: Beam, cycles: u8) -> Mark
    requires { (b.cycle + cycles ≤ line_cycles) × (b.line < frame_lines) }
    ensures { result ≡ mark_of cycles b }
{
    if !is_whole(b, cycles) {
        return Mark::No;
    }
    if b.blanked {
        return Mark::Unseen;
    }
    Mark::Whole
}

// The cycle advances; at 456 the next line, after line 153 the next frame.
#[tactic(auto, unfolding(crate::specs::Advance::advanced_beam))]
pub fn advance(b: Beam, cycles: u8) -> Beam
    requires { (b.cycle + cycles ≤ line_cycles) × (b.line < frame_lines) × (b.shown ≤ 1) }
    ensures { result ≡ advanced_beam cycles b }
{
    if !ends_line(b, cycles) {
        return onward_by(b, cycles);
    }
    if b.line + 1 == Machine::FRAME_LINES {
        return next_frame(b);
    }
    next_line(b)
}

// The registers where the cycle advances: a new line sets LY.
pub fn advance_registers(r: Registers, b: Beam, cycles: u8) -> Registers
    requires { (b.cycle + cycles ≤ line_cycles) × (b.line < frame_lines) × (b.shown ≤ 1) }
    ensures { result ≡ advanced_registers cycles r b }
{
    if !ends_line(b, cycles) {
        return r;
    }
    Registers {
        ly: advance(b, cycles).line,
        ..r
    }
}
