// One step: the mode that begins, the draws with their places, the STAT level, the beam, and the answer.
// That the cycles fit into the line stands in a clause and in no type: docs/PROMISES.md names `step`, and a type would ask more of who
// calls it. VRAM comes as in `tiles`; all else that a step needs is one clause, `Steppable`, or `Fine` alone where nothing is lent.
// Lent memory comes buffer by buffer, and in no struct: `&` and `&mut` tell of each what a call may do with it.
#![tactic(auto)]

ghost use Rattle.std.specs.Prelude.{◌≡◌, not, ◌&&◌, ◌<◌, ◌≤◌, ◌+◌, length};
ghost use Rattle.hardware.specs.Screen.{line_cycles, frame_lines};
ghost use Rattle.hardware.specs.Tables.{vram_bytes, tables};
ghost use Rattle.lcd.specs.Pictures.{pictures, PicturesSized};
ghost use Rattle.order.specs.Fine.{Fine};
ghost use Rattle.step.specs.Step.{off_report, StepTaken};
ghost use Rattle.step.specs.Work.{Steppable, Worked};
ghost use Rattle.step.specs.End.{starting, drawing, requests_by, report_by, levelled, ended};

use beam::Mark;
use hardware::{Machine, Mode};
use state::{Beam, Registers, State};

// What a step answers: 01's request bits (1 VBlank, 2 STAT), the mode, the coincidence, LY, whether it swapped, the mark of the
// picture, and how many places were stored.
#[derive(Clone, Copy)]
pub struct Report {
    // Bits, as docs/01-scope.md numbers them.
    pub requests: u8,
    // The number that STAT holds, which docs/01-scope.md has among the outputs.
    pub mode: u8,
    pub coincidence: bool,
    pub ly: u8,
    // Beside the mark, which is `No` without a swap and at the swap of a torn picture: docs/01-scope.md has both among the outputs.
    pub swapped: bool,
    pub mark: Mark,
    pub count: u16,
}

// What a step answers, and the state after it: docs/01-scope.md has the state as a value, "in and back"; `ppu::step` puts it where it stood.
#[derive(Clone, Copy)]
pub struct Stepped {
    pub report: Report,
    pub state: State,
}

// The end of a step: what it answers, and the two groups that it changes. A type of its own, since docs/PROMISES.md names the definition
// `ended`, which speaks of these three alone.
#[derive(Clone, Copy)]
pub struct Ended {
    pub report: Report,
    pub regs: Registers,
    pub beam: Beam,
}

// The draws of the step, into the picture that is not shown. By the number of the one shown, which docs/01-scope.md has in the state, and
// with a call for each: one `&mut` picked by an `if` gets no proof.
fn draw_hidden(vram: &[u8], s: State, a: &mut [u8], b: &mut [u8], cycles: u8) -> State
    requires { (length vram.now ≡ vram_bytes) × PicturesSized (pictures a.old b.old) × Fine s }
    ensures { Worked cycles vram.now s (pictures a.old b.old) result
        (pictures a.new b.new) }
{
    if s.beam.shown == 0 {
        burst::draw_all(vram, s, b, cycles)
    } else {
        burst::draw_all(vram, s, a, cycles)
    }
}

// Whether a mode may begin in a step, or a line be searched.
#[tactic(auto, unfolding(crate::specs::End::starting))]
fn may_begin(s: State) -> bool
    ensures { result ≡ starting s }
{
    wrap::bit(s.regs.lcdc, 7) && modes::can_begin(s.beam)
}

// Whether a step draws.
#[tactic(auto, unfolding(crate::specs::End::drawing))]
fn does_draw(s: State) -> bool
    ensures { result ≡ drawing s }
{
    wrap::bit(s.regs.lcdc, 7) && Mode::of(s.regs.stat) == Mode::Draw
}

// Whether the level rose.
fn rises(old: bool, new: bool) -> bool
    ensures { result ≡ new && not old }
{
    new && !old
}

// The request bits: VBlank at (144,4), STAT if the level rose.
fn requests_of(b: Beam, t: Beam) -> u8
    ensures { result ≡ requests_by b t }
{
    let vblank = modes::stands_at(b, Machine::VBLANK_LINE, 4);
    u8::from(vblank) + 2 * u8::from(rises(b.level, t.level))
}

// What a step answers, from the beam before it, the one that knows the level, and the registers after it.
fn report_of(b: Beam, t: Beam, r: Registers, cycles: u8) -> Report
    requires { (t.cycle + cycles ≤ line_cycles) × (t.line < frame_lines) }
    ensures { result ≡ report_by cycles b t r }
{
    Report {
        requests: requests_of(b, t),
        mode: r.stat % 4,
        coincidence: wrap::bit(r.stat, 2),
        ly: r.ly,
        swapped: beam::does_swap(t, cycles),
        mark: beam::mark_of(t, cycles),
        count: t.count,
    }
}

// What a step answers while the display is off.
fn off_report(s: State) -> Report
    ensures { result ≡ off_report s }
{
    Report {
        requests: 0,
        mode: s.regs.stat % 4,
        coincidence: wrap::bit(s.regs.stat, 2),
        ly: s.regs.ly,
        swapped: false,
        mark: Mark::No,
        count: s.beam.count,
    }
}

// The beam that knows the level.
fn level_beam(held: bool, w: State) -> Beam
    ensures { result ≡ levelled held w }
{
    Beam {
        level: modes::level_of(held, w),
        ..w.beam
    }
}

// The end of a step while the display is on, from the beam before it, the level by the mode held and the worked state: the level,
// the comparison, and the cycle that advances.
fn finish(before: Beam, held: bool, w: State, cycles: u8) -> Ended
    requires { Fine w × (w.beam.cycle + cycles ≤ line_cycles) }
    ensures { result ≡ ended cycles before held w }
{
    let settled = level_beam(held, w);
    let compared = modes::compare(w.regs, w.beam);
    let regs = beam::advance_registers(compared, settled, cycles);
    Ended {
        report: report_of(before, settled, regs, cycles),
        regs,
        beam: beam::advance(settled, cycles),
    }
}

// One step of a state in order, by a number of cycles that does not pass the end of a line.
pub fn step(s: State, vram: &[u8], oam: &[u8], a: &mut [u8], b: &mut [u8], cycles: u8) -> Stepped
    requires { Steppable (tables vram.now oam.now) (pictures a.old b.old) s × (s.beam.cycle + cycles ≤ line_cycles) }
    ensures { StepTaken cycles (tables vram.now oam.now) s
        (pictures a.old b.old) result.report result.state (pictures a.new b.new) }
{
    let before = s.beam;
    let mut held = modes::mode_level(s);
    let mut n = s;
    if may_begin(n) {
        n = modes::enter_mode(n);
        held = modes::mode_level(n);
        n = modes::search(oam, n);
    }
    if does_draw(n) {
        n = draw_hidden(vram, n, a, b, cycles);
    }
    if wrap::bit(n.regs.lcdc, 7) {
        let end = finish(before, held, n, cycles);
        n.regs = end.regs;
        n.beam = end.beam;
        // early: as the value of the `if`, with `s.beam` in place of `before`, tests/speed has scene b at 3.03 times, over its bound
        return Stepped {
            report: end.report,
            state: n,
        };
    }
    // while the display is off nothing has changed, and nothing does
    Stepped {
        report: off_report(n),
        state: n,
    }
}
