// The modes of a step: which begins, the STAT level by the mode held, the search of a line, and the comparison of LY.
// That STAT's bit 7 is 0, and OAM's length, stand in clauses and in no type: docs/PROMISES.md names these functions, a type would ask more of
// who calls them, and `Fine` (`order`) has STAT's bound of a whole state.
#![tactic(auto)]

ghost use Rattle.std.specs.Prelude.{◌≡◌, ◌<◌, length};
ghost use Rattle.hardware.specs.Modes.{mode_number};
ghost use Rattle.hardware.specs.Tables.{oam_bytes};
ghost use Rattle.state.specs.With.{with_coincidence};
ghost use Rattle.modes.specs.Modes.{stands, begins, scans, renders, in_mode, rendering, resting, entered, searched};
ghost use Rattle.modes.specs.Modes.{rest_level, scan_asks, scan_level, mode_level, early_level, level_of, compared_registers};

use hardware::{Machine, Mode};
use state::{Beam, Pipe, Registers, State};

// Whether the beam stands at a line and a cycle.
pub fn stands_at(b: Beam, line: u8, cycle: u16) -> bool
    ensures { result ≡ stands b line cycle }
{
    b.line == line && b.cycle == cycle
}

// Whether a mode can begin here, or a line be searched: else neither is tried.
pub fn can_begin(b: Beam) -> bool
    ensures { result ≡ begins b }
{
    matches!(b.cycle, 80 | 4 | 0)
}

// Whether mode 2 begins.
#[tactic(auto, unfolding(crate::specs::Modes::scans))]
fn does_scan(b: Beam) -> bool
    ensures { result ≡ scans b }
{
    usize::from(b.line) < Machine::HEIGHT && b.cycle == 0 || stands_at(b, 0, 4) && !b.turned
}

// Whether mode 3 begins.
#[tactic(auto, unfolding(crate::specs::Modes::renders))]
fn does_render(b: Beam) -> bool
    ensures { result ≡ renders b }
{
    usize::from(b.line) < Machine::HEIGHT && b.cycle == 80
}

// The state with a mode, a pipe and a mode 3 end.
fn in_mode(s: State, mode: Mode, p: Pipe, end: u16) -> State
    ensures { result ≡ in_mode s (mode_number mode) p end }
{
    let mut n = s;
    n.regs.stat = mode.put_in(s.regs.stat);
    n.pipe = p;
    n.beam.end = end;
    n
}

// The pipe where mode 3 begins.
fn start_rendering(scx: u8, p: Pipe) -> Pipe
    ensures { result ≡ rendering scx p }
{
    let mut n = p;
    n.fetcher.delay = 8;
    n.discard = scx % 8;
    n
}

// The pipe where mode 1 begins.
fn start_resting(p: Pipe) -> Pipe
    ensures { result ≡ resting p }
{
    Pipe { wrow: 0, ..p }
}

// The state in the mode that begins here, if one does.
#[tactic(auto, unfolding(crate::specs::Modes::entered))]
pub fn enter_mode(s: State) -> State
    ensures { result ≡ entered s }
{
    if does_scan(s.beam) {
        return in_mode(s, Mode::Search, s.pipe, 0);
    }
    if does_render(s.beam) {
        let p = start_rendering(s.regs.scx, s.pipe);
        return in_mode(s, Mode::Draw, p, s.beam.end);
    }
    if stands_at(s.beam, Machine::VBLANK_LINE, 4) {
        let p = start_resting(s.pipe);
        return in_mode(s, Mode::VBlank, p, 0);
    }
    s
}

// What mode 1 asks.
fn rest_level(s: State) -> bool
    ensures { result ≡ rest_level s }
{
    wrap::bit(s.regs.stat, 4)
        || s.machine.dmg && stands_at(s.beam, Machine::VBLANK_LINE, 4) && wrap::bit(s.regs.stat, 5)
}

// Whether mode 2 asks at this cycle: at 0 if not DMG, at 4 if DMG or on line 0.
fn scan_asks(s: State) -> bool
    ensures { result ≡ scan_asks s }
{
    s.beam.cycle == 0 && !s.machine.dmg || s.beam.cycle == 4 && (s.machine.dmg || s.beam.line == 0)
}

// What mode 2 asks.
fn scan_level(s: State) -> bool
    ensures { result ≡ scan_level s }
{
    scan_asks(s) && wrap::bit(s.regs.stat, 5)
}

// The STAT level by the mode held.
#[tactic(auto, unfolding(crate::specs::Modes::mode_level))]
pub fn mode_level(s: State) -> bool
    ensures { result ≡ mode_level s }
{
    match Mode::of(s.regs.stat) {
        Mode::HBlank => wrap::bit(s.regs.stat, 3),
        Mode::VBlank => rest_level(s),
        Mode::Search => scan_level(s),
        Mode::Draw => false,
    }
}

// Mode 2 at cycle 4 selects the sprites of the line.
#[tactic(auto, unfolding(crate::specs::Modes::searched))]
pub fn search(oam: &[u8], s: State) -> State
    requires { length oam.now ≡ oam_bytes }
    ensures { result ≡ searched oam.now s }
{
    if Mode::of(s.regs.stat) != Mode::Search || s.beam.cycle != 4 {
        return s;
    }
    let tall = pixel::tall_of(s.regs.lcdc);
    State {
        selection: sprite::select(oam, s.beam.line, tall, s.selection.slots),
        ..s
    }
}

// What joins the level at (144,0) where the device is not DMG.
fn early_level(s: State) -> bool
    ensures { result ≡ early_level s }
{
    !s.machine.dmg
        && stands_at(s.beam, Machine::VBLANK_LINE, 0)
        && (wrap::bit(s.regs.stat, 4) || wrap::bit(s.regs.stat, 5))
}

// The STAT level: by the mode held, at (144,0), or by LY = LYC.
#[tactic(auto, unfolding(crate::specs::Modes::level_of))]
pub fn level_of(held: bool, s: State) -> bool
    ensures { result ≡ level_of held s }
{
    held || early_level(s) || s.regs.ly == s.regs.lyc && wrap::bit(s.regs.stat, 6)
}

// STAT with its coincidence bit.
fn with_coincidence(stat: u8, set: bool) -> u8
    requires { stat < 128 }
    ensures { result ≡ with_coincidence stat set }
{
    if set {
        return stat / 8 * 8 + 4 + stat % 4;
    }
    stat / 8 * 8 + stat % 4
}

// The registers that know the coincidence; at (153,4) LY becomes 0.
pub fn compare(r: Registers, b: Beam) -> Registers
    requires { r.stat < 128 }
    ensures { result ≡ compared_registers r b }
{
    let mut n = r;
    n.stat = with_coincidence(r.stat, r.ly == r.lyc);
    if stands_at(b, Machine::LAST_LINE, 4) {
        n.ly = 0;
    }
    n
}
