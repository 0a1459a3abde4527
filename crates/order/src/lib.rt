// Whether a state is in order: 01's sentence, clause by clause.
#![tactic(auto)]

ghost use Rattle.std.specs.Prelude.{◌≡◌};
ghost use Rattle.order.specs.Order.{registers_order, palettes_order, row_order, fetcher_order, bg_order, sprite_pixel_order, sprite_order};
ghost use Rattle.order.specs.Order.{selection_order, beam_order, mode_order, in_order, Judged};

use fifo::{BgFifo, SpriteFifo, SpriteFifoPixel};
use hardware::{Machine, Mode};
use sprite::Selection;
use state::{Beam, Fetcher, Palettes, Registers, State};

// LY, the bank and STAT.
pub fn registers_in_order(r: Registers) -> bool
    ensures { result ≡ registers_order r }
{
    r.ly < Machine::FRAME_LINES && r.vbk <= 1 && r.stat < 128
}

// The palette indexes.
pub fn palettes_in_order(p: Palettes) -> bool
    ensures { result ≡ palettes_order p }
{
    p.bg.index <= 63 && p.obj.index <= 63
}

// Whether the colours of a row are colour numbers.
pub fn row_in_order(row: [u8; 8]) -> bool
    ensures { result ≡ row_order row }
{
    row.iter().all(|color| *color <= 3)
}

// The fetch delay, and the colours of a row that waits.
pub fn fetcher_in_order(f: Fetcher) -> bool
    ensures { result ≡ fetcher_order f }
{
    f.delay <= 8 && (f.waiting.is_none() || row_in_order(f.row))
}

// The background queue: its length and its pixels. Not one function over `Fifo<P, N>` and a test with `sprite_in_order`: the clauses
// on N, on the test and on the closure that calls it are longer than both.
pub fn bg_in_order(q: BgFifo) -> bool
    ensures { result ≡ bg_order q }
{
    q.len <= 16 && (0..usize::from(q.len)).all(|k| q.pixel(k).color <= 3)
}

// The sprite queue: its length and its pixels.
pub fn sprite_in_order(q: SpriteFifo) -> bool
    ensures { result ≡ sprite_order q }
{
    q.len <= 8 && (0..usize::from(q.len)).all(|k| sprite_pixel_in_order(q.pixel(k)))
}

// A queued sprite pixel: its colour, its palette selector and its index.
fn sprite_pixel_in_order(p: SpriteFifoPixel) -> bool
    ensures { result ≡ sprite_pixel_order p }
{
    p.color <= 3 && p.obp <= 1 && p.index <= 39
}

// How many are selected, and their indexes.
pub fn selection_in_order(s: Selection) -> bool
    ensures { result ≡ selection_order s }
{
    s.count <= 10 && s.entries().iter().all(|slot| slot.index <= 39)
}

// Cycle, line, LCD x and the picture shown.
pub fn beam_in_order(b: Beam) -> bool
    ensures { result ≡ beam_order b }
{
    b.cycle % 2 == 0
        && b.cycle < Machine::LINE_CYCLES
        && b.line < Machine::FRAME_LINES
        && usize::from(b.x) < Machine::WIDTH
        && b.shown <= 1
}

// Mode 3 only on a line of the picture.
pub fn mode_in_order(stat: u8, line: u8) -> bool
    ensures { result ≡ mode_order stat line }
{
    Mode::of(stat) != Mode::Draw || usize::from(line) < Machine::HEIGHT
}

// Every clause of 01, one after the other.
fn every_clause(s: State) -> bool
    ensures { result ≡ in_order s }
{
    beam_in_order(s.beam)
        && registers_in_order(s.regs)
        && mode_in_order(s.regs.stat, s.beam.line)
        && palettes_in_order(s.palettes)
        && selection_in_order(s.selection)
        && fetcher_in_order(s.pipe.fetcher)
        && bg_in_order(s.pipe.bg)
        && sprite_in_order(s.pipe.obj)
}

// Whether a state is in order: yes exactly if every clause of 01 holds. The sizes of its arrays are those of its type.
pub fn in_order(s: State) -> bool
    ensures { Judged s result }
{
    every_clause(s)
}
