// The state of the machine, in small groups.
#![tactic(auto)]

use bg_attribs::BgAttribute;
use colors::PaletteSet;
use fifo::{BgFifo, SpriteFifo};
use hardware::Machine;
use sprite::Selection;

// The registers by their names in Pan Docs, the priority of sprites (FF6C: by coordinate or by index) and colour mode.
#[derive(Clone, Copy)]
pub struct Registers {
    pub lcdc: u8,
    pub stat: u8,
    pub scy: u8,
    pub scx: u8,
    pub ly: u8,
    pub lyc: u8,
    pub bgp: u8,
    pub obp0: u8,
    pub obp1: u8,
    pub wy: u8,
    pub wx: u8,
    pub vbk: u8,
    pub coord: bool,
    pub cgb: bool,
}

// The palettes of the background and of sprites.
#[derive(Clone, Copy)]
pub struct Palettes {
    pub bg: PaletteSet,
    pub obj: PaletteSet,
}

// The fetcher: cycles to the next fetch, the fetch column, the row that was fetched, and its attribute while it waits. The row stands
// beside it, and not in the `Option`: docs/01-scope.md, "the fetched row stands beside it".
#[derive(Clone, Copy)]
pub struct Fetcher {
    pub delay: u8,
    pub column: u8,
    pub row: [u8; 8],
    pub waiting: Option<BgAttribute>,
}

// What a draw works on: the fetcher, the two queues, whether it is in the window and the window's row, and how many
// pixels are to be discarded.
#[derive(Clone, Copy)]
pub struct Pipe {
    pub fetcher: Fetcher,
    pub bg: BgFifo,
    pub obj: SpriteFifo,
    pub window: bool,
    pub wrow: u8,
    pub discard: u8,
}

// The beam: line and cycle, LCD x, the picture shown, the places stored since the last swap or blanking, the cycle at
// which mode 3 ended, the STAT level, whether the display was just turned on, and whether it was blanked since the last swap. The picture
// shown is a number, as docs/01-scope.md has it, and one over 1 is refused.
#[derive(Clone, Copy)]
pub struct Beam {
    pub line: u8,
    pub cycle: u16,
    pub x: u8,
    pub shown: u8,
    pub count: u16,
    pub end: u16,
    pub level: bool,
    pub turned: bool,
    pub blanked: bool,
}

#[derive(Clone, Copy)]
pub struct State {
    pub machine: Machine,
    pub regs: Registers,
    pub palettes: Palettes,
    pub selection: Selection,
    pub pipe: Pipe,
    pub beam: Beam,
}

// A place on the screen that is drawn: its line and its column.
#[derive(Clone, Copy)]
pub struct Spot {
    pub line: u8,
    pub x: u8,
}
