// The lent memory: the start, writes to VRAM and OAM, reads of OAM.
// Lent memory comes buffer by buffer, and in no struct: `&` and `&mut` tell of each what a call may do with it. Its lengths, a bank and an
// address in OAM stand in clauses: docs/PROMISES.md names these functions, and a type would ask more of who calls them.
#![tactic(auto)]

ghost use Rattle.std.specs.Prelude.{◌≡◌, ◌<◌, ◌≤◌, ◌%◌, length};
ghost use Rattle.hardware.specs.Tables.{tables, vram_bytes, oam_bytes};
ghost use Rattle.lcd.specs.Pictures.{pictures};
ghost use Rattle.memory.specs.Fresh.{in_colour, fresh_registers, fresh_palettes, fresh_pipe, fresh_beam, fresh_state, Started};
ghost use Rattle.memory.specs.Writes.{vram_written, oam_written};
ghost use Rattle.memory.specs.Reads.{oam_read};

use colors::PaletteSet;
use fifo::{BgFifo, SpriteFifo};
use hardware::Machine;
use sprite::Selection;
use state::{Beam, Fetcher, Palettes, Pipe, Registers, State};

// Colour mode holds only if the device is not DMG.
fn in_colour(machine: Machine) -> bool
    ensures { result ≡ in_colour machine }
{
    !machine.dmg && machine.cgb
}

fn fresh_registers(cgb: bool) -> Registers
    ensures { result ≡ fresh_registers cgb }
{
    Registers {
        lcdc: 0x91,
        stat: 1,
        scy: 0,
        scx: 0,
        ly: 0,
        lyc: 0,
        bgp: 0xFC,
        obp0: 0xFF,
        obp1: 0xFF,
        wy: 0,
        wx: 0,
        vbk: 0,
        coord: !cgb,
        cgb,
    }
}

fn fresh_palettes(cgb: bool) -> Palettes
    ensures { result ≡ fresh_palettes cgb }
{
    let fresh = PaletteSet::fresh();
    if cgb {
        Palettes {
            bg: fresh,
            obj: fresh,
        }
    } else {
        let greys = colors::grey_palette();
        let bg = fresh.set_palette(0, greys);
        Palettes {
            bg,
            obj: bg.set_palette(1, greys),
        }
    }
}

fn fresh_pipe() -> Pipe
    ensures { result ≡ fresh_pipe }
{
    Pipe {
        fetcher: Fetcher {
            delay: 0,
            column: 0,
            row: [0; 8],
            waiting: None,
        },
        bg: BgFifo::fresh(),
        obj: SpriteFifo::fresh(),
        window: false,
        wrow: 0,
        discard: 0,
    }
}

fn fresh_beam() -> Beam
    ensures { result ≡ fresh_beam }
{
    Beam {
        line: Machine::LAST_LINE,
        cycle: 400,
        x: 0,
        shown: 0,
        count: 0,
        end: 0,
        level: false,
        turned: false,
        blanked: false,
    }
}

// The fresh state of a machine.
pub fn fresh_state(machine: Machine) -> State
    ensures { result ≡ fresh_state machine }
{
    let cgb = in_colour(machine);
    State {
        machine,
        regs: fresh_registers(cgb),
        palettes: fresh_palettes(cgb),
        selection: Selection {
            count: 0,
            slots: sprite::blank(),
        },
        pipe: fresh_pipe(),
        beam: fresh_beam(),
    }
}

// A start: the fresh state, VRAM and OAM 0, both pictures white.
pub fn start(machine: Machine, vram: &mut [u8], oam: &mut [u8], a: &mut [u8], b: &mut [u8]) -> State
    ensures { Started machine
        (tables vram.old oam.old) (pictures a.old b.old) result
        (tables vram.new oam.new) (pictures a.new b.new) }
{
    lcd::fill(vram, 0);
    lcd::fill(oam, 0);
    lcd::fill(a, 255);
    lcd::fill(b, 255);
    fresh_state(machine)
}

// Stores a byte of VRAM at an address modulo 8,192 of a bank.
pub fn write_vram(vram: &mut [u8], bank: u8, address: u16, value: u8)
    requires { (length vram.old ≡ vram_bytes) × (bank ≤ 1) }
    ensures { vram.new ≡ vram_written vram.old bank address value }
{
    vram[Machine::vram_place(bank, address)] = value;
}

// Stores a byte of OAM at the low byte of an address.
pub fn write_oam(oam: &mut [u8], address: u16, value: u8)
    requires { (length oam.old ≡ oam_bytes) × (address % 256 < oam_bytes) }
    ensures { oam.new ≡ oam_written oam.old address value }
{
    let at = Machine::oam_place(address);
    oam[at] = value;
}

// The byte of OAM at the low byte of an address.
pub fn read_oam(oam: &[u8], address: u16) -> u8
    requires { (length oam.now ≡ oam_bytes) × (address % 256 < oam_bytes) }
    ensures { result ≡ oam_read oam.now address }
{
    oam[Machine::oam_place(address)]
}
