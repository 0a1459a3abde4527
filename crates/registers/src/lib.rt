// The registers: which can be written, what a write and a read do, blanking, and the colour flag. What is asked of the palettes' indexes is one
// clause, `PalettesFine`, and no type: a state can have one over 63, and is refused for it.
// Lent memory comes buffer by buffer, and in no struct: `&` and `&mut` tell of each what a call may do with it.
#![tactic(auto)]

ghost use Rattle.std.specs.Prelude.{◌≡◌, cond, true, ◌<◌, ◌≤◌, ◌+◌, ◌%◌};
ghost use Rattle.lcd.specs.Pictures.{pictures};
ghost use Rattle.order.specs.Fine.{SetFine, PalettesFine};
ghost use Rattle.registers.specs.Registers.{kept_bits};
ghost use Rattle.registers.specs.Write.{registers_written, port_written, palettes_written, state_written, Written};
ghost use Rattle.registers.specs.Write.{blanks, blanked_registers, blanked_beam, blanked_state};
ghost use Rattle.registers.specs.Write.{readable, register_read, colour_set};

use colors::PaletteSet;
use hardware::Mode;
use state::{Beam, Palettes, Registers, State};

// A writable register: its address and the bits of a write that are kept. Fields without names, so that an entry of the table is one line.
#[derive(Clone, Copy)]
pub struct Writable(pub u16, pub u8);

// One constant array, and addresses as numbers in it: docs/01-scope.md names this form.
const WRITABLE: [Writable; 16] = [
    Writable(0xFF40, 0xFF), // LCDC
    Writable(0xFF41, 0x78), // STAT
    Writable(0xFF42, 0xFF), // SCY
    Writable(0xFF43, 0xFF), // SCX
    Writable(0xFF45, 0xFF), // LYC
    Writable(0xFF47, 0xFF), // BGP
    Writable(0xFF48, 0xFF), // OBP0
    Writable(0xFF49, 0xFF), // OBP1
    Writable(0xFF4A, 0xFF), // WY
    Writable(0xFF4B, 0xFF), // WX
    Writable(0xFF4F, 0x01), // VBK
    Writable(0xFF68, 0xBF), // BCPS
    Writable(0xFF69, 0xFF), // BCPD
    Writable(0xFF6A, 0xBF), // OCPS
    Writable(0xFF6B, 0xFF), // OCPD
    Writable(0xFF6C, 0x01), // OPRI
];

// The bits that a write to an address keeps; 0 where the address is not listed, as the definition `kept_in` has it.
pub fn kept_bits(address: u16) -> u8
    ensures { result ≡ kept_bits address }
{
    WRITABLE.iter().find(|w| w.0 == address).map_or(0, |w| w.1)
}

// The new value at its own address, else the old one.
fn replaced<T: Copy>(here: bool, new: T, old: T) -> T
    ensures { result ≡ cond here new old }
{
    if here { new } else { old }
}

// STAT after a write of its kept bits: the lower three stay, where every other register is replaced.
fn stat_after(here: bool, v: u8, stat: u8) -> u8
    requires { here ≡ true → v ≤ 0x78 }
    ensures { result ≡ cond here (stat % 8 + v) stat }
{
    if here { stat % 8 + v } else { stat }
}

// The registers after a write of kept bits: only the one addressed changes. A line a register: the table has addresses, and no field has one.
pub fn write_registers(r: Registers, address: u16, v: u8) -> Registers
    requires { address ≡ 0xFF41 → v ≤ 0x78 }
    ensures { result ≡ registers_written r address v }
{
    Registers {
        lcdc: replaced(address == 0xFF40, v, r.lcdc),
        stat: stat_after(address == 0xFF41, v, r.stat),
        scy: replaced(address == 0xFF42, v, r.scy),
        scx: replaced(address == 0xFF43, v, r.scx),
        ly: r.ly,
        lyc: replaced(address == 0xFF45, v, r.lyc),
        bgp: replaced(address == 0xFF47, v, r.bgp),
        obp0: replaced(address == 0xFF48, v, r.obp0),
        obp1: replaced(address == 0xFF49, v, r.obp1),
        wy: replaced(address == 0xFF4A, v, r.wy),
        wx: replaced(address == 0xFF4B, v, r.wx),
        vbk: replaced(address == 0xFF4F, v, r.vbk),
        coord: replaced(address == 0xFF6C, v == 1, r.coord),
        cgb: r.cgb,
    }
}

// A palette set after a write to its index port or to the data port after it.
#[tactic(auto, unfolding(crate::specs::Write::port_written))]
pub fn write_port(p: PaletteSet, port: u16, address: u16, v: u8) -> PaletteSet
    requires { SetFine p × (port < 65535) }
    ensures { result ≡ port_written p port address v }
{
    if address == port {
        p.after_write(false, v)
    } else if address == port + 1 {
        p.after_write(true, v)
    } else {
        p
    }
}

// Both palette sets after a write.
pub fn write_palettes(p: Palettes, address: u16, v: u8) -> Palettes
    requires { PalettesFine p }
    ensures { result ≡ palettes_written p address v }
{
    Palettes {
        bg: write_port(p.bg, 0xFF68, address, v),
        obj: write_port(p.obj, 0xFF6A, address, v),
    }
}

// Whether a write of kept bits switches the display off.
pub fn does_blank(r: Registers, address: u16, v: u8) -> bool
    ensures { result ≡ blanks r address v }
{
    address == 0xFF40 && wrap::bit(r.lcdc, 7) && !wrap::bit(v, 7)
}

// The registers with mode 0 and LY 0.
fn blank_registers(r: Registers) -> Registers
    ensures { result ≡ blanked_registers r }
{
    Registers {
        stat: Mode::HBlank.put_in(r.stat),
        ly: 0,
        ..r
    }
}

// The beam at cycle 4 of line 0, just turned on, with no place stored; LCD x stays.
fn blank_beam(b: Beam) -> Beam
    ensures { result ≡ blanked_beam b }
{
    Beam {
        line: 0,
        cycle: 4,
        count: 0,
        turned: true,
        blanked: true,
        ..b
    }
}

// The state with the display switched off.
fn blank_state(s: State) -> State
    ensures { result ≡ blanked_state s }
{
    State {
        regs: blank_registers(s.regs),
        beam: blank_beam(s.beam),
        ..s
    }
}

// The state after a write of kept bits.
#[tactic(auto, unfolding(crate::specs::Write::state_written))]
pub fn write_state(s: State, address: u16, v: u8) -> State
    requires { PalettesFine s.palettes × (address ≡ 0xFF41 → v ≤ 0x78) }
    ensures { result ≡ state_written s address v }
{
    let mut n = s;
    n.regs = write_registers(s.regs, address, v);
    n.palettes = write_palettes(s.palettes, address, v);
    if does_blank(s.regs, address, v) {
        return blank_state(n);
    }
    n
}

// A write to a register: the state after it, and both pictures, white at a blanking.
pub fn write_register(s: State, a: &mut [u8], b: &mut [u8], address: u16, value: u8) -> State
    requires { PalettesFine s.palettes }
    ensures { Written s (pictures a.old b.old) address value result
        (pictures a.new b.new) }
{
    let v = value & kept_bits(address);
    if does_blank(s.regs, address, v) {
        lcd::fill(a, 255);
        lcd::fill(b, 255);
    }
    write_state(s, address, v)
}

// Whether a register can be read: FF68 to FF6B.
pub fn is_readable(address: u16) -> bool
    ensures { result ≡ readable address }
{
    (0xFF68..=0xFF6B).contains(&address)
}

// The value of a readable register, by its address, as docs/01-scope.md names the ports: the table above is of those that can be written,
// and tells no port from another.
#[tactic(auto, unfolding(crate::specs::Write::register_read))]
pub fn read_register(p: Palettes, address: u16) -> u8
    requires { PalettesFine p }
    ensures { result ≡ register_read p address }
{
    match address {
        0xFF68 => p.bg.read_index(),
        0xFF69 => p.bg.read_color_data(),
        0xFF6A => p.obj.read_index(),
        _ => p.obj.read_color_data(),
    }
}

// Sets colour mode; it holds only if the device is not DMG.
pub fn set_colour(s: State, flag: bool) -> State
    ensures { result ≡ colour_set s flag }
{
    let mut n = s;
    n.regs.cgb = !s.machine.dmg && flag;
    n
}
