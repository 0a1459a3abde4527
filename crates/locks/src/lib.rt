// Writes and reads of VRAM and OAM behind the lock of Pan Docs, beside the writes of `ports`, which no mode stops. No call asks
// anything of its caller. `ppu` hands them on.
// Lent memory comes buffer by buffer, and in no struct: `&` and `&mut` tell of each what a call may do with it.
#![tactic(auto)]

ghost use Rattle.std.specs.Prelude.{◌≡◌};
ghost use Rattle.ports.specs.Answers.{answered, read_answered};
ghost use Rattle.hardware.specs.Modes.{mode_number};
ghost use Rattle.locks.specs.Closed.{closed_in, closed};
ghost use Rattle.locks.specs.Calls.{LockedVramWrite, LockedOamWrite, seen, locked_vram_read, locked_oam_read};

use hardware::Mode;
use refusals::Refusal;
use state::State;

// What can be closed.
#[derive(Clone, Copy)]
pub enum Memory {
    Vram,
    Oam,
}

impl Memory {
    // What a read of a closed memory gives.
    pub const CLOSED_BYTE: u8 = 0xFF;

    // Whether a mode closes it: VRAM is drawn from in mode 3, OAM is searched in mode 2 and drawn from in mode 3.
    fn is_closed_in(self, mode: Mode) -> bool
        ensures { result ≡ closed_in self (mode_number mode) }
    {
        match self {
            Memory::Vram => mode == Mode::Draw,
            Memory::Oam => matches!(mode, Mode::Search | Mode::Draw),
        }
    }
}

// Whether a memory is closed: with the display on, in a mode that closes it.
pub fn is_closed(memory: Memory, s: State) -> bool
    ensures { result ≡ closed memory s }
{
    wrap::bit(s.regs.lcdc, 7) && memory.is_closed_in(Mode::of(s.regs.stat))
}

// Two writes and two reads, and no one function of each: a call is its terms, its lock and its access, and those of VRAM and of OAM differ
// in all three.

// A VRAM write that a closed VRAM takes and drops. Refused by 1, 2.
pub fn locked_write_vram(s: &State, vram: &mut [u8], address: u16, value: u8) -> Result<(), Refusal>
    ensures { LockedVramWrite s.now vram.old address value (answered result s.now) vram.new }
{
    terms::vram(*s, vram)?;
    if !is_closed(Memory::Vram, *s) {
        memory::write_vram(vram, s.regs.vbk, address, value);
    }
    Ok(())
}

// An OAM write that a closed OAM takes and drops. Refused by 1, 2, 4.
pub fn locked_write_oam(s: &State, oam: &mut [u8], address: u16, value: u8) -> Result<(), Refusal>
    ensures { LockedOamWrite s.now oam.old address value (answered result s.now) oam.new }
{
    terms::locked_oam(*s, oam, address)?;
    if !is_closed(Memory::Oam, *s) {
        memory::write_oam(oam, address, value);
    }
    Ok(())
}

// What a read sees of a byte.
fn seen(memory: Memory, s: State, byte: u8) -> u8
    ensures { result ≡ seen memory s byte }
{
    if is_closed(memory, s) {
        Memory::CLOSED_BYTE
    } else {
        byte
    }
}

// The byte of VRAM at the address modulo 8,192 of the present bank; FF from a closed VRAM. Refused by 1, 2.
pub fn locked_read_vram(s: &State, vram: &[u8], address: u16) -> Result<u8, Refusal>
    ensures { read_answered result s.now ≡ locked_vram_read s.now vram.now address }
{
    terms::vram(*s, vram)?;
    let byte = tiles::read_vram_banked(vram, s.regs.vbk, address);
    Ok(seen(Memory::Vram, *s, byte))
}

// The byte of OAM at the low byte of the address; FF from a closed OAM. Refused by 1, 2, 4.
pub fn locked_read_oam(s: &State, oam: &[u8], address: u16) -> Result<u8, Refusal>
    ensures { read_answered result s.now ≡ locked_oam_read s.now oam.now address }
{
    terms::locked_oam(*s, oam, address)?;
    let byte = memory::read_oam(oam, address);
    Ok(seen(Memory::Oam, *s, byte))
}
