// The public calls that touch no picture, or only show one: reads and writes of the ports, VRAM and OAM, the colour flag, OAM
// corruption, the picture shown, the pick; with their refusals. No call asks anything of its caller. `ppu` hands them on.
// Lent memory comes buffer by buffer, and in no struct: `&` and `&mut` tell of each what a call may do with it.
#![tactic(auto)]

ghost use Rattle.std.specs.Prelude.{◌≡◌};
ghost use Rattle.refusals.specs.Refused.{number_of};
ghost use Rattle.sprite.specs.Pick.{pick_of, picked};
ghost use Rattle.ports.specs.Answers.{answered, read_answered};
ghost use Rattle.ports.specs.Calls.{read_answer, colour_answer, VramWrite, OamWrite, OamBug, Shown};

use refusals::Refusal;
use sprite::Selection;
use state::State;

// A read of a palette port. Refused by 2, 4.
pub fn read_register(s: &State, address: u16) -> Result<u8, Refusal>
    ensures { read_answered result s.now ≡ read_answer s.now address }
{
    terms::read(*s, address)?;
    Ok(registers::read_register(s.palettes, address))
}

// The two writes are alike to the eye alone: each is the terms of its call and one access, and they differ in both.

// A VRAM write, at the address modulo 8,192 of the present bank. Refused by 1, 2.
pub fn write_vram(s: &State, vram: &mut [u8], address: u16, value: u8) -> Result<(), Refusal>
    ensures { VramWrite s.now vram.old address value (answered result s.now) vram.new }
{
    terms::vram(*s, vram)?;
    memory::write_vram(vram, s.regs.vbk, address, value);
    Ok(())
}

// An OAM write, at the low byte of the address. Refused by 1, 4.
pub fn write_oam(oam: &mut [u8], address: u16, value: u8) -> Result<(), Refusal>
    ensures { OamWrite oam.old address value (number_of result) oam.new }
{
    terms::oam(oam, address)?;
    memory::write_oam(oam, address, value);
    Ok(())
}

// Sets colour mode, which holds only if the device is not DMG. Refused by 2.
pub fn set_colour(s: &mut State, flag: bool) -> Result<(), Refusal>
    ensures { answered result s.new ≡ colour_answer s.old flag }
{
    terms::colour(*s)?;
    *s = registers::set_colour(*s, flag);
    Ok(())
}

// OAM corruption: kind 0 by a write, 1 by a read, 2 by a read and a write in one cycle. Refused by 1, 2, 4, 5.
// The kind stays a number here: `OamBug` says of every number what is answered, 4 for one of no kind.
pub fn oam_bug(s: &State, oam: &mut [u8], kind: u8) -> Result<(), Refusal>
    ensures { OamBug kind s.now oam.old (answered result s.now) oam.new }
{
    let kind = terms::kind(*s, oam, kind)?;
    // by the number of the mode, which `corrupted_row` takes: to make a `Mode` of it and a number again would say no more
    let row = oam_bug::corrupted_row(s.regs.stat % 4, s.beam.cycle);
    oam_bug::corrupt(oam, row, kind);
    Ok(())
}

// The picture shown: picture A or picture B, whole and unmoved. No `Result`: on a refusal the empty part of picture A (docs/01-scope.md).
pub fn screen_buffer<'a>(s: &State, a: &'a [u8], b: &'a [u8]) -> &'a [u8]
    ensures { Shown s.now a.entry b.entry result }
{
    match terms::shown(*s, a, b) {
        Ok(()) => lcd::screen_buffer(s.beam.shown, a, b),
        Err(_) => &a[..0],
    }
}

// The ten lowest entries in range of a line, of sprites 8 or 16 tall. Refused by 1, 4.
pub fn pick(oam: &[u8], line: u8, tall: u8) -> Result<Selection, Refusal>
    ensures { picked result ≡ pick_of oam.now line tall }
{
    sprite::pick(oam, line, tall)
}
