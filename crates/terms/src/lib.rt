// The terms of the public calls: whether what is lent, the state and the other arguments are within 01's table, and for each call
// why it is refused. No function asks anything of its caller.
// Lent memory comes buffer by buffer, and in no struct: `&` and `&mut` tell of each what a call may do with it.
#![tactic(auto)]

ghost use Rattle.std.specs.Prelude.{◌≡◌, true, ◌&&◌, IfOk};
ghost use Rattle.hardware.specs.Tables.{tables, tables_fit};
ghost use Rattle.lcd.specs.Pictures.{pictures, pictures_fit};
ghost use Rattle.oam_bug.specs.Kinds.{is_kind, number_of_kind};
ghost use Rattle.refusals.specs.Ladder.{own};
ghost use Rattle.refusals.specs.Refused.{number_of};
ghost use Rattle.registers.specs.Registers.{listed};
ghost use Rattle.terms.specs.Numbers.{paced, in_oam, timely, step_number, write_number, read_number};
ghost use Rattle.terms.specs.Numbers.{vram_number, oam_number, locked_oam_number, colour_number, kind_number, shown_number, Graded};

use hardware::{Machine, Mode};
use oam_bug::Kind;
use refusals::{Refusal, first, lowest, need};
use state::State;

// Whether both tables have their length.
fn tables_fit(vram: &[u8], oam: &[u8]) -> bool
    ensures { result ≡ tables_fit (tables vram.now oam.now) }
{
    vram.len() == Machine::VRAM_BYTES && oam.len() == Machine::OAM_BYTES
}

// Whether both pictures have their length, by a definition of its own, as `tables_fit` has one.
fn pictures_fit(a: &[u8], b: &[u8]) -> bool
    ensures { result ≡ pictures_fit (pictures a.now b.now) }
{
    a.len() == Machine::PICTURE_BYTES && b.len() == Machine::PICTURE_BYTES
}

// Whether every lent buffer has its length.
pub fn all_fit(vram: &[u8], oam: &[u8], a: &[u8], b: &[u8]) -> bool
    ensures { result ≡ tables_fit (tables vram.now oam.now)
        && pictures_fit (pictures a.now b.now) }
{
    tables_fit(vram, oam) && pictures_fit(a, b)
}

// Whether a step is 2, or 4 at a multiple of 4.
fn is_paced(cycle: u16, cycles: u8) -> bool
    ensures { result ≡ paced cycle cycles }
{
    cycles == 2 || cycles == 4 && cycle % 4 == 0
}

// Whether a corruption is asked outside mode 2, or in it with a cycle from 4 to 83.
fn is_timely(s: State) -> bool
    ensures { result ≡ timely s }
{
    Mode::of(s.regs.stat) != Mode::Search || (4..=83).contains(&s.beam.cycle)
}

// Whether the low byte of an address is in OAM.
fn is_in_oam(address: u16) -> bool
    ensures { result ≡ in_oam address }
{
    Machine::oam_place(address) < Machine::OAM_BYTES
}

// Whether a register can be written.
fn is_listed(address: u16) -> bool
    ensures { result ≡ listed address }
{
    registers::kept_bits(address) != 0
}

// A step: refused by 1, 2, 3.
pub fn step(
    s: State,
    vram: &[u8],
    oam: &[u8],
    a: &[u8],
    b: &[u8],
    cycles: u8,
) -> Result<(), Refusal>
    ensures { Graded s (step_number s (tables vram.now oam.now)
        (pictures a.now b.now) cycles) (number_of result) }
{
    lowest(
        all_fit(vram, oam, a, b),
        order::in_order(s),
        need(is_paced(s.beam.cycle, cycles), Refusal::Pace),
    )
}

// A register write: refused by 1, 2, 4.
pub fn write(s: State, a: &[u8], b: &[u8], address: u16) -> Result<(), Refusal>
    ensures { Graded s (write_number s (pictures a.now b.now) address) (number_of result) }
{
    lowest(
        pictures_fit(a, b),
        order::in_order(s),
        need(is_listed(address), Refusal::Argument),
    )
}

// A register read: refused by 2, 4.
pub fn read(s: State, address: u16) -> Result<(), Refusal>
    ensures { Graded s (read_number s address) (number_of result) }
{
    lowest(
        true,
        order::in_order(s),
        need(registers::is_readable(address), Refusal::Argument),
    )
}

// A VRAM write, and a locked VRAM call, write or read: refused by 1, 2.
pub fn vram(s: State, vram: &[u8]) -> Result<(), Refusal>
    ensures { Graded s (vram_number s vram.now) (number_of result) }
{
    lowest(
        vram.len() == Machine::VRAM_BYTES,
        order::in_order(s),
        Ok(()),
    )
}

// An OAM write: refused by 1, 4.
pub fn oam(oam: &[u8], address: u16) -> Result<(), Refusal>
    ensures { number_of result ≡ oam_number oam.now address }
{
    lowest(
        oam.len() == Machine::OAM_BYTES,
        true,
        need(is_in_oam(address), Refusal::Argument),
    )
}

// A locked OAM call, write or read: refused by 1, 2, 4.
pub fn locked_oam(s: State, oam: &[u8], address: u16) -> Result<(), Refusal>
    ensures { Graded s (locked_oam_number s oam.now address) (number_of result) }
{
    lowest(
        oam.len() == Machine::OAM_BYTES,
        order::in_order(s),
        need(is_in_oam(address), Refusal::Argument),
    )
}

// The colour flag: refused by 2.
pub fn colour(s: State) -> Result<(), Refusal>
    ensures { Graded s (colour_number s) (number_of result) }
{
    lowest(true, order::in_order(s), Ok(()))
}

// The kind of corruption that a number means: refused by 4. The calls take a number, and from here on it is a `Kind`.
fn known_kind(number: u8) -> Result<Kind, Refusal>
    ensures number { number_of result ≡ own (is_kind number) 4 }
    ensures kind { IfOk result (λ kind. number_of_kind kind ≡ number) }
{
    Kind::try_from(number).map_err(|_| Refusal::Argument)
}

// A corruption, and its kind by its number: refused by 1, 2, 4, 5.
pub fn kind(s: State, oam: &[u8], number: u8) -> Result<Kind, Refusal>
    ensures number { Graded s (kind_number s oam.now number) (number_of result) }
    ensures kind { IfOk result (λ kind. number_of_kind kind ≡ number) }
{
    let lower = need(oam_bug::is_kind(number), Refusal::Argument);
    let higher = need(is_timely(s), Refusal::Time);
    lowest(
        oam.len() == Machine::OAM_BYTES,
        order::in_order(s),
        first(lower, higher),
    )?;
    known_kind(number)
}

// A picture asked for: refused by 1, 2.
pub fn shown(s: State, a: &[u8], b: &[u8]) -> Result<(), Refusal>
    ensures { number_of result ≡ shown_number s (pictures a.now b.now) }
{
    lowest(pictures_fit(a, b), order::in_order(s), Ok(()))
}
