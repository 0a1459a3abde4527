// The public calls in the words of a run: each function calls its namesake of `ppu`, and promises what specs/Public says, that
// its answer and what it leaves are `number`, `answer` and `perform` of specs/Run. So what is proved of runs (specs/Demand) is
// proved of the functions that a caller calls. Nothing is added to them.
// Lent memory comes buffer by buffer, and in no struct: `&` and `&mut` tell of each what a call may do with it.
#![tactic(auto)]

ghost use Rattle.hardware.specs.Tables.{tables};
ghost use Rattle.lcd.specs.Pictures.{pictures};
ghost use Rattle.refusals.specs.Refused.{number_of};
ghost use Rattle.sprite.specs.Pick.{picked};
ghost use Rattle.ports.specs.Answers.{answered, read_answered};
ghost use Rattle.ppu.specs.Answered.{started, step_answered};
ghost use Rattle.history.specs.Public.{world, Started, Stepped, Writes, Reads, WritesVram, WritesOam, Colours};
ghost use Rattle.history.specs.Public.{Corrupts, Asks, Picks};
ghost use Rattle.history.specs.Public.{WritesLockedVram, WritesLockedOam, ReadsVram, ReadsOam};

use hardware::Machine;
use ppu::Refused;
use refusals::Refusal;
use sprite::Selection;
use state::State;
use step::Report;

pub fn start(
    machine: Machine,
    vram: &mut [u8],
    oam: &mut [u8],
    a: &mut [u8],
    b: &mut [u8],
) -> Result<State, Refused>
    ensures { Started machine
        (tables vram.old oam.old) (pictures a.old b.old) (started result)
        (world (started result).state (tables vram.new oam.new) (pictures a.new b.new)) }
{
    ppu::start(machine, vram, oam, a, b)
}

pub fn step(
    s: &mut State,
    vram: &[u8],
    oam: &[u8],
    a: &mut [u8],
    b: &mut [u8],
    cycles: u8,
) -> Result<Report, Refusal>
    ensures { Stepped cycles
        (world s.old (tables vram.now oam.now) (pictures a.old b.old)) (step_answered result s.new)
        (world s.new (tables vram.now oam.now) (pictures a.new b.new)) }
{
    ppu::step(s, vram, oam, a, b, cycles)
}

pub fn write_register(
    s: &mut State,
    a: &mut [u8],
    b: &mut [u8],
    address: u16,
    value: u8,
) -> Result<(), Refusal>
    ensures { Writes s.old (pictures a.old b.old) address value (answered result s.new)
        (pictures a.new b.new) }
{
    ppu::write_register(s, a, b, address, value)
}

pub fn read_register(s: &State, address: u16) -> Result<u8, Refusal>
    ensures { Reads s.now address (read_answered result s.now) }
{
    ppu::read_register(s, address)
}

pub fn write_vram(s: &State, vram: &mut [u8], address: u16, value: u8) -> Result<(), Refusal>
    ensures { WritesVram s.now vram.old address value (answered result s.now) vram.new }
{
    ppu::write_vram(s, vram, address, value)
}

pub fn write_oam(oam: &mut [u8], address: u16, value: u8) -> Result<(), Refusal>
    ensures { WritesOam oam.old address value (number_of result) oam.new }
{
    ppu::write_oam(oam, address, value)
}

pub fn set_colour(s: &mut State, flag: bool) -> Result<(), Refusal>
    ensures { Colours s.old flag (answered result s.new) }
{
    ppu::set_colour(s, flag)
}

// The kind stays a number, as in `ports`: `Corrupts` says of every number what is answered.
pub fn oam_bug(s: &State, oam: &mut [u8], kind: u8) -> Result<(), Refusal>
    ensures { Corrupts kind s.now oam.old (answered result s.now) oam.new }
{
    ppu::oam_bug(s, oam, kind)
}

pub fn screen_buffer<'a>(s: &State, a: &'a [u8], b: &'a [u8]) -> &'a [u8]
    ensures { Asks s.now a.entry b.entry result }
{
    ppu::screen_buffer(s, a, b)
}

pub fn pick(oam: &[u8], line: u8, tall: u8) -> Result<Selection, Refusal>
    ensures { Picks oam.now line tall (picked result) }
{
    ppu::pick(oam, line, tall)
}

pub fn locked_write_vram(s: &State, vram: &mut [u8], address: u16, value: u8) -> Result<(), Refusal>
    ensures { WritesLockedVram s.now vram.old address value (answered result s.now) vram.new }
{
    ppu::locked_write_vram(s, vram, address, value)
}

pub fn locked_write_oam(s: &State, oam: &mut [u8], address: u16, value: u8) -> Result<(), Refusal>
    ensures { WritesLockedOam s.now oam.old address value (answered result s.now) oam.new }
{
    ppu::locked_write_oam(s, oam, address, value)
}

pub fn locked_read_vram(s: &State, vram: &[u8], address: u16) -> Result<u8, Refusal>
    ensures { ReadsVram s.now vram.now address (read_answered result s.now) }
{
    ppu::locked_read_vram(s, vram, address)
}

pub fn locked_read_oam(s: &State, oam: &[u8], address: u16) -> Result<u8, Refusal>
    ensures { ReadsOam s.now oam.now address (read_answered result s.now) }
{
    ppu::locked_read_oam(s, oam, address)
}
