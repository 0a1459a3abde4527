// The picture unit, the face of every call of the scope: start, step and register write stand here, the calls that touch no
// picture or only show one in `ports`, the locked ones in `locks`. Their numbers are of the crate `terms`. No call asks anything of
// its caller.
// Lent memory comes buffer by buffer, and in no struct: `&` and `&mut` tell of each what a call may do with it.
// A call takes only what it needs, as docs/01-scope.md tests it "only for what it takes".
#![tactic(auto)]

ghost use Rattle.std.specs.Prelude.{◌≡◌};
ghost use Rattle.hardware.specs.Tables.{tables};
ghost use Rattle.lcd.specs.Pictures.{pictures};
ghost use Rattle.ports.specs.Answers.{answered};
ghost use Rattle.ppu.specs.Answered.{started, step_answered};
ghost use Rattle.ppu.specs.Calls.{Start, Step, RegisterWrite};

use hardware::Machine;
pub use locks::{locked_read_oam, locked_read_vram, locked_write_oam, locked_write_vram};
pub use ports::{oam_bug, pick, read_register, screen_buffer, set_colour, write_oam, write_vram};
use refusals::Refusal;
use state::State;
use step::Report;

// A start that was refused: why, and the fresh state, which comes back all the same.
#[derive(Clone, Copy)]
pub struct Refused {
    pub why: Refusal,
    pub state: State,
}

// A fresh start of a machine: VRAM and OAM 0, both pictures white. Refused by 1.
pub fn start(
    machine: Machine,
    vram: &mut [u8],
    oam: &mut [u8],
    a: &mut [u8],
    b: &mut [u8],
) -> Result<State, Refused>
    ensures { Start machine
        (tables vram.old oam.old) (pictures a.old b.old) (started result)
        (tables vram.new oam.new) (pictures a.new b.new) }
{
    if !terms::all_fit(vram, oam, a, b) {
        return Err(Refused {
            why: Refusal::Length,
            state: memory::fresh_state(machine),
        });
    }
    Ok(memory::start(machine, vram, oam, a, b))
}

// One step of 2 or 4 cycles. Refused by 1, 2, 3.
pub fn step(
    s: &mut State,
    vram: &[u8],
    oam: &[u8],
    a: &mut [u8],
    b: &mut [u8],
    cycles: u8,
) -> Result<Report, Refusal>
    ensures { Step s.old (tables vram.now oam.now)
        (pictures a.old b.old) cycles (step_answered result s.new) (pictures a.new b.new) }
{
    terms::step(*s, vram, oam, a, b, cycles)?;
    let taken = step::step(*s, vram, oam, a, b, cycles);
    *s = taken.state;
    Ok(taken.report)
}

// A register write; an LCDC write that switches the display off fills both pictures. Refused by 1, 2, 4.
pub fn write_register(
    s: &mut State,
    a: &mut [u8],
    b: &mut [u8],
    address: u16,
    value: u8,
) -> Result<(), Refusal>
    ensures { RegisterWrite s.old (pictures a.old b.old) address value (answered result s.new)
        (pictures a.new b.new) }
{
    terms::write(*s, a, b, address)?;
    *s = registers::write_register(*s, a, b, address, value);
    Ok(())
}
