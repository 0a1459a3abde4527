// The machine: what a start fixes of it, its measures, and the modes of its picture unit.

#![tactic(auto)]

ghost use Rattle.std.specs.Prelude.{◌≡◌, ◌≤◌, ◌+◌, ◌*◌, ◌/◌, ◌%◌};
ghost use Rattle.hardware.specs.Modes.{mode_number};
ghost use Rattle.hardware.specs.Tables.{bank_bytes};

// A hand-held, as a start fixes it and no later call changes it: the first one (DMG) or a later one, and whether colour
// mode is wanted, which only a later one has.
#[derive(Clone, Copy)]
pub struct Machine {
    pub dmg: bool,
    pub cgb: bool,
}

impl Machine {
    // Places in a row, rows in a picture.
    pub const WIDTH: usize = 160;

    pub const HEIGHT: usize = 144;
    // Cycles in a line, lines in a frame.
    pub const LINE_CYCLES: u16 = 456;

    pub const FRAME_LINES: u8 = 154;
    // The first line below the picture, and the last line.
    pub const VBLANK_LINE: u8 = 144;

    pub const LAST_LINE: u8 = 153;
    // The places of a picture, and its bytes, three a place.
    pub const PLACES: usize = Machine::WIDTH * Machine::HEIGHT;

    pub const PICTURE_BYTES: usize = 3 * Machine::PLACES;
    // The bytes of VRAM, of each of its two banks, and of OAM.
    pub const VRAM_BYTES: usize = 16384;

    pub const BANK_BYTES: u16 = 8192;

    pub const OAM_BYTES: usize = 160;

    // The place in VRAM of an address modulo a bank's bytes, in one of the two banks. The bank is a number, since a state can have one over
    // 1, and is refused for it.
    pub fn vram_place(bank: u8, address: u16) -> usize
        requires { bank ≤ 1 }
        ensures { result ≡ bank_bytes * bank + address % bank_bytes }
    {
        usize::from(Machine::BANK_BYTES) * usize::from(bank)
            + usize::from(address % Machine::BANK_BYTES)
    }

    // The place in OAM of an address by its low byte, if it is below OAM's bytes.
    pub fn oam_place(address: u16) -> usize
        ensures { result ≡ address % 256 }
    {
        usize::from(address % 256)
    }
}

// The modes, in the order of their numbers in STAT.
#[derive(Clone, Copy, Debug, PartialEq, Eq)]
pub enum Mode {
    HBlank,
    VBlank,
    Search,
    Draw,
}

impl Mode {
    // The mode that STAT holds.
    pub fn of(stat: u8) -> Self
        ensures { mode_number result ≡ stat % 4 }
    {
        match stat % 4 {
            0 => Mode::HBlank,
            1 => Mode::VBlank,
            2 => Mode::Search,
            _ => Mode::Draw,
        }
    }

    // STAT with this mode in it.
    pub fn put_in(self, stat: u8) -> u8
        ensures { result ≡ stat / 4 * 4 + mode_number self }
    {
        stat / 4 * 4 + self as u8
    }
}
