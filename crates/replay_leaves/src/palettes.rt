// The requests to the palettes behind their index port.
ghost use Rattle.std.specs.Prelude.{◌<◌};

use crate::plain;
use colors::{ColorPalette, PaletteSet};

// Palettes whose index port points into them.
#[derive(Clone, Copy)]
pub struct Palettes {
    set: PaletteSet,
    ghost in_range: { set.index < 64 },
}

// The word of colour number c, modulo 4: a palette is four numbers (docs/01-scope.md).
fn raw_of(p: ColorPalette, c: u8) -> u16 {
    match c % 4 {
        0 => p.c0,
        1 => p.c1,
        2 => p.c2,
        _ => p.c3,
    }
}

impl Palettes {
    pub fn fresh() -> Self {
        Palettes {
            set: PaletteSet::fresh(),
        }
    }

    // What the two ports read as.
    fn ports(&self) -> [u8; 8] {
        wire::padded(&[self.set.read_index(), self.set.read_color_data()])
    }

    // A write to the index port.
    fn write_index(&mut self, v: u8) -> [u8; 8] {
        self.set = self.set.after_write(false, v);
        wire::padded(&[self.set.read_index()])
    }

    // A write to the data port.
    fn write_data(&mut self, v: u8) -> [u8; 8] {
        self.set = self.set.after_write(true, v);
        self.ports()
    }

    // Colour number c of a palette.
    fn color_of(&self, p: u8, c: u8) -> [u8; 8] {
        let palette = self.set.get_palette(p);
        plain::color_and_raw(palette.get_color(c), raw_of(palette, c))
    }

    // One of the palettes is made greys.
    fn make_greys(&mut self, p: u8) -> [u8; 8] {
        self.set = self.set.set_palette(p, colors::grey_palette());
        [0; 8]
    }

    // The palettes as a start has them.
    fn restart(&mut self) -> [u8; 8] {
        *self = Palettes::fresh();
        [0; 8]
    }

    // The answer to a request to the palettes, by its kind: the numbers are the list's own format, and an enum between would name each
    // of them once more.
    pub fn answer(&mut self, q: [u8; 8]) -> [u8; 8] {
        match q[0] {
            11 => self.restart(),
            12 => self.write_index(q[1]),
            13 => self.write_data(q[1]),
            14 => self.ports(),
            15 => self.color_of(q[1], q[2]),
            16 => self.make_greys(q[1]),
            _ => plain::UNKNOWN,
        }
    }
}
