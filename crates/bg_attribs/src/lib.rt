// The attribute byte of a background tile. A sprite's flags have most of the same bits; docs/PROMISES.md names the functions of both, a line each.
#![tactic(auto)]

ghost use Rattle.std.specs.Prelude.{◌≡◌};
ghost use Rattle.bg_attribs.specs.Attribute.{palette_number, bank_of, x_flip, y_flip, priority_of};

#[derive(Clone, Copy)]
pub struct BgAttribute {
    pub bits: u8,
}

impl BgAttribute {
    // The byte as an attribute; no bit of it is dropped. docs/PROMISES.md names it `new`, so it is no `From<u8>`.
    pub fn new(byte: u8) -> Self
        ensures { result.bits ≡ byte }
    {
        BgAttribute { bits: byte }
    }

    // The bank that the tile's rows are read from.
    pub fn bank(self) -> u8
        ensures { result ≡ bank_of self.bits }
    {
        wrap::digit(self.bits, 3)
    }

    // Which of the eight background palettes.
    pub fn palette(self) -> u8
        ensures { result ≡ palette_number self.bits }
    {
        self.bits % 8
    }

    pub fn is_horizontal_flip(self) -> bool
        ensures { result ≡ x_flip self.bits }
    {
        wrap::bit(self.bits, 5)
    }

    pub fn is_vertical_flip(self) -> bool
        ensures { result ≡ y_flip self.bits }
    {
        wrap::bit(self.bits, 6)
    }

    // Whether colours 1 to 3 of the tile stand above sprites.
    pub fn priority(self) -> bool
        ensures { result ≡ priority_of self.bits }
    {
        wrap::bit(self.bits, 7)
    }
}
