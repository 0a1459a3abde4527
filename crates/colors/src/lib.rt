// Colours: 15 bits a colour, eight palettes of four behind an index port, and the shades of a palette byte.
#![tactic(auto)]

ghost use Rattle.std.specs.Prelude.{◌≡◌, true, ◌<◌, ◌+◌, ◌*◌, ◌/◌, ◌%◌, set};
ghost use Rattle.colors.specs.Colour.{colour_of, raw_of};
ghost use Rattle.colors.specs.Shade.{shade};
ghost use Rattle.colors.specs.Palettes.{colour_at, palette_of, palette, palette_set, grey, greys, word};
ghost use Rattle.colors.specs.Palettes.{fresh_set, index_written, data_written, after_write, index_read, data_read};

#[derive(Clone, Copy)]
pub struct Color {
    pub r: u8,
    pub g: u8,
    pub b: u8,
}

// docs/PROMISES.md names these two; `From` would be no plainer, since each drops bits.
impl Color {
    pub fn from_raw(raw: u16) -> Self
        ensures { result ≡ colour_of raw }
    {
        Color {
            r: (raw % 32) as u8,
            g: (raw / 32 % 32) as u8,
            b: (raw / 1024 % 32) as u8,
        }
    }

    pub fn to_raw(self) -> u16
        ensures { result ≡ raw_of self }
    {
        let r = u16::from(self.r % 32);
        let g = u16::from(self.g % 32);
        let b = u16::from(self.b % 32);
        r + g * 32 + b * 1024
    }
}

// Four colours as words: four numbers and no array, as docs/01-scope.md has a queued pixel's palette.
#[derive(Clone, Copy)]
pub struct ColorPalette {
    pub c0: u16,
    pub c1: u16,
    pub c2: u16,
    pub c3: u16,
}

impl ColorPalette {
    // Of four colours. docs/PROMISES.md names it `new`, so it is no `From<[Color; 4]>`.
    pub fn new(colors: [Color; 4]) -> Self
        ensures { result ≡ palette_of colors }
    {
        let [c0, c1, c2, c3] = colors.map(Color::to_raw);
        ColorPalette { c0, c1, c2, c3 }
    }

    // The colour of a colour number, modulo 4.
    pub fn get_color(self, index: u8) -> Color
        ensures { result ≡ colour_at self index }
    {
        let words = [self.c0, self.c1, self.c2, self.c3];
        Color::from_raw(words[usize::from(index % 4)])
    }
}

// The shade that a palette byte (BGP, OBP0, OBP1) gives a colour number, which has two bits: docs/PROMISES.md names this function, and a type
// would ask more of who calls it.
pub fn shade_of(palette: u8, color: u8) -> u8
    requires { color < 4 }
    ensures { result ≡ shade palette color }
{
    (palette >> (2 * color)) % 4
}

// Eight palettes of four colours as 64 bytes, with their index port. That the index is below 64 stands in clauses: a state can have
// one over 63, and is refused for it.
#[derive(Clone, Copy)]
pub struct PaletteSet {
    pub bytes: [u8; 64],
    pub index: u8,
    pub auto: bool,
}

impl PaletteSet {
    pub fn fresh() -> Self
        ensures { result ≡ fresh_set }
    {
        PaletteSet {
            bytes: [0; 64],
            index: 0,
            auto: true,
        }
    }

    pub fn read_index(self) -> u8
        requires { self.index < 64 }
        ensures { result ≡ index_read self }
    {
        if self.auto {
            192 + self.index
        } else {
            64 + self.index
        }
    }

    pub fn write_index(&mut self, data: u8)
        ensures { self.new ≡ index_written self.old «data» }
    {
        self.index = data % 64;
        self.auto = wrap::bit(data, 7);
    }

    pub fn write_color_data(&mut self, data: u8)
        requires { self.old.index < 64 }
        ensures { self.new ≡ data_written self.old «data» }
    {
        self.bytes[usize::from(self.index)] = data;
        if self.auto {
            self.index = (self.index + 1) % 64;
        }
    }

    // The set after a write to its data port, or else to its index port: for those who hold it by value. The port is a flag, since
    // docs/PROMISES.md and docs/DECISIONS.md (16) name this function; the two writes have names of their own above.
    pub fn after_write(self, data_port: bool, value: u8) -> Self
        requires { data_port ≡ true → self.index < 64 }
        ensures { result ≡ after_write self data_port value }
    {
        let mut set = self;
        if data_port {
            set.write_color_data(value);
        } else {
            set.write_index(value);
        }
        set
    }

    pub fn read_color_data(self) -> u8
        requires { self.index < 64 }
        ensures { result ≡ data_read self }
    {
        self.bytes[usize::from(self.index)]
    }

    // Palette p of the eight, p modulo 8.
    pub fn get_palette(self, p: u8) -> ColorPalette
        ensures { result ≡ palette self.bytes p }
    {
        let at = usize::from(p % 8) * 8;
        let [c0, c1, c2, c3]: [u16; 4] = std::array::from_fn(|k| word_at(self.bytes, at + 2 * k));
        ColorPalette { c0, c1, c2, c3 }
    }

    // The set with a palette in place of palette p, p modulo 8. A line a word: docs/01-scope.md has a palette be four numbers, and a
    // loop would have to list them first.
    pub fn set_palette(self, p: u8, palette: ColorPalette) -> Self
        ensures { result ≡ palette_set self p palette }
    {
        let at = usize::from(p % 8) * 8;
        let one = with_word(self.bytes, at, palette.c0);
        let two = with_word(one, at + 2, palette.c1);
        let three = with_word(two, at + 4, palette.c2);
        PaletteSet {
            bytes: with_word(three, at + 6, palette.c3),
            ..self
        }
    }
}

// The word at byte i, low byte first.
pub fn word_at(bytes: [u8; 64], i: usize) -> u16
    requires { i < 63 }
    ensures { result ≡ word bytes i }
{
    u16::from_le_bytes([bytes[i], bytes[i + 1]])
}

// The bytes with a word at byte i, low byte first.
pub fn with_word(bytes: [u8; 64], i: usize, w: u16) -> [u8; 64]
    requires { i < 63 }
    ensures { result ≡ set (set bytes i (w % 256)) (i + 1) (w / 256) }
{
    let mut out = bytes;
    let [low, high] = w.to_le_bytes();
    out[i] = low;
    out[i + 1] = high;
    out
}

// A colour of equal parts.
fn grey(v: u8) -> Color
    ensures { result ≡ grey v }
{
    Color { r: v, g: v, b: v }
}

// The four greys of the start, from white to black.
pub fn grey_palette() -> ColorPalette
    ensures { result ≡ greys }
{
    ColorPalette::new([grey(31), grey(21), grey(10), grey(0)])
}
