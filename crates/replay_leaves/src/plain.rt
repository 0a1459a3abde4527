// The requests that keep no state: an attribute, a sprite, a colour, a shade.
use bg_attribs::BgAttribute;
use colors::Color;
use sprite::Sprite;

// The answer to a request that is not known, or whose place is not on the screen.
pub const UNKNOWN: [u8; 8] = [255, 0, 0, 0, 0, 0, 0, 0];

// A colour and a word, low byte first.
pub fn color_and_raw(c: Color, raw: u16) -> [u8; 8] {
    let [low, high] = raw.to_le_bytes();
    wire::padded(&[c.r, c.g, c.b, low, high])
}

// The parts of an attribute byte.
fn attribs(byte: u8) -> [u8; 8] {
    let a = BgAttribute::new(byte);
    wire::padded(&[
        a.bank(),
        a.palette(),
        u8::from(a.is_horizontal_flip()),
        u8::from(a.is_vertical_flip()),
        u8::from(a.priority()),
    ])
}

// The sprite in bytes 1 to 4 of a request.
fn sprite_of(q: [u8; 8]) -> Sprite {
    Sprite {
        y: q[1],
        x: q[2],
        tile: q[3],
        flags: q[4],
    }
}

// The parts of a sprite's entry.
fn sprite_parts(s: Sprite) -> [u8; 8] {
    [
        s.screen_y(),
        s.screen_x(),
        s.dmg_palette(),
        u8::from(s.bg_priority()),
        u8::from(s.y_flipped()),
        u8::from(s.x_flipped()),
        s.cgb_palette(),
        s.bank(),
    ]
}

// Whether a line meets a sprite at y, so tall.
fn in_range(y: u8, line: u8, tall: u8) -> [u8; 8] {
    let s = Sprite {
        y,
        x: 0,
        tile: 0,
        flags: 0,
    };
    wire::padded(&[u8::from(s.in_range(line, tall))])
}

// A byte of an entry, and the entry after a write there.
fn at_offset(s: Sprite, offset: u8, value: u8) -> [u8; 8] {
    let before = s.get_at_offset(offset % 4);
    let after = s.set_at_offset(offset % 4, value);
    wire::padded(&[before, after.y, after.x, after.tile, after.flags])
}

// The colour of a word, and the word of it again.
fn from_raw(raw: u16) -> [u8; 8] {
    let color = Color::from_raw(raw);
    color_and_raw(color, color.to_raw())
}

// A colour as the display mixes it.
pub fn mix(c: Color) -> [u8; 8] {
    let p = lcd::mixed(c);
    wire::padded(&[p.red, p.green, p.blue])
}

// Bytes 1 to 3 of a request as a colour.
fn color_of(q: [u8; 8]) -> Color {
    Color {
        r: q[1],
        g: q[2],
        b: q[3],
    }
}

// The shade of a colour, modulo 4, by a palette byte.
fn shade(palette: u8, color: u8) -> [u8; 8] {
    wire::padded(&[colors::shade_of(palette, color % 4)])
}

// The answer to a request that keeps no state, by its kind: the numbers are the list's own format, and an enum between would name each
// of them once more.
pub fn answer(q: [u8; 8]) -> [u8; 8] {
    match q[0] {
        1 => attribs(q[1]),
        2 => sprite_parts(sprite_of(q)),
        3 => in_range(q[1], q[2], q[3]),
        4 => at_offset(sprite_of(q), q[5], q[6]),
        8 => from_raw(u16::from_le_bytes([q[1], q[2]])),
        9 => wire::padded(&color_of(q).to_raw().to_le_bytes()),
        10 => mix(color_of(q)),
        17 => shade(q[1], q[2]),
        _ => UNKNOWN,
    }
}
