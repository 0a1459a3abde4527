// One pixel: the sprites that start at a place, and the mixer of background and sprite.
// VRAM's length, the counts of what is queued and selected, and a colour below 4 stand in clauses and in no type: docs/PROMISES.md names
// `add_sprites` and `mixer`, and a type would ask more of who calls them.
#![tactic(auto)]

ghost use Rattle.std.specs.Prelude.{◌≡◌, ◌<◌, ◌≤◌, length};
ghost use Rattle.hardware.specs.Tables.{vram_bytes};
ghost use Rattle.colors.specs.Palettes.{colour_at};
ghost use Rattle.pixel.specs.Sprites.{tall_of, selector, ink_of, none_starts, sprite_added, sprites_added};
ghost use Rattle.pixel.specs.Mixer.{wins, winner, passed, bg_colour, sprite_colour, winner_colour, seen};
ghost use Rattle.pixel.specs.Mixer.{Coloured};

use colors::{Color, ColorPalette, PaletteSet};
use fifo::{BgFifoPixel, SpriteFifo, SpriteFifoPixel};
use sprite::{SelectedSprite, Selection};
use state::{Registers, Spot};

// The height of sprites.
pub fn tall_of(lcdc: u8) -> u8
    ensures { result ≡ tall_of lcdc }
{
    if wrap::bit(lcdc, 2) { 16 } else { 8 }
}

// Which of the eight sprite palettes a sprite has.
fn selector_of(cgb: bool, s: SelectedSprite) -> u8
    ensures { result ≡ selector cgb s.sprite.flags }
{
    if cgb {
        s.sprite.cgb_palette()
    } else {
        s.sprite.dmg_palette()
    }
}

// What every pixel of a sprite has but its colour.
fn ink_of(r: Registers, palettes: PaletteSet, s: SelectedSprite) -> SpriteFifoPixel
    ensures { result ≡ ink_of r palettes.bytes s }
{
    SpriteFifoPixel {
        color: 0,
        palette: palettes.get_palette(selector_of(r.cgb, s)),
        obp: s.sprite.dmg_palette(),
        index: s.index,
        priority: s.sprite.bg_priority(),
    }
}

// The sprite queue after a selected sprite, which is laid into it if it starts at the place.
pub fn add_sprite(
    vram: &[u8],
    r: Registers,
    palettes: PaletteSet,
    at: Spot,
    q: SpriteFifo,
    s: SelectedSprite,
) -> SpriteFifo
    requires { (length vram.now ≡ vram_bytes) × (q.len ≤ 8) }
    ensures { result ≡ sprite_added vram.now r palettes.bytes at q s }
{
    if !tiles::starts_at(s.sprite, at.x) {
        return q;
    }
    // the row's source goes no further
    let row = tiles::sprite_colors(vram, s.sprite, at.line, tall_of(r.lcdc), at.x);
    let mut queue = q;
    queue.push(row.colors, ink_of(r, palettes, s), r.coord);
    queue
}

// Whether no selected sprite starts at column x.
pub fn does_none_start(l: Selection, x: u8) -> bool
    requires { l.count ≤ 10 }
    ensures { result ≡ none_starts l x }
{
    l.entries()
        .iter()
        .all(|slot| !tiles::starts_at(slot.sprite, x))
}

// The sprite queue after the selected sprites that start at the place, if sprites are drawn.
pub fn add_sprites(
    vram: &[u8],
    r: Registers,
    palettes: PaletteSet,
    l: Selection,
    at: Spot,
    q: SpriteFifo,
) -> SpriteFifo
    requires { (length vram.now ≡ vram_bytes) × (q.len ≤ 8) × (l.count ≤ 10) }
    ensures { result ≡ sprites_added vram.now r palettes.bytes l at q }
{
    if !wrap::bit(r.lcdc, 1) {
        return q;
    }
    let mut queue = q;
    for slot in l.entries() {
        queue = add_sprite(vram, r, palettes, at, queue, *slot);
    }
    queue
}

// Whether a sprite pixel is seen in front of a background pixel.
#[tactic(auto, unfolding(crate::specs::Mixer::wins))]
pub fn sprite_wins(r: Registers, b: BgFifoPixel, s: SpriteFifoPixel) -> bool
    ensures { result ≡ wins r b s }
{
    s.color != 0 && (r.cgb && !wrap::bit(r.lcdc, 0) || b.color == 0 || !b.priority && !s.priority)
}

// The sprite pixel that is seen in front of the background pixel, if one is. A pop of nothing falls back to the background, by the
// `let .. else` that docs/01-scope.md names.
#[tactic(auto, unfolding(crate::specs::Mixer::winner))]
pub fn decide(r: Registers, b: BgFifoPixel, pop: Option<SpriteFifoPixel>) -> Option<SpriteFifoPixel>
    ensures { result ≡ winner r b pop }
{
    let Some(s) = pop else {
        return None;
    };
    sprite_wins(r, b, s).then_some(s)
}

// A colour, passed by a palette byte outside colour mode.
fn pass(r: Registers, byte: u8, color: u8) -> u8
    requires { color < 4 }
    ensures { result ≡ passed r byte color }
{
    if r.cgb {
        color
    } else {
        colors::shade_of(byte, color)
    }
}

// A colour of a palette, passed by a palette byte outside colour mode.
fn color_by(r: Registers, byte: u8, palette: ColorPalette, color: u8) -> Color
    requires { color < 4 }
    ensures { result ≡ colour_at palette (passed r byte color) }
{
    palette.get_color(pass(r, byte, color))
}

// The colour of a background pixel.
fn bg_color(r: Registers, b: BgFifoPixel) -> Color
    requires { b.color < 4 }
    ensures { result ≡ bg_colour r b }
{
    color_by(r, r.bgp, b.palette, b.color)
}

// The colour of a sprite pixel.
fn sprite_color(r: Registers, s: SpriteFifoPixel) -> Color
    requires { s.color < 4 }
    ensures { result ≡ sprite_colour r s }
{
    let byte = if s.obp == 0 { r.obp0 } else { r.obp1 };
    color_by(r, byte, s.palette, s.color)
}

// The colour of what is seen.
pub fn color_of(r: Registers, b: BgFifoPixel, w: Option<SpriteFifoPixel>) -> Color
    requires { (b.color < 4) × Coloured w }
    ensures { result ≡ winner_colour r b w }
{
    match w {
        Some(s) => sprite_color(r, s),
        None => bg_color(r, b),
    }
}

// The mixer: of a background pixel and a pop of the sprite queue one is seen, and its colour is the answer.
pub fn mixer(r: Registers, b: BgFifoPixel, pop: Option<SpriteFifoPixel>) -> Color
    requires { (b.color < 4) × Coloured pop }
    ensures { result ≡ seen r b pop }
{
    color_of(r, b, decide(r, b, pop))
}
