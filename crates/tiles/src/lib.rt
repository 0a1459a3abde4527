// Tile rows out of VRAM, each with where it was read: the background's by the map, and the sprites'. VRAM comes as a slice with a clause
// on its length, a bank by its number, and a sprite, a line and a height one by one: README.md and docs/PROMISES.md name these functions as they are, and
// `&[u8; Machine::VRAM_BYTES]` would ask more of a caller than the slice with its clause.
#![tactic(auto)]

ghost use Rattle.std.specs.Prelude.{◌≡◌, reverse, ◌<◌, ◌≤◌, length};
ghost use Rattle.hardware.specs.Tables.{bank_bytes, vram_bytes};
ghost use Rattle.tiles.specs.Tile.{byte_at, colour_in, row_of, mirrored, tile_address};
ghost use Rattle.tiles.specs.Map.{map_address, tile_line, bg_address, bg_off};
ghost use Rattle.tiles.specs.Objects.{sprite_line, first_tile, sprite_address, starts_left, starts_at};
ghost use Rattle.tiles.specs.Sources.{tile_row, flipped, pattern_row, fetched_tile, nothing_fetched, fetched_row, sprite_tile_row, started_row};

use bg_attribs::BgAttribute;
use hardware::Machine;
use sprite::Sprite;

// Where a row stands in VRAM: its bank, and the offset of its first byte in it.
#[derive(Clone, Copy)]
pub struct Address {
    pub bank: u8,
    pub offset: u16,
}

// A row as it was read: eight colours, leftmost first, and their source, the address of its first byte; none where nothing was read.
#[derive(Clone, Copy)]
pub struct TileRow {
    pub colors: [u8; 8],
    pub source: Option<Address>,
}

// The byte of a bank at an address, modulo the bank's bytes.
pub fn read_vram_banked(vram: &[u8], bank: u8, addr: u16) -> u8
    requires { (length vram.now ≡ vram_bytes) × (bank ≤ 1) }
    ensures { result ≡ byte_at vram.now bank addr }
{
    vram[Machine::vram_place(bank, addr)]
}

// The colour in bit n of a row.
fn color_in(low: u8, high: u8, n: u8) -> u8
    requires { n < 8 }
    ensures { result ≡ colour_in low high n }
{
    wrap::digit(low, n) + 2 * wrap::digit(high, n)
}

// The eight colours of a row, leftmost first, from its two bytes.
#[tactic(auto, unfolding(crate::specs::Tile::row_of))]
pub fn row_of(low: u8, high: u8) -> [u8; 8]
    ensures { result ≡ row_of low high }
{
    std::array::from_fn(|k| color_in(low, high, 7 - k as u8))
}

// The row that stands at an address, and that address as its source. Rows are read here and nowhere else: whatever is to read
// one, a line painter or a check of written tiles, goes through this.
pub fn tile_row(vram: &[u8], address: Address) -> TileRow
    requires { (length vram.now ≡ vram_bytes) × (address.bank ≤ 1) × (address.offset < bank_bytes) }
    ensures { result ≡ tile_row vram.now address }
{
    let second = address.offset + 1;
    let low = read_vram_banked(vram, address.bank, address.offset);
    let high = read_vram_banked(vram, address.bank, second);
    TileRow {
        colors: row_of(low, high),
        source: Some(address),
    }
}

// A row from right to left.
pub fn reversed(row: [u8; 8]) -> [u8; 8]
    ensures { result ≡ reverse row }
{
    let mut out = row;
    out.reverse();
    out
}

// A row, mirrored on an x flip.
pub fn mirror(flip: bool, row: [u8; 8]) -> [u8; 8]
    ensures { result ≡ mirrored flip row }
{
    if flip { reversed(row) } else { row }
}

// A row that was read, mirrored on an x flip: it was read where it was read.
fn flip_row(flip: bool, read: TileRow) -> TileRow
    ensures { result ≡ flipped flip read }
{
    TileRow {
        colors: mirror(flip, read.colors),
        ..read
    }
}

// Where a map holds the tile of a row of places and a column of tiles.
pub fn map_address(high: bool, row: u8, column: u8) -> u16
    ensures { result ≡ map_address high row column }
{
    let place = 32 * u16::from(row / 8) + u16::from(column);
    if high { 0x9C00 + place } else { 0x9800 + place }
}

// Where a background tile begins, its number signed when LCDC bit 4 is clear.
#[tactic(auto, unfolding(crate::specs::Tile::tile_address))]
pub fn tile_address(lcdc: u8, tile: u8) -> u16
    ensures { result ≡ tile_address lcdc tile }
{
    let place = 16 * u16::from(tile);
    if wrap::bit(lcdc, 4) {
        return 0x8000 + place;
    }
    if tile < 128 {
        0x9000 + place
    } else {
        0x8000 + place
    }
}

// Which of a tile's rows a row of the map meets.
pub fn tile_line(flip: bool, row: u8) -> u8
    ensures { result ≡ tile_line flip row }
{
    if flip { 7 - row % 8 } else { row % 8 }
}

// Where the row of a tile stands, by its number, its attribute and the row of the map.
pub fn bg_address(lcdc: u8, tile: u8, attribute: BgAttribute, row: u8) -> Address
    ensures { result ≡ bg_address lcdc tile attribute.bits row }
{
    let line = tile_line(attribute.is_vertical_flip(), row);
    let at = tile_address(lcdc, tile) + 2 * u16::from(line);
    Address {
        bank: attribute.bank(),
        offset: at % Machine::BANK_BYTES,
    }
}

// The row of a tile by its number, its attribute and the row of the map.
#[tactic(auto, unfolding(crate::specs::Sources::pattern_row, crate::specs::Map::pattern))]
pub fn pattern_of(vram: &[u8], lcdc: u8, tile: u8, attribute: BgAttribute, row: u8) -> TileRow
    requires { length vram.now ≡ vram_bytes }
    ensures { result ≡ pattern_row vram.now lcdc tile attribute.bits row }
{
    let read = tile_row(vram, bg_address(lcdc, tile, attribute, row));
    flip_row(attribute.is_horizontal_flip(), read)
}

// What the fetcher takes over: eight colours and the tile's attribute.
#[derive(Clone, Copy)]
pub struct Fetched {
    pub row: [u8; 8],
    pub attribute: BgAttribute,
}

// What a fetch answers: beside what the fetcher takes over the source of its row. The source ends here: it is for a memory
// viewer, and no queue, no state and no step's answer has it. A line painter will hand the viewer the source of each place.
#[derive(Clone, Copy)]
pub struct FetchedRow {
    pub tile: Fetched,
    pub source: Option<Address>,
}

// The tile row of a map at a row of places and a column of tiles.
#[tactic(auto, unfolding(crate::specs::Sources::pattern_row))]
pub fn fetch_tile(vram: &[u8], lcdc: u8, high: bool, row: u8, column: u8) -> FetchedRow
    requires { length vram.now ≡ vram_bytes }
    ensures { result ≡ fetched_tile vram.now lcdc high row column }
{
    let place = map_address(high, row, column);
    let tile = read_vram_banked(vram, 0, place);
    let attribute = BgAttribute::new(read_vram_banked(vram, 1, place));
    let TileRow { colors, source } = pattern_of(vram, lcdc, tile, attribute, row);
    FetchedRow {
        tile: Fetched {
            row: colors,
            attribute,
        },
        source,
    }
}

// What a fetch depends on besides VRAM: colour mode, LCDC, whether it is in the window, the scroll registers, the line,
// the window's row and the fetch column.
#[derive(Clone, Copy)]
pub struct Fetch {
    pub cgb: bool,
    pub lcdc: u8,
    pub window: bool,
    pub scx: u8,
    pub scy: u8,
    pub line: u8,
    pub wrow: u8,
    pub column: u8,
}

// Whether the background is taken away.
fn is_bg_off(cgb: bool, lcdc: u8) -> bool
    ensures { result ≡ bg_off cgb lcdc }
{
    !cgb && !wrap::bit(lcdc, 0)
}

fn no_tile() -> FetchedRow
    ensures { result ≡ nothing_fetched }
{
    FetchedRow {
        tile: Fetched {
            row: [0; 8],
            attribute: BgAttribute { bits: 0 },
        },
        source: None,
    }
}

// The tile row of a fetch, in the window or scrolled; eight 0s, and nothing read, outside colour mode with LCDC bit 0 clear.
#[tactic(auto, unfolding(crate::specs::Sources::fetched_row))]
pub fn fetch_bg(vram: &[u8], f: Fetch) -> FetchedRow
    requires { length vram.now ≡ vram_bytes }
    ensures { result ≡ fetched_row vram.now f }
{
    if is_bg_off(f.cgb, f.lcdc) {
        return no_tile();
    }
    if f.window {
        return fetch_tile(vram, f.lcdc, wrap::bit(f.lcdc, 6), f.wrow, f.column);
    }
    let row = (u16::from(f.line) + u16::from(f.scy)) % 256;
    let column = (f.scx / 8 + f.column % 32) % 32;
    fetch_tile(vram, f.lcdc, wrap::bit(f.lcdc, 3), row as u8, column)
}

// The row of a sprite at y in a line.
pub fn sprite_line(y: u8, line: u8, tall: u8, flip: bool) -> u8
    requires { 0 < tall }
    ensures { result ≡ sprite_line y line tall flip }
{
    let row = wrap::wrapping_sub(line, wrap::wrapping_sub(y, 16));
    if flip {
        wrap::wrapping_sub(tall - 1, row) % tall
    } else {
        row
    }
}

// The tile of a sprite's first row.
pub fn first_tile(tile: u8, tall: u8) -> u8
    ensures { result ≡ first_tile tile tall }
{
    if tall == 16 { tile / 2 * 2 } else { tile }
}

// Where the row of a sprite in a line stands.
pub fn sprite_address(sprite: Sprite, line: u8, tall: u8) -> Address
    requires { 0 < tall }
    ensures { result ≡ sprite_address sprite line tall }
{
    let row = sprite_line(sprite.y, line, tall, sprite.y_flipped());
    let tile = first_tile(sprite.tile, tall);
    let at = 0x8000 + 16 * u16::from(tile) + 2 * u16::from(row);
    Address {
        bank: sprite.bank(),
        offset: at % Machine::BANK_BYTES,
    }
}

// The row of a sprite in a line.
#[tactic(auto, unfolding(crate::specs::Sources::sprite_tile_row, crate::specs::Objects::sprite_row))]
pub fn sprite_row(vram: &[u8], sprite: Sprite, line: u8, tall: u8) -> TileRow
    requires { (length vram.now ≡ vram_bytes) × (0 < tall) }
    ensures { result ≡ sprite_tile_row vram.now sprite line tall }
{
    let read = tile_row(vram, sprite_address(sprite, line, tall));
    flip_row(sprite.x_flipped(), read)
}

// Whether a sprite that begins left of the screen starts at column x.
fn starts_left(sprite: Sprite, x: u8) -> bool
    ensures { result ≡ starts_left sprite x }
{
    x == 0 && sprite.x < 8
}

// Whether a sprite starts at column x.
pub fn starts_at(sprite: Sprite, x: u8) -> bool
    ensures { result ≡ starts_at sprite x }
{
    x == sprite.screen_x() || starts_left(sprite, x)
}

// The row of a sprite that starts at column x: the colours left of column 0 are gone. Its source ends in this answer, as that of
// a fetch does in `FetchedRow`.
#[tactic(auto, unfolding(crate::specs::Sources::started_row, crate::specs::Sources::sprite_tile_row, crate::specs::Objects::sprite_colours))]
pub fn sprite_colors(vram: &[u8], sprite: Sprite, line: u8, tall: u8, x: u8) -> TileRow
    requires { (length vram.now ≡ vram_bytes) × (0 < tall) }
    ensures { result ≡ started_row vram.now sprite line tall x }
{
    let read = sprite_row(vram, sprite, line, tall);
    if starts_left(sprite, x) {
        return TileRow {
            colors: sprite::move_left(read.colors, sprite.x),
            ..read
        };
    }
    read
}
