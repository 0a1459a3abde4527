// Sprites: an entry of OAM, and the search of a line for the ten to draw. OAM, a line and a height come one by one: docs/PROMISES.md
// names `select` and `pick` as they are, and a pick can be refused for each of the three. OAM is a slice, with a clause
// on its length in `select`, since `pick` takes one of any length and tests it.
#![tactic(auto)]

ghost use Rattle.std.specs.Prelude.{◌≡◌, ◌∷◌, ◌<◌, ◌*◌, ◌+◌, length, get_or, set, take};
ghost use Rattle.hardware.specs.Tables.{oam_bytes};
ghost use Rattle.sprite.specs.Oam.{entry, screen_y, screen_x, in_range, entry_bytes, moved_left};
ghost use Rattle.sprite.specs.Oam.{colour_palette, bank_of, grey_palette, x_flip, y_flip, behind};
ghost use Rattle.sprite.specs.Pick.{selection, blank_slots, is_tall, pickable, pick_number, pick_of, picked};
ghost use Rattle.refusals.specs.Refused.{number_of};

use hardware::Machine;
use refusals::{Refusal, lowest, need};

// The four bytes of an entry of OAM.
#[derive(Clone, Copy)]
pub struct Sprite {
    pub y: u8,
    pub x: u8,
    pub tile: u8,
    pub flags: u8,
}

impl Sprite {
    // Entry i of OAM: each byte by its place, as `entry` has them.
    pub fn at(oam: &[u8], i: usize) -> Self
        requires { 4 * i + 3 < length oam.now }
        ensures { result ≡ entry oam.now i }
    {
        Sprite {
            y: oam[4 * i],
            x: oam[4 * i + 1],
            tile: oam[4 * i + 2],
            flags: oam[4 * i + 3],
        }
    }

    // The byte at an offset of the entry: y, x, tile, flags. A number and no enum: it is the lower two bits of the byte's address in
    // OAM, and docs/PROMISES.md names both functions.
    pub fn get_at_offset(self, offset: u8) -> u8
        requires { offset < 4 }
        ensures { result ≡ get_or (entry_bytes self) offset 0 }
    {
        match offset {
            0 => self.y,
            1 => self.x,
            2 => self.tile,
            _ => self.flags,
        }
    }

    // The entry with another byte at an offset, the same number.
    pub fn set_at_offset(self, offset: u8, data: u8) -> Self
        requires { offset < 4 }
        ensures { result ≡ entry (set (entry_bytes self) offset «data») 0 }
    {
        let mut next = self;
        match offset {
            0 => next.y = data,
            1 => next.x = data,
            2 => next.tile = data,
            _ => next.flags = data,
        }
        next
    }

    // The line of the top row.
    pub fn screen_y(self) -> u8
        ensures { result ≡ screen_y self.y }
    {
        wrap::wrapping_sub(self.y, 16)
    }

    // The column of the left edge.
    pub fn screen_x(self) -> u8
        ensures { result ≡ screen_x self.x }
    {
        wrap::wrapping_sub(self.x, 8)
    }

    // Whether a line meets a row of the sprite.
    pub fn in_range(self, line: u8, tall: u8) -> bool
        ensures { result ≡ in_range self.y line tall }
    {
        let top = self.screen_y();
        wrap::wrapping_sub(line, top) < tall
    }

    pub fn dmg_palette(self) -> u8
        ensures { result ≡ grey_palette self.flags }
    {
        wrap::digit(self.flags, 4)
    }

    // Whether background colours 1 to 3 stand above the sprite.
    pub fn bg_priority(self) -> bool
        ensures { result ≡ behind self.flags }
    {
        wrap::bit(self.flags, 7)
    }

    pub fn y_flipped(self) -> bool
        ensures { result ≡ y_flip self.flags }
    {
        wrap::bit(self.flags, 6)
    }

    pub fn x_flipped(self) -> bool
        ensures { result ≡ x_flip self.flags }
    {
        wrap::bit(self.flags, 5)
    }

    pub fn cgb_palette(self) -> u8
        ensures { result ≡ colour_palette self.flags }
    {
        self.flags % 8
    }

    pub fn bank(self) -> u8
        ensures { result ≡ bank_of self.flags }
    {
        wrap::digit(self.flags, 3)
    }
}

// A copy of an entry, with its index.
#[derive(Clone, Copy)]
pub struct SelectedSprite {
    pub sprite: Sprite,
    pub index: u8,
}

impl SelectedSprite {
    pub fn new(sprite: Sprite, index: u8) -> Self
        ensures { (result.sprite ≡ sprite) × (result.index ≡ index) }
    {
        SelectedSprite { sprite, index }
    }

    // The index, and the four bytes of the entry.
    pub fn to_bytes(self) -> [u8; 5]
        ensures { result ≡ self.index ∷ entry_bytes self.sprite }
    {
        let Sprite { y, x, tile, flags } = self.sprite;
        [self.index, y, x, tile, flags]
    }
}

// The entries that a search picked: the first `count` of the slots. An array with a count, since nothing here allocates, and since
// docs/01-scope.md has the slots past the count keep their content.
#[derive(Clone, Copy)]
pub struct Selection {
    pub count: u8,
    pub slots: [SelectedSprite; 10],
}

impl Selection {
    // The entries that were picked, in OAM's order.
    pub fn entries(&self) -> &[SelectedSprite]
        ensures { result.now ≡ take self.now.count self.now.slots }
    {
        &self.slots[..usize::from(self.count).min(10)]
    }
}

// The ten lowest entries in range of a line, over slots that keep what they had past the count.
pub fn select(oam: &[u8], line: u8, tall: u8, former: [SelectedSprite; 10]) -> Selection
    requires { length oam.now ≡ oam_bytes }
    ensures { result ≡ selection oam.now line tall former }
{
    let mut slots = former;
    let mut count: usize = 0;
    // A labelled loop over forty entries, as docs/01-scope.md ("the search ends at the tenth") names it.
    'search: for i in 0..40 {
        let sprite = Sprite::at(oam, i);
        if sprite.in_range(line, tall) {
            slots[count] = SelectedSprite {
                sprite,
                index: i as u8,
            };
            count += 1;
            if count == 10 {
                break 'search;
            }
        }
    }
    Selection {
        count: count as u8,
        slots,
    }
}

// Ten slots of nothing.
pub fn blank() -> [SelectedSprite; 10]
    ensures { result ≡ blank_slots }
{
    [SelectedSprite {
        sprite: Sprite {
            y: 0,
            x: 0,
            tile: 0,
            flags: 0,
        },
        index: 0,
    }; 10]
}

// Whether sprites can be so tall.
pub fn is_tall(tall: u8) -> bool
    ensures { result ≡ is_tall tall }
{
    tall == 8 || tall == 16
}

// Whether a line is of the picture, and sprites can be so tall.
fn is_pickable(line: u8, tall: u8) -> bool
    ensures { result ≡ pickable line tall }
{
    usize::from(line) < Machine::HEIGHT && is_tall(tall)
}

// Whether a pick is refused: by 1 or 4.
fn allow_pick(oam: &[u8], line: u8, tall: u8) -> Result<(), Refusal>
    ensures { number_of result ≡ pick_number oam.now line tall }
{
    lowest(
        oam.len() == Machine::OAM_BYTES,
        true,
        need(is_pickable(line, tall), Refusal::Argument),
    )
}

// The ten lowest entries in range of a line, in slots that are 0 past the count; refused by 1 or 4.
pub fn pick(oam: &[u8], line: u8, tall: u8) -> Result<Selection, Refusal>
    ensures { picked result ≡ pick_of oam.now line tall }
{
    allow_pick(oam, line, tall)?;
    Ok(select(oam, line, tall, blank()))
}

// The colours of a sprite at x: below 8 they move left by 8 - x, and 0s follow.
pub fn move_left(colors: [u8; 8], x: u8) -> [u8; 8]
    ensures { result ≡ moved_left colors x }
{
    if x >= 8 {
        return colors;
    }
    let kept = usize::from(x);
    let mut out = [0; 8];
    out[..kept].copy_from_slice(&colors[8 - kept..]);
    out
}
