// The display: the colour mix, and two pictures of three bytes a place.
#![tactic(auto)]

ghost use Rattle.std.specs.Prelude.{◌≡◌, ◌<◌, ◌≤◌, length, replicate};
ghost use Rattle.hardware.specs.Screen.{width, height, picture_bytes, offset};
ghost use Rattle.lcd.specs.Mix.{quarter, mix};
ghost use Rattle.lcd.specs.Pictures.{stored, chosen, other};

use colors::Color;
use hardware::Machine;

// The three bytes of a place.
#[derive(Clone, Copy)]
pub struct Rgb {
    pub red: u8,
    pub green: u8,
    pub blue: u8,
}

// A sum of channels, at most 960, divided by 4 downward.
fn quarter_of(sum: u16) -> u8
    ensures { result ≡ quarter sum }
{
    (sum.min(960) / 4) as u8
}

// What a colour looks like on the screen, by shifts and adds alone. Of each sum 16 times its own channel, and the rest from sums of two
// channels. Each of those serves two of the three: an optimiser gathers the shifts of one channel into a product, and here it finds none.
pub fn mixed(c: Color) -> Rgb
    ensures { result ≡ mix c }
{
    let r = u16::from(c.r);
    let g = u16::from(c.g);
    let b = u16::from(c.b);
    let rg = r + g;
    let gb = g + b;
    let rb = r + b;
    Rgb {
        red: quarter_of((r << 4) + ((r + rg) << 2) + (rb << 1)),
        green: quarter_of((g << 4) + (gb << 3)),
        blue: quarter_of((b << 4) + (rb << 2) + (gb << 1) + (rg << 1)),
    }
}

// The first byte of the place in column x of row y.
pub fn offset_of(x: u8, y: u8) -> usize
    ensures { result ≡ offset x y }
{
    3 * (Machine::WIDTH * usize::from(y) + usize::from(x))
}

// Stores three bytes at a place of a picture, one by one, as `stored` has them. A slice with a clause on its length: docs/PROMISES.md names this function, and
// `&mut [u8; Machine::PICTURE_BYTES]` would ask more of a caller.
pub fn store(picture: &mut [u8], x: u8, y: u8, p: Rgb)
    requires { (length picture.old ≡ picture_bytes) × (x < width) × (y < height) }
    ensures { picture.new ≡ stored picture.old x y p }
{
    let at = offset_of(x, y);
    picture[at] = p.red;
    picture[at + 1] = p.green;
    picture[at + 2] = p.blue;
}

// Fills a picture with one byte. docs/PROMISES.md names this function; a start fills VRAM and OAM by it too.
pub fn fill(picture: &mut [u8], v: u8)
    ensures { picture.new ≡ replicate (length picture.old) v }
{
    picture.fill(v);
}

// The number of the picture that is not shown. A number, since docs/01-scope.md has the state's "shown picture 0 or 1".
pub fn next_buffer_index(shown: u8) -> u8
    requires { shown ≤ 1 }
    ensures { result ≡ other shown }
{
    1 - shown
}

// The picture shown: one of the two lent, whole and unmoved.
pub fn screen_buffer<'a>(shown: u8, a: &'a [u8], b: &'a [u8]) -> &'a [u8]
    ensures { result ≡ chosen shown a.entry b.entry }
{
    if shown == 0 { a } else { b }
}
