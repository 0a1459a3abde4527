// The requests to the two pictures.
ghost use Rattle.std.specs.Prelude.{◌≡◌, ◌&&◌, ltb, ◌≤◌, length};
ghost use Rattle.hardware.specs.Screen.{width, height, picture_bytes};

use crate::plain;
use colors::Color;
use hardware::Machine;
use wire::Digest;

// Two pictures, and the number of the one shown: a number, since `lcd` and docs/01-scope.md have it as 0 or 1.
#[derive(Drop)]
pub struct Pictures {
    a: [u8; Machine::PICTURE_BYTES],
    b: [u8; Machine::PICTURE_BYTES],
    shown: u8,
    ghost one_of_two: { shown ≤ 1 },
}

// Whether a place is on the screen.
fn is_place(x: u8, y: u8) -> bool
    ensures { result ≡ (ltb x width && ltb y height) }
{
    usize::from(x) < Machine::WIDTH && usize::from(y) < Machine::HEIGHT
}

// The three bytes of a place of a picture, which is a slice as `lcd::screen_buffer` gives it.
fn place(picture: &[u8], x: u8, y: u8) -> [u8; 8]
    requires { length picture.now ≡ picture_bytes }
{
    if !is_place(x, y) {
        return plain::UNKNOWN;
    }
    let at = lcd::offset_of(x, y);
    wire::padded(&picture[at..at + 3])
}

impl Pictures {
    // Both are white, and the first is shown.
    pub fn white() -> Self {
        Pictures {
            a: [255; Machine::PICTURE_BYTES],
            b: [255; Machine::PICTURE_BYTES],
            shown: 0,
        }
    }

    // Makes both pictures white.
    fn clear(&mut self) -> [u8; 8] {
        lcd::fill(&mut self.a, 255);
        lcd::fill(&mut self.b, 255);
        [0; 8]
    }

    // Stores a colour in the picture that is not shown.
    fn store(&mut self, x: u8, y: u8, c: Color) -> [u8; 8] {
        if !is_place(x, y) {
            return plain::UNKNOWN;
        }
        // A call for each: a `&mut` that is one of two pictures gets no proof.
        if self.shown == 0 {
            lcd::store(&mut self.b, x, y, lcd::mixed(c));
        } else {
            lcd::store(&mut self.a, x, y, lcd::mixed(c));
        }
        plain::mix(c)
    }

    // Shows the other picture.
    fn switch(&mut self) -> [u8; 8] {
        self.shown = lcd::next_buffer_index(self.shown);
        wire::padded(&[self.shown])
    }

    // The picture shown at 0, the other at any other number.
    fn picture(&self, which: u8) -> &[u8]
        ensures { length result.now ≡ picture_bytes }
    {
        let n = if which == 0 {
            self.shown
        } else {
            lcd::next_buffer_index(self.shown)
        };
        lcd::screen_buffer(n, &self.a, &self.b)
    }

    // The answer to a request to the pictures, by its kind: the numbers are the list's own format, and an enum between would name each
    // of them once more.
    pub fn answer(&mut self, q: [u8; 8]) -> [u8; 8] {
        match q[0] {
            18 => self.clear(),
            19 => {
                let c = Color {
                    r: q[3],
                    g: q[4],
                    b: q[5],
                };
                self.store(q[1], q[2], c)
            }
            20 => place(self.picture(q[1]), q[2], q[3]),
            21 => self.switch(),
            22 => Digest::new().bytes(self.picture(q[1])).to_bytes(),
            _ => plain::UNKNOWN,
        }
    }
}
