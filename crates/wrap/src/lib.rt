// Arithmetic modulo 256, and the bits of a byte by their place. A place is a number below 8: each call but that of a tile's row names one,
// and a type for it would be made there only to be taken apart here.
#![tactic(auto)]

ghost use Rattle.std.specs.Prelude.{◌≡◌, ◌<◌};
ghost use Rattle.wrap.specs.Wrap.{minus, digit_at, bit_at};

// a - b modulo 256. One more, modulo 256, is 255 less.
pub fn wrapping_sub(a: u8, b: u8) -> u8
    ensures { result ≡ minus a b }
{
    a.wrapping_sub(b)
}

// Bit n of x as a number, 0 or 1.
pub fn digit(x: u8, n: u8) -> u8
    requires { n < 8 }
    ensures { result ≡ digit_at x n }
{
    (x >> n) % 2
}

// Whether bit n of x is set.
pub fn bit(x: u8, n: u8) -> bool
    requires { n < 8 }
    ensures { result ≡ bit_at x n }
{
    digit(x, n) == 1
}
