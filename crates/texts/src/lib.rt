// Bytes put into a slice one behind the other, and numbers as text; and on top of these a `Text`, which holds at most so many bytes. Each
// function that puts into a slice answers the place behind what it put.
#![tactic(auto)]

ghost use Rattle.std.specs.Prelude.{◌≡◌, ℕ, List, [], ◌∷◌, ◌++◌, ◌+◌, ◌≤◌, ◌<◌, length, take};
ghost use Rattle.texts.specs.Appended.{Appended};
ghost use Rattle.texts.specs.Numbers.{digits, decimal};
ghost use Rattle.texts.specs.Numbers.{letter as letterOf, places as places_of};

use std::marker::Model;

// Bytes put one behind the other, at most N: an array with a count, since nothing here allocates.
#[derive(Drop)]
pub struct Text<const N: usize> {
    bytes: [u8; N],
    len: usize,
}

// A clause sees the bytes that were put.
impl<const N: usize> Model for Text<N> {
    ghost Value = { List ℕ };

    ghost view = { λ t. take t.len t.bytes };

    ghost invariant = { λ t. t.len ≤ N };
}

impl<const N: usize> Text<N> {
    ghost use Rattle.std.specs.Borrow.{sem};
    ghost use Rattle.texts.specs.Room.{LendsRoom};

    // No bytes.
    pub fn new() -> Self
        ensures { result ≡ [] }
    {
        Text {
            bytes: [0; N],
            len: 0,
        }
    }

    // The bytes.
    pub fn as_bytes(&self) -> &[u8]
        ensures value { result.now ≡ self.now }
        ensures fits { length self.now ≤ N }
    {
        &self.bytes[..self.len]
    }

    // All of the room, for a caller to write: what stands there then is the text, until it is cut to its length.
    pub fn room(&mut self) -> &mut [u8; N]
        ensures* { sem 𝓛 (LendsRoom N.row N self.entry result) }
    {
        self.len = N;
        &mut self.bytes
    }

    // Keeps the first bytes.
    pub fn truncate(&mut self, len: usize)
        ensures { self.new ≡ take len self.old }
    {
        self.len = self.len.min(len);
    }

    // Takes all bytes out.
    pub fn clear(&mut self)
        ensures { self.new ≡ [] }
    {
        self.len = 0;
    }

    // Puts a byte behind the last.
    pub fn put_byte(&mut self, byte: u8)
        requires { length self.old < N }
        ensures put { self.new ≡ self.old ++ byte ∷ [] }
        ensures len { length self.new ≡ length self.old + 1 }
    {
        self.len = put_byte(&mut self.bytes, self.len, byte);
    }

    // Puts bytes behind the last.
    pub fn put(&mut self, bytes: &[u8])
        requires { length self.old + length bytes.now ≤ N }
        ensures put { self.new ≡ self.old ++ bytes.now }
        ensures len { length self.new ≡ length self.old + length bytes.now }
    {
        self.len = put_bytes(&mut self.bytes, self.len, bytes);
    }

    // Puts the last k digits of a number.
    pub fn put_digits(&mut self, n: u64, base: u64, k: usize)
        requires { (0 < base) × (base ≤ 16) × (length self.old + k ≤ N) }
        ensures put { self.new ≡ self.old ++ digits base k n }
        ensures len { length self.new ≡ length self.old + k }
    {
        self.len = put_digits(&mut self.bytes, self.len, n, base, k);
    }

    // Puts a decimal number with no zeros in front.
    pub fn put_decimal(&mut self, n: u32)
        requires { length self.old + 10 ≤ N }
        ensures put { self.new ≡ self.old ++ decimal n }
        ensures most { length self.new ≤ length self.old + 10 }
    {
        self.len = put_decimal(&mut self.bytes, self.len, n);
    }
}

// A byte at a place.
pub fn put_byte(out: &mut [u8], at: usize, byte: u8) -> usize
    requires { at < length out.old }
    ensures { Appended out.old out.new at result (byte ∷ []) }
{
    out[at] = byte;
    at + 1
}

// Bytes from a place on.
pub fn put_bytes(out: &mut [u8], at: usize, bytes: &[u8]) -> usize
    requires { at + length bytes.now ≤ length out.old }
    ensures { Appended out.old out.new at result bytes.now }
{
    let end = at + bytes.len();
    out[at..end].copy_from_slice(bytes);
    end
}

// The last k digits of a number: those before the last, then the last.
pub fn put_digits(out: &mut [u8], at: usize, n: u64, base: u64, k: usize) -> usize
    requires { (0 < base) × (base ≤ 16) × (at + k ≤ length out.old) }
    ensures { Appended out.old out.new at result (digits base k n) }
{
    if k == 0 {
        return at;
    }
    let last = put_digits(out, at, n / base, base, k - 1);
    put_byte(out, last, letter(n % base))
}

// A decimal number with no zeros in front.
#[tactic(auto, unfolding(crate::specs::Numbers::decimal))]
pub fn put_decimal(out: &mut [u8], at: usize, n: u32) -> usize
    requires { at + 10 ≤ length out.old }
    ensures { Appended out.old out.new at result (decimal n) }
{
    let number = u64::from(n);
    put_digits(out, at, number, 10, places(number, 9))
}

// A digit's letter.
#[tactic(auto, unfolding(crate::specs::Numbers::letter))]
fn letter(d: u64) -> u8
    requires { d < 16 }
    ensures { result ≡ letterOf d }
{
    b"0123456789ABCDEF"[d as usize]
}

// How many decimal digits a number has, one at least and at most one more than `more`.
fn places(n: u64, more: usize) -> usize
    requires { more < 10 }
    ensures { (result ≡ places_of more n) × (result ≤ 1 + more) }
{
    if more == 0 || n < 10 {
        return 1;
    }
    1 + places(n / 10, more - 1)
}
