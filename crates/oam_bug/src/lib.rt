// The OAM corruption of mode 2: 20 rows of four words.
#![tactic(auto)]

ghost use Rattle.std.specs.Prelude.{◌≡◌, ℕ, ◌-◌, ◌<◌, ◌≤◌, length, get_or};
ghost use Rattle.hardware.specs.Tables.{oam_bytes};
ghost use Rattle.oam_bug.specs.Words.{oam_rows, word_place, word_of, words_of, with_word, with_row, row_from, row_copied};
ghost use Rattle.oam_bug.specs.Corruption.{corrupted_row, write_word, read_word, read_write_word};
ghost use Rattle.oam_bug.specs.Corruption.{before_corrupted, spread, around_corrupted};
ghost use Rattle.oam_bug.specs.Corruption.{write_corrupted, read_corrupted, read_write_corrupted};
ghost use Rattle.oam_bug.specs.Kinds.{is_kind, number_of_kind, Numbers, corrupted};

use hardware::Machine;

// OAM, by its length.
type Oam = [u8; Machine::OAM_BYTES];

// A row of OAM, by its index.
#[derive(Clone, Copy)]
struct Row {
    index: u8,
    ghost in_oam: { index < oam_rows },
}

impl Row {
    // The row so many before it.
    fn preceding(self, rows: u8) -> Row
        requires { rows ≤ self.index }
        ensures { result.index ≡ self.index - rows }
    {
        Row {
            index: self.index - rows,
        }
    }

    // The first byte of word k: 0 to 3, wherever it comes from. A type for k would be made to be taken apart here.
    fn word_place(self, k: u8) -> usize
        requires { k < 4 }
        ensures { result ≡ word_place self.index k }
    {
        8 * usize::from(self.index) + 2 * usize::from(k)
    }
}

// The row that an access at a cycle of the line corrupts. The mode is its number in STAT: README.md and docs/PROMISES.md name this function, and
// a `Mode` would ask more of who calls it.
pub fn corrupted_row(mode: u8, cycle: u16) -> u8
    requires { mode ≡ 2 → (4 ≤ cycle) × (cycle ≤ 83) }
    ensures { result ≡ corrupted_row mode cycle }
{
    if mode == 2 {
        ((cycle - 4) / 4) as u8
    } else {
        0
    }
}

// The rules take words one by one, by the letters that Pan Docs gives them: those of a write and of a read are handed on as functions.

// The first word after a write.
fn write_word(a: u16, b: u16, c: u16) -> u16
    ensures { result ≡ write_word a b c }
{
    ((a ^ c) & (b ^ c)) ^ c
}

// The first word after a read.
fn read_word(a: u16, b: u16, c: u16) -> u16
    ensures { result ≡ read_word a b c }
{
    b | (a & c)
}

// The first word of the row before, after a read and a write in one cycle.
fn read_write_word(a: u16, b: u16, c: u16, d: u16) -> u16
    ensures { result ≡ read_write_word a b c d }
{
    (b & (a | c | d)) | (a & c & d)
}

// Word k of a row. As in `colors`, where a word is of other bytes: `from_le_bytes` is all that both share.
fn word_at(oam: &Oam, row: Row, k: u8) -> u16
    requires { k < 4 }
    ensures { result ≡ word_of oam.now row.index k }
{
    let at = row.word_place(k);
    u16::from_le_bytes([oam[at], oam[at + 1]])
}

// Stores word k of a row.
fn put_word(oam: &mut Oam, row: Row, k: u8, w: u16)
    requires { k < 4 }
    ensures { oam.new ≡ with_word oam.old (word_place row.index k) w }
{
    let at = row.word_place(k);
    let [low, high] = w.to_le_bytes();
    oam[at] = low;
    oam[at + 1] = high;
}

// The four words of a row.
fn row_at(oam: &Oam, row: Row) -> [u16; 4]
    ensures { result ≡ words_of oam.now row.index }
{
    std::array::from_fn(|k| word_at(oam, row, k as u8))
}

// Stores the four words of a row, a line a word, as `with_row` has them.
fn put_row(oam: &mut Oam, row: Row, words: [u16; 4])
    ensures { oam.new ≡ with_row oam.old row.index (get_or words 0 0) (get_or words 1 0) (get_or words 2 0) (get_or words 3 0) }
{
    let [v, w, x, y] = words;
    put_word(oam, row, 0, v);
    put_word(oam, row, 1, w);
    put_word(oam, row, 2, x);
    put_word(oam, row, 3, y);
}

// Gives a row its first word, and the other three of the row before.
fn row_from(oam: &mut Oam, row: Row, first: u16)
    requires { 0 < row.index }
    ensures { oam.new ≡ row_from oam.old row.index first }
{
    let [_, second, third, fourth] = row_at(oam, row.preceding(1));
    put_row(oam, row, [first, second, third, fourth]);
}

// Copies a row over another.
fn copy_row(oam: &mut Oam, from: Row, to: Row)
    ensures { oam.new ≡ row_copied oam.old from.index to.index }
{
    let words = row_at(oam, from);
    put_row(oam, to, words);
}

// Corrupts a row, unless it is row 0: a rule gives its first word, the row before the other three.
fn corrupt_row<F: Fn(u16, u16, u16) -> u16>(oam: &mut Oam, row: Row, rule: F)
    requires { F.IsAlwaysCallable rule }
    ensures first { row.index ≡ 0 → oam.new ≡ oam.old }
    ensures others { 0 < row.index → (w : ℕ)
        × F.post rule (word_of oam.old row.index 0) (word_of oam.old (row.index - 1) 0) (word_of oam.old (row.index - 1) 2) w
        × (oam.new ≡ row_from oam.old row.index w) }
{
    if row.index == 0 {
        return;
    }
    let before = row.preceding(1);
    let a = word_at(oam, row, 0);
    let b = word_at(oam, before, 0);
    let c = word_at(oam, before, 2);
    row_from(oam, row, rule(a, b, c));
}

// A write while OAM is being searched.
fn corrupt_write(oam: &mut Oam, row: Row)
    ensures { oam.new ≡ write_corrupted oam.old row.index }
{
    corrupt_row(oam, row, write_word);
}

// A read while OAM is being searched.
fn corrupt_read(oam: &mut Oam, row: Row)
    ensures { oam.new ≡ read_corrupted oam.old row.index }
{
    corrupt_row(oam, row, read_word);
}

// Corrupts the first word of the row before.
fn corrupt_before(oam: &mut Oam, row: Row)
    requires { 2 ≤ row.index }
    ensures { oam.new ≡ before_corrupted oam.old row.index }
{
    let before = row.preceding(1);
    let a = word_at(oam, row.preceding(2), 0);
    let b = word_at(oam, before, 0);
    let c = word_at(oam, row, 0);
    let d = word_at(oam, before, 2);
    put_word(oam, before, 0, read_write_word(a, b, c, d));
}

// Copies the row before over the row and the second row before.
fn spread_before(oam: &mut Oam, row: Row)
    requires { 2 ≤ row.index }
    ensures { oam.new ≡ spread oam.old row.index }
{
    let before = row.preceding(1);
    copy_row(oam, before, row);
    copy_row(oam, before, row.preceding(2));
}

// What comes before the read: at rows 4 to 18 three rows are corrupted.
fn corrupt_around(oam: &mut Oam, row: Row)
    ensures { oam.new ≡ around_corrupted oam.old row.index }
{
    if row.index < 4 || 18 < row.index {
        return;
    }
    corrupt_before(oam, row);
    spread_before(oam, row);
}

// A read and a write in one cycle while OAM is being searched.
fn corrupt_read_write(oam: &mut Oam, row: Row)
    ensures { oam.new ≡ read_write_corrupted oam.old row.index }
{
    corrupt_around(oam, row);
    corrupt_read(oam, row);
}

// An access that corrupts OAM: a write, a read, or a read and a write in one cycle.
#[derive(Clone, Copy, Debug, PartialEq, Eq)]
pub enum Kind {
    Write,
    Read,
    ReadWrite,
}

// A number of no kind.
#[derive(Clone, Copy, Debug, PartialEq, Eq)]
pub struct UnknownKind;

impl TryFrom<u8> for Kind {
    type Error = UnknownKind;

    ghost try_from_gives = { Numbers };

    // The kind of a number: 0 a write, 1 a read, 2 a read and a write in one cycle.
    fn try_from(number: u8) -> Result<Self, UnknownKind> {
        match number {
            0 => Ok(Kind::Write),
            1 => Ok(Kind::Read),
            2 => Ok(Kind::ReadWrite),
            _ => Err(UnknownKind),
        }
    }
}

// Whether a number is that of a kind: a caller can say one that is not.
pub fn is_kind(kind: u8) -> bool
    ensures { result ≡ is_kind kind }
{
    Kind::try_from(kind).is_ok()
}

// The corruption of a kind.
pub fn corrupt(oam: &mut [u8], row: u8, kind: Kind)
    requires { (length oam.old ≡ oam_bytes) × (row < oam_rows) }
    ensures { oam.new ≡ corrupted (number_of_kind kind) oam.old row }
{
    let row = Row { index: row };
    // There is always one: the length is required.
    let Some(oam) = oam.as_mut_array::<{ Machine::OAM_BYTES }>() else {
        return;
    };
    match kind {
        Kind::Write => corrupt_write(oam, row),
        Kind::Read => corrupt_read(oam, row),
        Kind::ReadWrite => corrupt_read_write(oam, row),
    }
}
