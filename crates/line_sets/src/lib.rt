// Which sprites touch which line: a set of OAM's entries for each line, kept beside OAM in lent numbers. Bit i of a line's
// set says whether entry i touches the line, for sprites as tall as the sets were built for.
// OAM, sets and height are lent one by one: a question reads the sets alone, and OAM is the machine's own.
#![tactic(auto)]

ghost use Rattle.std.specs.Prelude.{◌≡◌, ◌%◌, ◌^◌, ◌<◌, true, false, [], ◌∷◌, length, take, slice_index, IfOk, MatchOption, MatchResult, ◌≢◌};
ghost use Rattle.hardware.specs.Screen.{height};
ghost use Rattle.hardware.specs.Tables.{oam_bytes};
ghost use Rattle.refusals.specs.Refused.{number_of};
ghost use Rattle.refusals.specs.declared.Refusal.TheVariants.{Length};
ghost use Rattle.sprite.specs.Pick.{picked, slots_of};
ghost use Rattle.line_sets.specs.Sets.{entries, is_set, members, put, first_of, selection_from};
ghost use Rattle.line_sets.specs.Lines.{row_line, put_lines, moved, built};
ghost use Rattle.line_sets.specs.Numbers.{is_asked, line_number, old_y, new_y, are_sets, is_writable};
ghost use Rattle.line_sets.specs.Calls.{Build, Write, counted, count_of, found, first_on, pick_from};

use hardware::Machine;
use refusals::{Refusal, need};
use sprite::{SelectedSprite, Selection, Sprite};

// The lines of the picture, a set each.
const LINES: usize = Machine::HEIGHT;

// OAM and the sets of the lines, by their lengths.
type Oam = [u8; Machine::OAM_BYTES];

type Sets = [u64; LINES];

// A lent slice as an array, where it has the array's length. What is lent as `&mut` has `as_mut_array`.
fn whole<T, const N: usize>(lent: &[T]) -> Result<&[T; N], Refusal>
    ensures { MatchResult result (λ array. (length lent.now ≡ N) × (array.now ≡ lent.now)) (λ why. (length lent.now ≢ N) × (why ≡ Length)) }
{
    <&[T; N]>::try_from(lent).map_err(|_| Refusal::Length)
}

// The first number above every set of forty entries.
const SETS: u64 = 1 << 40;

// The bit of entry i. An entry is its number throughout: a type that held `i < entries` would be made in two places to be read in this one.
fn bit(i: u8) -> u64
    requires { i < entries }
    ensures { result ≡ 2 ^ i }
{
    1 << i
}

// A set of OAM's entries, by its number: bit i says whether entry i is in it, and no bit stands above that of entry 39.
#[derive(Clone, Copy)]
struct Set {
    number: u64,
    ghost of_entries: { is_set number ≡ true },
}

impl Set {
    // The set of a number, if it has no bit above that of entry 39.
    fn of(number: u64) -> Option<Set>
        ensures { MatchOption result (is_set number ≡ false) (λ set. set.number ≡ number) }
    {
        if number < SETS {
            Some(Set { number })
        } else {
            None
        }
    }

    // With entry i put in, or taken out.
    fn put(self, i: u8, on: bool) -> Set
        requires { i < entries }
        ensures { result.number ≡ put i on self.number }
    {
        let own = bit(i);
        Set {
            number: if on {
                self.number | own
            } else {
                self.number & !own
            },
        }
    }

    // How many entries it has, by its bits.
    fn count(self) -> u8
        ensures { result ≡ length (members self.number) }
    {
        self.number.count_ones() as u8
    }

    // Its lowest entry, by the lowest bit.
    fn lowest(self) -> Option<u8>
        ensures { result ≡ first_of (members self.number) }
    {
        if self.number == 0 {
            None
        } else {
            Some(self.number.trailing_zeros() as u8)
        }
    }

    // Takes its lowest entry out, if it has one.
    fn take_lowest(&mut self) -> Option<u8>
        ensures { MatchOption result (members self.old.number ≡ [])
            (λ i. (i < entries) × (members self.old.number ≡ i ∷ members self.new.number)) }
    {
        let index = self.lowest()?;
        self.number -= bit(index);
        Some(index)
    }
}

// The line of a row of a sprite at y, modulo 256.
fn row_line(y: u8, row: u8) -> u8
    ensures { result ≡ row_line y row }
{
    wrap::wrapping_sub(y, 16).wrapping_add(row)
}

// The set of a line, if the line is of the picture and its number a set.
fn set_on(sets: &Sets, line: u8) -> Option<Set>
    ensures { MatchOption result (is_asked sets.now line ≡ false) (λ set. (line < height) × (set.number ≡ slice_index sets.now line)) }
{
    let at = usize::from(line);
    if at < Machine::HEIGHT {
        Set::of(sets[at])
    } else {
        None
    }
}

// Puts entry i in, or takes it out, on the lines that a sprite at y touches. The index is the row.
fn put_lines(sets: &mut Sets, i: u8, on: bool, y: u8, tall: u8)
    requires { (i < entries) × (are_sets sets.old y tall ≡ true) }
    ensures { sets.new ≡ put_lines i on y tall sets.old }
{
    for row in 0..tall {
        let line = usize::from(row_line(y, row));
        if line < Machine::HEIGHT {
            // the clause says that it is a set: tested once more, a build takes two fifths more time
            let set = Set { number: sets[line] };
            sets[line] = set.put(i, on).number;
        }
    }
}

// Entry i goes from one y to another.
fn move_entry(sets: &mut Sets, i: u8, tall: u8, old: u8, new: u8)
    requires { (i < entries) × (are_sets sets.old old tall ≡ true) × (are_sets sets.old new tall ≡ true) }
    ensures { sets.new ≡ moved i tall old new sets.old }
{
    if old == new {
        return;
    }
    put_lines(sets, i, false, old, tall);
    put_lines(sets, i, true, new, tall);
}

// The sets of all lines, from OAM. The index is the entry's number.
fn put_all(oam: &Oam, sets: &mut Sets, tall: u8)
    ensures { sets.new ≡ built oam.now tall }
{
    sets.fill(0);
    for i in 0..40 {
        let sprite = Sprite::at(oam, i);
        put_lines(sets, i as u8, true, sprite.y, tall);
    }
}

// Builds the sets afresh, for sprites so tall. Refused by 1, 4.
pub fn build(oam: &[u8], sets: &mut [u64], tall: u8) -> Result<(), Refusal>
    ensures { Build oam.now sets.old tall (number_of result) sets.new }
{
    let Some(sets) = sets.as_mut_array::<LINES>() else {
        return Err(Refusal::Length);
    };
    let oam = whole(oam)?;
    need(sprite::is_tall(tall), Refusal::Argument)?;
    put_all(oam, sets, tall);
    Ok(())
}

// The y of the entry that an address falls on. That it falls on one is a clause here and in `new_y` alone.
fn old_y(oam: &Oam, address: u16) -> u8
    requires { address % 256 < oam_bytes }
    ensures { result ≡ old_y oam.now address }
{
    oam[4 * (Machine::oam_place(address) / 4)]
}

// Its y after a write to that address.
fn new_y(oam: &Oam, address: u16, value: u8) -> u8
    requires { address % 256 < oam_bytes }
    ensures { result ≡ new_y oam.now address value }
{
    if address % 4 == 0 {
        value
    } else {
        old_y(oam, address)
    }
}

// Whether the numbers of the lines that a sprite at y touches are sets.
fn are_sets(sets: &Sets, y: u8, tall: u8) -> bool
    ensures { result ≡ are_sets sets.now y tall }
{
    (0..tall).all(|row| {
        let line = usize::from(row_line(y, row));
        line >= Machine::HEIGHT || Set::of(sets[line]).is_some()
    })
}

// Whether a write is at an entry, and the sets that it would change are sets.
fn is_writable(oam: &Oam, sets: &Sets, tall: u8, address: u16, value: u8) -> bool
    ensures { result ≡ is_writable oam.now sets.now tall address value }
{
    sprite::is_tall(tall)
        && Machine::oam_place(address) < Machine::OAM_BYTES
        && are_sets(sets, old_y(oam, address), tall)
        && are_sets(sets, new_y(oam, address, value), tall)
}

// An OAM write at the low byte of the address, and the sets with it. Refused by 1, 4.
pub fn write_oam(
    oam: &mut [u8],
    sets: &mut [u64],
    tall: u8,
    address: u16,
    value: u8,
) -> Result<(), Refusal>
    ensures { Write oam.old sets.old tall address value (number_of result)
        oam.new sets.new }
{
    let Some(oam) = oam.as_mut_array::<{ Machine::OAM_BYTES }>() else {
        return Err(Refusal::Length);
    };
    let Some(sets) = sets.as_mut_array::<LINES>() else {
        return Err(Refusal::Length);
    };
    need(
        is_writable(oam, sets, tall, address, value),
        Refusal::Argument,
    )?;
    let old = old_y(oam, address);
    let new = new_y(oam, address, value);
    move_entry(
        sets,
        (Machine::oam_place(address) / 4) as u8,
        tall,
        old,
        new,
    );
    memory::write_oam(oam, address, value);
    Ok(())
}

// The set of a line, for a question about it.
fn set_of(sets: &[u64], line: u8) -> Result<Set, Refusal>
    ensures number { number_of result ≡ line_number sets.now line }
    ensures set { IfOk result (λ set. set.number ≡ slice_index sets.now line) }
{
    set_on(whole(sets)?, line).ok_or(Refusal::Argument)
}

// How many entries touch a line, by the bits of its set. Refused by 1, 4.
pub fn count(sets: &[u64], line: u8) -> Result<u8, Refusal>
    ensures { counted result ≡ count_of sets.now line }
{
    Ok(set_of(sets, line)?.count())
}

// The first entry that touches a line, by the lowest bit of its set. Refused by 1, 4.
pub fn first(sets: &[u64], line: u8) -> Result<Option<u8>, Refusal>
    ensures { found result ≡ first_on sets.now line }
{
    Ok(set_of(sets, line)?.lowest())
}

// The lowest entries of a set, copied from OAM, one to a slot. The slots past them keep what they had.
fn fill(oam: &Oam, set: Set, slots: &mut [SelectedSprite])
    ensures { slots.new ≡ slots_of oam.now (take (length slots.old) (members set.number)) slots.old }
{
    let mut rest = set;
    for slot in slots.iter_mut() {
        let Some(index) = rest.take_lowest() else {
            break;
        };
        let sprite = Sprite::at(oam, usize::from(index));
        *slot = SelectedSprite { sprite, index };
    }
}

// The ten lowest entries of a set, copied from OAM, over slots that keep what they had past the count.
fn select(oam: &Oam, set: Set, former: [SelectedSprite; 10]) -> Selection
    ensures { result ≡ selection_from oam.now set.number former }
{
    let mut slots = former;
    fill(oam, set, &mut slots);
    Selection {
        count: set.count().min(10),
        slots,
    }
}

// The ten lowest entries of a line's set, in slots that are 0 past the count. Refused by 1, 4.
pub fn pick(oam: &[u8], sets: &[u64], line: u8) -> Result<Selection, Refusal>
    ensures { picked result ≡ pick_from oam.now sets.now line }
{
    let oam = whole(oam)?;
    let set = set_of(sets, line)?;
    Ok(select(oam, set, sprite::blank()))
}
