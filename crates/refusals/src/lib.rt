// The ladder of refusals: why a call is refused, and of the reasons that apply the one with the lowest number.
#![tactic(auto)]

ghost use Rattle.std.specs.Prelude.{◌≡◌, cond, Ok, Err};
ghost use Rattle.refusals.specs.Ladder.{lowest, first};
ghost use Rattle.refusals.specs.Refused.{refusal_number, number_of};

use std::fmt;

// Why a call is refused: a lent buffer has another length than the unit's; the state is not in order; a step is not of 2 or 4 cycles, or is of 4
// while the cycle is no multiple of 4; there is no such register, address, line, height or kind; a corruption comes at another time of mode 2.
#[derive(Clone, Copy, Debug, PartialEq, Eq)]
pub enum Refusal {
    Length,
    State,
    Pace,
    Argument,
    Time,
}

impl Refusal {
    // The number in the table of refusals of docs/01-scope.md. By its own name, since `u8::from(why)` would say no more.
    pub fn number(self) -> u8
        ensures { result ≡ refusal_number self }
    {
        match self {
            Refusal::Length => 1,
            Refusal::State => 2,
            Refusal::Pace => 3,
            Refusal::Argument => 4,
            Refusal::Time => 5,
        }
    }
}

// As `bench` shows it of a capture's call: there 4 is of an address alone, since a kind is read by its name and nothing is picked.
impl fmt::Display for Refusal {
    fn fmt<W: fmt::Write>(&self, f: &mut fmt::Formatter<W>) -> fmt::Result {
        f.write_str(match self {
            Refusal::Length => "a lent buffer has another length than the unit's",
            Refusal::State => "the state is not in order",
            Refusal::Pace =>
                "a step is not 2 or 4 cycles, or is 4 while the cycle is not a multiple of 4",
            Refusal::Argument =>
                "the address is of no register that can be written, or its low byte is outside of OAM",
            Refusal::Time => "a corruption of OAM in mode 2 before cycle 4 or after cycle 83",
        })
    }
}

// A test of a call, which is refused where it fails.
pub fn need<E: Copy>(passed: bool, why: E) -> Result<(), E>
    ensures { result ≡ cond passed (Ok tt) (Err why) }
{
    if passed { Ok(()) } else { Err(why) }
}

// The ladder: refused by 1 unless every lent buffer has its length, by 2 unless the state is in order, else as the call's own tests say.
pub fn lowest(sized: bool, ordered: bool, own: Result<(), Refusal>) -> Result<(), Refusal>
    ensures { number_of result ≡ lowest sized ordered (number_of own) }
{
    need(sized, Refusal::Length)?;
    need(ordered, Refusal::State)?;
    own
}

// Of a call's two own tests the one with the lower number comes first.
pub fn first(lower: Result<(), Refusal>, higher: Result<(), Refusal>) -> Result<(), Refusal>
    ensures { number_of result ≡ first (number_of lower) (number_of higher) }
{
    lower?;
    higher
}
