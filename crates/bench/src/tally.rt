// What is counted: the pictures by their marks, and the requests of steps.
ghost use Rattle.std.specs.Prelude.{◌≡◌};
ghost use Rattle.bench.specs.Counts.{counted, seen};

use beam::Mark;
use std::fmt;

// How many pictures there are, by their marks.
#[derive(Clone, Copy, Default)]
pub struct Tally {
    pub pictures: u32,
    whole: u32,
    unseen: u32,
    torn: u32,
}

impl Tally {
    // One picture more; the largest number stays.
    pub fn count(&mut self, mark: Mark)
        ensures { self.new ≡ counted mark self.old }
    {
        self.pictures = self.pictures.saturating_add(1);
        match mark {
            Mark::No => self.torn = self.torn.saturating_add(1),
            Mark::Whole => self.whole = self.whole.saturating_add(1),
            Mark::Unseen => self.unseen = self.unseen.saturating_add(1),
        }
    }
}

impl fmt::Display for Tally {
    fn fmt<W: fmt::Write>(&self, f: &mut fmt::Formatter<W>) -> fmt::Result {
        write!(
            f,
            "{} pictures, {} whole, {} unseen, {} torn",
            self.pictures, self.whole, self.unseen, self.torn
        )
    }
}

// How many steps asked for an interrupt, by its kind.
#[derive(Clone, Copy, Default)]
pub struct Requests {
    vblanks: u64,
    stats: u64,
}

impl Requests {
    // A step's requests more, which a report has as bits (docs/01-scope.md): 1 VBlank, 2 STAT.
    pub fn see(&mut self, requests: u8)
        ensures { self.new ≡ seen requests self.old }
    {
        self.vblanks = self.vblanks.saturating_add(u64::from(requests % 2));
        self.stats = self.stats.saturating_add(u64::from(requests / 2 % 2));
    }
}

impl fmt::Display for Requests {
    fn fmt<W: fmt::Write>(&self, f: &mut fmt::Formatter<W>) -> fmt::Result {
        write!(f, "{} vblank, {} stat", self.vblanks, self.stats)
    }
}
