// The pixel queues: sixteen slots for the background, eight for sprites, each a ring with a head and a length.
#![tactic(auto)]

ghost use Rattle.std.specs.Prelude.{◌≡◌, ◌+◌, ◌%◌, ◌<◌, ◌≤◌, get_or};
ghost use Rattle.fifo.specs.Ring.{fresh, front, rest, cleared, popped};
ghost use Rattle.fifo.specs.Background.{bg_blank, bg_row, bg_pushed};
ghost use Rattle.fifo.specs.Sprites.{sprite_blank, inked, over, inked_row, sprite_pushed};

use colors::ColorPalette;

// A background pixel: the palette of its tile, its colour number, and whether the tile stands above sprites. The palette stands
// first, so that a slot has no gap.
#[derive(Clone, Copy)]
pub struct BgFifoPixel {
    pub palette: ColorPalette,
    pub color: u8,
    pub priority: bool,
}

// A sprite pixel: its palette, its colour number, whether the palette is OBP0 or OBP1 outside colour mode, its place in OAM,
// and whether it stands behind. OBP0 or OBP1 is a number, since a state can have one over 1, and is refused for it.
#[derive(Clone, Copy)]
pub struct SpriteFifoPixel {
    pub palette: ColorPalette,
    pub color: u8,
    pub obp: u8,
    pub index: u8,
    pub priority: bool,
}

// The colours of a pixel of nothing.
const NO_PALETTE: ColorPalette = ColorPalette {
    c0: 0,
    c1: 0,
    c2: 0,
    c3: 0,
};

// A pixel of either queue: there is one of nothing, which fills the slots at the start.
pub trait Pixel: Copy {
    ghost BLANK: { Self };

    const BLANK: Self;
}

impl Pixel for BgFifoPixel {
    ghost BLANK = { bg_blank };

    const BLANK: Self = BgFifoPixel {
        color: 0,
        palette: NO_PALETTE,
        priority: false,
    };
}

impl Pixel for SpriteFifoPixel {
    ghost BLANK = { sprite_blank };

    const BLANK: Self = SpriteFifoPixel {
        color: 0,
        palette: NO_PALETTE,
        obp: 0,
        index: 0,
        priority: false,
    };
}

// A queue in a ring of N slots: `len` pixels from slot `head` on, modulo N. docs/01-scope.md has it as an array with a head and a length, and
// nothing here allocates.
#[derive(Clone, Copy)]
pub struct Fifo<P, const N: usize> {
    pub pixels: [P; N],
    pub head: u8,
    pub len: u8,
}

pub type BgFifo = Fifo<BgFifoPixel, 16>;

pub type SpriteFifo = Fifo<SpriteFifoPixel, 8>;

impl<P: Pixel, const N: usize> Fifo<P, N> {
    pub fn fresh() -> Self
        ensures { result ≡ fresh P.BLANK }
    {
        Fifo {
            pixels: [P::BLANK; N],
            head: 0,
            len: 0,
        }
    }

    // Slot k of the ring, counted from its head.
    fn slot(&self, k: usize) -> usize
        requires { (0 < N) × (k < 256) }
        ensures { result ≡ (self.now.head + k) % N }
    {
        (usize::from(self.head) + k) % N
    }

    // Pixel k of the queue, counted from the front.
    pub fn pixel(&self, k: usize) -> P
        requires in_range { k < N }
        // true of N = 16 and N = 8 by computing, so that no caller shows it
        requires slots { N < 256 }
        ensures { result ≡ get_or self.now.pixels ((self.now.head + k) % N) P.BLANK }
    {
        self.pixels[self.slot(k)]
    }

    // The pixel at the front leaves.
    pub fn take_front(&mut self) -> P
        requires some { 0 < self.old.len }
        // true of N = 16 and N = 8 by computing, so that no caller shows it
        requires slots { (0 < N) × (N < 256) }
        ensures answer { result ≡ front P.BLANK self.old }
        ensures rest { self.new ≡ rest self.old }
    {
        let at = usize::from(self.head) % N;
        self.head = ((at + 1) % N) as u8;
        self.len -= 1;
        self.pixels[at]
    }

    // The pixel at the front leaves, if there is one.
    pub fn pop(&mut self) -> Option<P>
        // true of N = 16 and N = 8 by computing, so that no caller shows it
        requires slots { (0 < N) × (N < 256) }
        ensures answer { result ≡ (popped P.BLANK self.old).answer }
        ensures rest { self.new ≡ (popped P.BLANK self.old).fifo }
    {
        if self.len == 0 {
            None
        } else {
            Some(self.take_front())
        }
    }

    // Every pixel leaves; the slots keep what they had.
    pub fn clear(&mut self)
        ensures { self.new ≡ cleared self.old }
    {
        self.head = 0;
        self.len = 0;
    }
}

impl BgFifo {
    // Eight pixels of one palette join at the back. A clause, and no type, says that there is room: a state can have a
    // length over 16, and is refused for it.
    pub fn push(&mut self, colors: [u8; 8], palette: ColorPalette, priority: bool)
        requires { self.old.len ≤ 8 }
        ensures { self.new ≡ bg_pushed self.old (bg_row palette priority colors) }
    {
        let len = usize::from(self.len);
        for (k, color) in colors.iter().enumerate() {
            let at = self.slot(len + k);
            self.pixels[at] = BgFifoPixel {
                color: *color,
                palette,
                priority,
            };
        }
        self.len += 8;
    }
}

impl SpriteFifoPixel {
    // The same pixel in another colour.
    fn inked(self, color: u8) -> Self
        ensures { result ≡ inked self color }
    {
        SpriteFifoPixel { color, ..self }
    }

    // Which of two pixels of one place is kept: the older, or a newer one that covers it.
    #[tactic(auto, unfolding(crate::specs::Sprites::covers))]
    fn over(self, old: SpriteFifoPixel, coord: bool) -> Self
        ensures { result ≡ over coord old self }
    {
        let covers = self.color != 0 && (old.color == 0 || !coord && self.index < old.index);
        if covers { self } else { old }
    }
}

impl SpriteFifo {
    // Eight pixels of a sprite, `ink` in each of the colours, are laid over the queue.
    pub fn push(&mut self, colors: [u8; 8], ink: SpriteFifoPixel, coord: bool)
        requires { self.old.len ≤ 8 }
        ensures { self.new ≡ sprite_pushed coord self.old (inked_row ink colors) }
    {
        for (k, color) in colors.iter().enumerate() {
            let at = self.slot(k);
            let new = ink.inked(*color);
            self.pixels[at] = if k < usize::from(self.len) {
                new.over(self.pixels[at], coord)
            } else {
                new
            };
        }
        self.len = 8;
    }
}
