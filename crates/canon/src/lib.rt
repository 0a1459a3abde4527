// The digest of a state: its bytes in a fixed order, words low byte first, and only what is live.
#![tactic(auto)]

use colors::{ColorPalette, PaletteSet};
use fifo::{BgFifoPixel, Fifo, SpriteFifoPixel};
use sprite::Selection;
use state::{Beam, Fetcher, Pipe, Registers, State};
use wire::Digest;

// The registers by their addresses, the bank last.
fn registers(digest: Digest, r: &Registers) -> Digest {
    digest.bytes(&[
        r.lcdc, r.stat, r.scy, r.scx, r.ly, r.lyc, r.bgp, r.obp0, r.obp1, r.wy, r.wx, r.vbk,
    ])
}

// The STAT level, the priority, colour mode, and whether the device is DMG.
fn flags(digest: Digest, s: &State) -> Digest {
    digest
        .flag(s.beam.level)
        .flag(s.regs.coord)
        .flag(s.regs.cgb)
        .flag(s.machine.dmg)
}

// The beam, and last whether the display was just turned on and whether it was blanked since the last swap.
fn beam(digest: Digest, b: &Beam) -> Digest {
    digest
        .byte(b.line)
        .word(b.cycle)
        .byte(b.x)
        .byte(b.shown)
        .word(b.end)
        .word(b.count)
        .flag(b.turned)
        .flag(b.blanked)
}

// The fetcher, with the row that waits, if one does.
fn fetcher(digest: Digest, f: &Fetcher) -> Digest {
    let begun = digest.byte(f.delay).byte(f.column);
    match f.waiting {
        Some(attribute) => begun.byte(1).bytes(&f.row).byte(attribute.bits),
        None => begun.byte(0),
    }
}

// The four words of a palette.
fn palette(digest: Digest, p: &ColorPalette) -> Digest {
    digest.word(p.c0).word(p.c1).word(p.c2).word(p.c3)
}

// A queued pixel.
trait Queued {
    fn taken_in(&self, digest: Digest) -> Digest;
}

impl Queued for BgFifoPixel {
    fn taken_in(&self, digest: Digest) -> Digest {
        palette(digest.byte(self.color).flag(self.priority), &self.palette)
    }
}

impl Queued for SpriteFifoPixel {
    fn taken_in(&self, digest: Digest) -> Digest {
        let begun = digest.byte(self.color).byte(self.obp).byte(self.index);
        palette(begun.flag(self.priority), &self.palette)
    }
}

// A queue, front to back: so many pixels of its ring, from its slot `head` on.
fn queue<P: Queued, const N: usize>(digest: Digest, q: &Fifo<P, N>) -> Digest {
    q.pixels
        .iter()
        .cycle()
        .skip(usize::from(q.head))
        .take(usize::from(q.len))
        .fold(digest.byte(q.len), |digest, pixel| pixel.taken_in(digest))
}

// The pipe: the window, the discard, the fetcher and both queues.
fn pipe(digest: Digest, p: &Pipe) -> Digest {
    let begun = digest.flag(p.window).byte(p.wrow).byte(p.discard);
    let fetched = fetcher(begun, &p.fetcher);
    queue(queue(fetched, &p.bg), &p.obj)
}

// The selected sprites, as many as the count says.
fn selection(digest: Digest, s: &Selection) -> Digest {
    s.entries().iter().fold(
        digest.byte(s.count),
        |digest, slot| digest.bytes(&slot.to_bytes()),
    )
}

// The index port, and the words as they stand.
fn palettes(digest: Digest, set: &PaletteSet) -> Digest {
    digest.byte(set.index).flag(set.auto).bytes(&set.bytes)
}

// The digest of all of a state.
pub fn digest_of(s: &State) -> Digest {
    let regs = registers(Digest::new(), &s.regs);
    let first = beam(flags(regs, s), &s.beam);
    let chosen = selection(pipe(first, &s.pipe), &s.selection);
    palettes(palettes(chosen, &s.palettes.bg), &s.palettes.obj)
}
