// The pipe of a draw: the entry to the window, the fetcher, and the row that goes into the background queue. VRAM comes as in `tiles`.
#![tactic(auto)]

ghost use Rattle.std.specs.Prelude.{◌≡◌, ◌≤◌, length};
ghost use Rattle.hardware.specs.Tables.{vram_bytes};
ghost use Rattle.pipe.specs.Window.{opened, reached, enters, discard_at, emptied, window_entered, windowed};
ghost use Rattle.pipe.specs.Fetching.{took_row, fetched_pipe, row_pushed, fed};

use bg_attribs::BgAttribute;
use colors::PaletteSet;
use state::{Fetcher, Pipe, Registers};
use tiles::{Fetch, Fetched};

// Whether the window's first column is at LCD x.
fn is_reached(x: u8, wx: u8) -> bool
    ensures { result ≡ reached x wx }
{
    x == wrap::wrapping_sub(wx, 7) || x == 0 && wx < 7
}

// Whether the window is open on a line.
pub fn is_open(r: Registers, line: u8) -> bool
    ensures { result ≡ opened r line }
{
    wrap::bit(r.lcdc, 5) && r.wy <= line
}

// Whether an open window is entered at LCD x.
#[tactic(auto, unfolding(crate::specs::Window::enters))]
pub fn does_enter(allowed: bool, inside: bool, x: u8, wx: u8) -> bool
    ensures { result ≡ enters allowed inside x wx }
{
    allowed && !inside && is_reached(x, wx)
}

// The discard at the entry to the window: 7 - WX, on purpose modulo 256.
fn discard_at(wx: u8, discard: u8) -> u8
    ensures { result ≡ discard_at wx discard }
{
    if wx < 7 || discard != 0 {
        wrap::wrapping_sub(7, wx)
    } else {
        discard
    }
}

// The pipe with both queues empty and fetch column 0.
pub fn empty(p: Pipe) -> Pipe
    ensures { result ≡ emptied p }
{
    let mut n = p;
    n.bg.clear();
    n.obj.clear();
    n.fetcher.column = 0;
    n
}

// The pipe where the window is entered.
fn enter(wx: u8, p: Pipe) -> Pipe
    ensures { result ≡ window_entered wx p }
{
    let mut n = empty(p);
    n.window = true;
    n.discard = discard_at(wx, p.discard);
    n
}

// The pipe after the window was tried at LCD x, open or not.
#[tactic(auto, unfolding(crate::specs::Window::windowed))]
pub fn try_enter_window(allowed: bool, x: u8, wx: u8, p: Pipe) -> Pipe
    ensures { result ≡ windowed allowed x wx p }
{
    if does_enter(allowed, p.window, x, wx) {
        enter(wx, p)
    } else {
        p
    }
}

// The fetcher once a row was fetched: delay 8, the column up by one, modulo 256.
fn take_row(f: Fetcher, t: Fetched) -> Fetcher
    ensures { result ≡ took_row f t }
{
    // By a local: an array that goes straight from one field to another gets no proof.
    let row = t.row;
    Fetcher {
        delay: 8,
        // docs/01-scope.md: the one helper that wraps serves fetch column and window row
        column: wrap::wrapping_sub(f.column, 255),
        row,
        waiting: Some(t.attribute),
    }
}

// The fetcher goes on by a cycle: the delay falls, and at 0 a tile row is fetched.
pub fn cycle_fetcher(vram: &[u8], r: Registers, line: u8, p: Pipe) -> Pipe
    requires { length vram.now ≡ vram_bytes }
    ensures { result ≡ fetched_pipe vram.now r line p }
{
    let mut n = p;
    if p.fetcher.delay > 1 {
        n.fetcher.delay -= 1;
        return n;
    }
    let fetch = Fetch {
        cgb: r.cgb,
        lcdc: r.lcdc,
        window: p.window,
        scx: r.scx,
        scy: r.scy,
        line,
        wrow: p.wrow,
        column: p.fetcher.column,
    };
    // the row's source goes no further
    let fetched = tiles::fetch_bg(vram, fetch);
    n.fetcher = take_row(p.fetcher, fetched.tile);
    n
}

// A waiting row goes into the background queue, with the palette of this moment.
fn push_row(palettes: PaletteSet, t: BgAttribute, p: Pipe) -> Pipe
    requires { p.bg.len ≤ 8 }
    ensures { result ≡ row_pushed palettes.bytes t p }
{
    let mut n = p;
    n.fetcher.waiting = None;
    let palette = palettes.get_palette(t.palette());
    n.bg.push(p.fetcher.row, palette, t.priority());
    n
}

// At most 8 queued: what waits goes in.
#[tactic(auto, unfolding(crate::specs::Fetching::fed))]
pub fn feed(palettes: PaletteSet, p: Pipe) -> Pipe
    ensures { result ≡ fed palettes.bytes p }
{
    if p.bg.len > 8 {
        return p;
    }
    let Some(t) = p.fetcher.waiting else {
        return p;
    };
    push_row(palettes, t, p)
}
