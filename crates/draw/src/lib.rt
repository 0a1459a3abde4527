// One draw: the pipe goes on, then a discard or a pixel, and the end of a line. It touches no picture.
//
// It stands in two halves, so that few bytes move: `prepare` changes the queues, and is called only where something joins them;
// `draw` lets the front leave, and takes over only what that can change, which no slot of a queue is.
// VRAM comes as in `tiles`. That LCD x is on the screen and the pipe in order stands in clauses: docs/PROMISES.md names `draw`, of which a
// type that holds them would ask more, and `Fine` (`order`), of which they are two parts, has them of a whole state.
#![tactic(auto)]

ghost use Rattle.std.specs.Prelude.{◌≡◌, ◌<◌, ◌≤◌, length};
ghost use Rattle.hardware.specs.Screen.{width};
ghost use Rattle.hardware.specs.Tables.{vram_bytes};
ghost use Rattle.order.specs.Fine.{PipeFine};
ghost use Rattle.state.specs.With.{with_fetcher};
ghost use Rattle.pipe.specs.Window.{opened};
ghost use Rattle.pipe.specs.Fetching.{waited};
ghost use Rattle.draw.specs.Draw.{Drawable, spot, fed_pipe, discarded, moved, ended_beam, ended_registers, ended_pipe, after_pixel};
ghost use Rattle.draw.specs.Halves.{waits, joins, prepared, front_drawn, leaves, pipe_taken_over, taken_over};

use hardware::{Machine, Mode};
use lcd::Rgb;
use state::{Beam, Pipe, Registers, Spot, State};

// A place that was drawn: its column, its line, and its three bytes.
#[derive(Clone, Copy)]
pub struct Place {
    pub x: u8,
    pub y: u8,
    pub rgb: Rgb,
}

// The state after a draw, and the place that it drew, if it drew one.
#[derive(Clone, Copy)]
pub struct Drawn {
    pub state: State,
    pub shot: Option<Place>,
}

// The place that is drawn next.
fn spot_of(s: State) -> Spot
    ensures { result ≡ spot s }
{
    Spot {
        line: s.beam.line,
        x: s.beam.x,
    }
}

// The pipe once the window was tried, the fetcher went on and a waiting row went in.
#[tactic(auto, unfolding(crate::specs::Draw::fed_pipe))]
fn advance(vram: &[u8], s: State) -> Pipe
    requires { length vram.now ≡ vram_bytes }
    ensures { result ≡ fed_pipe (opened s.regs s.beam.line) vram.now s }
{
    let allowed = pipe::is_open(s.regs, s.beam.line);
    let windowed = pipe::try_enter_window(allowed, s.beam.x, s.regs.wx, s.pipe);
    let fetched = pipe::cycle_fetcher(vram, s.regs, s.beam.line, windowed);
    pipe::feed(s.palettes.bg, fetched)
}

// The pipe with one pixel discarded: both queues pop.
fn discard_one(p: Pipe) -> Pipe
    requires { (0 < p.bg.len) × (0 < p.discard) }
    ensures { result ≡ discarded p }
{
    let mut n = p;
    n.bg.take_front();
    n.obj.pop();
    n.discard -= 1;
    n
}

// The beam one place on.
fn next_place(b: Beam) -> Beam
    requires { b.x < width }
    ensures { result ≡ moved b }
{
    Beam {
        x: b.x + 1,
        count: b.count.wrapping_add(1),
        ..b
    }
}

// The beam at the end of a line.
fn end_beam(b: Beam) -> Beam
    ensures { result ≡ ended_beam b }
{
    Beam {
        x: 0,
        count: b.count.wrapping_add(1),
        end: b.cycle,
        ..b
    }
}

// The registers at the end of a line: mode 0.
fn end_registers(r: Registers) -> Registers
    ensures { result ≡ ended_registers r }
{
    Registers {
        stat: Mode::HBlank.put_in(r.stat),
        ..r
    }
}

// The pipe at the end of a line: queues empty, column 0, out of the window, whose row goes up by one, modulo 256.
fn end_pipe(p: Pipe) -> Pipe
    ensures { result ≡ ended_pipe p }
{
    let mut n = pipe::empty(p);
    n.window = false;
    if p.window {
        // docs/01-scope.md: the one helper that wraps serves fetch column and window row
        n.wrow = wrap::wrapping_sub(p.wrow, 255);
    }
    n
}

// The state after a pixel: the next place, or the end of the line.
#[tactic(auto, unfolding(crate::specs::Draw::after_pixel))]
fn after_pixel(s: State, p: Pipe) -> State
    requires { s.beam.x < width }
    ensures { result ≡ after_pixel s p }
{
    let mut n = s;
    if usize::from(s.beam.x) + 1 == Machine::WIDTH {
        n.regs = end_registers(s.regs);
        n.pipe = end_pipe(p);
        n.beam = end_beam(s.beam);
    } else {
        n.pipe = p;
        n.beam = next_place(s.beam);
    }
    n
}

// Whether something may join the pipe in a draw: else its first half is one cycle of the fetch delay.
#[tactic(auto, unfolding(crate::specs::Halves::joins))]
pub fn does_join(s: State) -> bool
    requires { s.selection.count ≤ 10 }
    ensures { result ≡ joins s }
{
    let allowed = pipe::is_open(s.regs, s.beam.line);
    pipe::does_enter(allowed, s.pipe.window, s.beam.x, s.regs.wx)
        || s.pipe.fetcher.delay <= 1
        || if s.pipe.bg.len <= 8 {
            s.pipe.fetcher.waiting.is_some()
        } else {
            !pixel::does_none_start(s.selection, s.beam.x)
        }
}

// The first half: the pipe goes on, and where a pixel is given the sprites that start here join.
#[tactic(auto, unfolding(crate::specs::Halves::prepared, crate::specs::Draw::ready))]
pub fn prepare(vram: &[u8], s: State) -> Pipe
    requires { Drawable vram.now s s.pipe }
    ensures { result ≡ prepared vram.now s }
{
    let mut p = advance(vram, s);
    if p.bg.len > 8 && p.discard == 0 {
        p.obj = pixel::add_sprites(vram, s.regs, s.palettes.obj, s.selection, spot_of(s), p.obj);
    }
    p
}

// The first half where nothing joins: the fetch delay goes down by one.
pub fn wait(p: Pipe) -> Pipe
    requires { 0 < p.fetcher.delay }
    ensures { result ≡ with_fetcher p (waited p.fetcher) }
{
    let mut n = p;
    n.fetcher.delay -= 1;
    n
}

// What a draw answers where it draws no place.
fn no_place(state: State) -> Drawn
    ensures { (result.state ≡ state) × (result.shot ≡ None) }
{
    Drawn { state, shot: None }
}

// A pixel: both queues pop, and the mixer's colour at its place.
fn draw_pixel(s: State) -> Drawn
    requires { (s.beam.x < width) × PipeFine s.pipe × (0 < s.pipe.bg.len) }
    ensures { result ≡ front_drawn s }
{
    let mut n = s.pipe;
    let front = n.bg.take_front();
    let color = pixel::mixer(s.regs, front, n.obj.pop());
    Drawn {
        state: after_pixel(s, n),
        shot: Some(Place {
            x: s.beam.x,
            y: s.beam.line,
            rgb: lcd::mixed(color),
        }),
    }
}

// More than 8 queued: a discard or a pixel; else nothing.
#[tactic(auto, unfolding(crate::specs::Halves::leaves))]
fn shift(s: State) -> Drawn
    requires { (s.beam.x < width) × PipeFine s.pipe }
    ensures { result ≡ leaves s }
{
    if s.pipe.bg.len <= 8 {
        no_place(s)
    } else if s.pipe.discard == 0 {
        draw_pixel(s)
    } else {
        no_place(State {
            pipe: discard_one(s.pipe),
            ..s
        })
    }
}

// A pipe with what the second half can change taken over from another: the slots of the queues stay where they are.
fn take_over_pipe(p: Pipe, q: Pipe) -> Pipe
    ensures { result ≡ pipe_taken_over p q }
{
    let mut n = p;
    n.fetcher.column = q.fetcher.column;
    n.bg.head = q.bg.head;
    n.bg.len = q.bg.len;
    n.obj.head = q.obj.head;
    n.obj.len = q.obj.len;
    n.window = q.window;
    n.wrow = q.wrow;
    n.discard = q.discard;
    n
}

// A state with what the second half can change taken over from another. In place, since a state as `State { .., ..s }` has tests/speed's scene a
// at 4.04 and scene b at 3.16 times, over both bounds.
fn take_over(s: State, t: State) -> State
    ensures { result ≡ taken_over s t }
{
    let mut n = s;
    n.regs.stat = t.regs.stat;
    n.pipe = take_over_pipe(n.pipe, t.pipe);
    n.beam = t.beam;
    n
}

// The second half, of a pipe that is ready: the next state, and a place with its bytes or nothing.
#[tactic(auto, using(crate::proofs::Halves::taken_over_law))]
pub fn draw(s: State) -> Drawn
    requires { (s.beam.x < width) × PipeFine s.pipe }
    ensures { result ≡ leaves s }
{
    let shifted = shift(s);
    Drawn {
        state: take_over(s, shifted.state),
        shot: shifted.shot,
    }
}
