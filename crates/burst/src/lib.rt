// The draws of a step, and the places that they store. VRAM comes as in `tiles`, a picture as in `lcd`.
#![tactic(auto)]

ghost use Rattle.std.specs.Prelude.{◌≡◌, length};
ghost use Rattle.hardware.specs.Screen.{picture_bytes};
ghost use Rattle.hardware.specs.Tables.{vram_bytes};
ghost use Rattle.order.specs.Fine.{Fine};
ghost use Rattle.burst.specs.Burst.{OnScreen, shot_stored, Drew};

use draw::Place;
use hardware::Mode;
use state::State;

// Stores what a draw answered in a picture.
pub fn store_shot(picture: &mut [u8], shot: Option<Place>)
    requires { (length picture.old ≡ picture_bytes) × OnScreen shot }
    ensures { picture.new ≡ shot_stored picture.old shot }
{
    if let Some(place) = shot {
        lcd::store(picture, place.x, place.y, place.rgb);
    }
}

// Draws once a cycle while mode 3 lasts, and stores each place.
pub fn draw_all(vram: &[u8], s: State, picture: &mut [u8], cycles: u8) -> State
    requires { (length vram.now ≡ vram_bytes) × (length picture.old ≡ picture_bytes) × Fine s }
    ensures { Drew cycles vram.now s picture.old result picture.new }
{
    let mut state = s;
    for _ in 0..cycles {
        if Mode::of(state.regs.stat) != Mode::Draw {
            return state;
        }
        // assigned in each branch: as the value of the `if`, tests/speed has scene a at 4.23 and scene b at 3.22 times, over both bounds
        if draw::does_join(state) {
            state.pipe = draw::prepare(vram, state);
        } else {
            state.pipe = draw::wait(state.pipe);
        }
        let drawn = draw::draw(state);
        store_shot(picture, drawn.shot);
        state = drawn.state;
    }
    state
}
