// Answers a list of requests to the small parts of the picture unit: eight bytes in, eight bytes out, to the end of the input.
#![tactic(auto)]

mod bench;
mod palettes;
mod pictures;
mod plain;

use bench::Bench;

// As in `replay`, with a bench and a name of its own: what the two share is `answer_list` and `say_why`.
//
// The exit status tells nothing: why the answers end before the list does is said on standard error.
fn main(rt: HostRuntime) {
    let mut bench = Bench::fresh();
    if let Err(stop) = wire::answer_list(&mut rt.stdin(), &mut rt.stdout(), &mut bench) {
        wire::say_why(&mut rt.stderr(), "replay_leaves", &stop);
    }
}
