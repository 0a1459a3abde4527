// Answers a list of requests to the picture unit: eight bytes in, sixteen bytes out, to the end of the input.
#![tactic(auto)]

mod desk;

use desk::Desk;

// As in `replay_leaves`, with a desk and a name of its own: what the two share is `answer_list` and `say_why`.
//
// The exit status tells nothing: why the answers end before the list does is said on standard error.
fn main(rt: HostRuntime) {
    let mut desk = Desk::fresh();
    if let Err(stop) = wire::answer_list(&mut rt.stdin(), &mut rt.stdout(), &mut desk) {
        wire::say_why(&mut rt.stderr(), "replay", &stop);
    }
}
