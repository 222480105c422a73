// Replays the Rust's answers (tests/beside/README.md, "The sample") on the library: of each call the number, the length, the actions and the
// counts, and the states between the calls.
#![tactic(auto)]

mod calls;
mod read;
mod replay;
mod state;

fn main(rt: HostRuntime) {
    let mut sample = [0u8; 131072];
    let mut input = rt.stdin();
    let n = read::full(&mut input, &mut sample);
    let t = replay::replay(&sample[..n]);
    let _ = println!(rt;
        "{} calls, {} states, {} different",
        t.calls, t.states, t.different
    );
}
