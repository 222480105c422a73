// The program `panelrun` on a longer input; what it must write was written by the Rust (tests/panelrun).
#![tactic(auto)]

fn main(rt: HostRuntime) {
    let mut input = rt.stdin();
    let mut output = rt.stdout();
    let _ = panel::stream::run(&mut input, &mut output);
}
