// The program `panelrun`, run on the specification's own example. A read or a write that fails ends it, with status 0.
#![tactic(auto)]

fn main(rt: HostRuntime) {
    let mut input = rt.stdin();
    let mut output = rt.stdout();
    let _ = panel::stream::run(&mut input, &mut output);
}
