// `bench` once more, for a stored script on standard input.
#![tactic(auto)]

fn main(rt: HostRuntime) {
    script_loop::answer_script(&rt);
}
