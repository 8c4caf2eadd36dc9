// Runs a script, here from a file.
#![tactic(auto)]

fn main(rt: HostRuntime) {
    script_loop::answer_script(&rt);
}
