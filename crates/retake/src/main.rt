// The program `retake`, in the folder in which it is started.
#![tactic(auto)]

fn main(rt: HostRuntime) {
    folder::run(&rt);
}
