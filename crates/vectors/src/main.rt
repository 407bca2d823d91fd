// Runs the stored calls: its input and its output are made by tests/reference/make_vectors.py.
#![tactic(auto)]

fn main(rt: HostRuntime) {
    vectors_io::run(&rt);
}
