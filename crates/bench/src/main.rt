// Document 01's bench program: records on standard input, a line for each call on standard output.
#![tactic(auto)]

const STDIN_FILENO: i32 = 0;

fn main() {
    bench_run::run(STDIN_FILENO);
}
