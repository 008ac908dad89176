// What a list of appends and flushes will need: C and the lengths on standard input, a line on standard output.
#![tactic(auto)]

const STDIN_FILENO: i32 = 0;

fn main() {
    plan_run::run(STDIN_FILENO);
}
