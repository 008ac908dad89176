// Runs lists as the program `plan` does: each argument names a file with one, and is written before its line.
#![tactic(auto)]

use std::fs::File;
use std::os::fd::AsRawFd;

const STDOUT_FILENO: i32 = 1;

fn main(rt: HostRuntime) -> std::io::Result<()> {
    for name in std::env::args(&rt)?.skip(1) {
        run(&rt, name.as_str());
    }
    Ok(())
}

fn run(rt: &HostRuntime, name: &str) {
    io::write_all(STDOUT_FILENO, name.as_bytes());
    io::write_all(STDOUT_FILENO, b": ");
    match File::open(rt, name) {
        Ok(file) => {
            plan_run::run(file.as_raw_fd());
        }
        // a file that does not open is named, and the next one follows
        Err(e) => {
            let _ = eprintln!(rt; "{name}: {e}");
        }
    }
}
