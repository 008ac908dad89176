// Runs streams of records as the bench program does: each argument names a file of them, and is written before its lines.
#![tactic(auto)]

use std::fs::File;
use std::os::fd::AsRawFd;

const STDOUT_FILENO: i32 = 1;

fn main(rt: HostRuntime) -> std::io::Result<()> {
    for name in std::env::args(&rt)?.skip(1) {
        play(&rt, name.as_str());
    }
    Ok(())
}

fn play(rt: &HostRuntime, name: &str) {
    io::write_all(STDOUT_FILENO, name.as_bytes());
    io::write_all(STDOUT_FILENO, b"\n");
    match File::open(rt, name) {
        Ok(file) => {
            bench_run::run(file.as_raw_fd());
            io::write_all(STDOUT_FILENO, b"\n");
        }
        // a file that does not open is named, and the next one follows
        Err(e) => {
            let _ = eprintln!(rt; "{name}: {e}");
        }
    }
}
