//! Plays a rehearsal script, from the file named or from standard input, and prints an answer for each line.

#![tactic(auto)]

use anyhow::anyhow;
use bench::play;
use std::{env, fs, io};

/// The script: the file named first among the arguments, or standard input where none is.
fn script(rt: &HostRuntime) -> io::Result<String> {
    match env::args(rt)?.nth(1) {
        Some(path) => fs::read_to_string(rt, path),
        None => io::read_to_string(rt.alloc(), rt.stdin()),
    }
}

fn main(rt: HostRuntime) -> anyhow::Result<()> {
    let script = script(&rt)?;
    for line in script.lines() {
        // The text is this program's: that of a fault speaks of a line.
        let answer = play(rt.alloc(), line).map_err(|_| anyhow!(
            "there is no memory for this script"
        ))?;
        if !answer.is_empty() {
            rt.println(answer)?;
        }
    }
    Ok(())
}
