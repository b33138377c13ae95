// Replays a stored sample of the Rust's answers: a file of cases for each class of made files, one line a class.
#![tactic(auto)]

use input::read_input;
use replay_cases::{Tally, replay};
use std::io::Read;
use std::rt::Files;
use std::{env, fs, io};

// Prints a class, its cases, and how many of them are the same.
fn print_tally(rt: &impl Print, name: &str, tally: Tally) -> io::Result<()> {
    let Tally { cases, same } = tally;
    println!(rt; "{name} {cases} files, {same} as the Rust reads them")
}

// Replays the class that the reader gives.
fn replay_open<R: Read>(rt: &impl Print, reader: &mut R, name: &str) -> io::Result<()> {
    let mut sample = [0; 262144];
    let n = read_input(reader, &mut sample)?;
    print_tally(rt, name, replay(&sample[..n]))
}

// Replays the class whose file the path names.
fn replay_file(rt: &(impl Files + Print), path: &str) -> io::Result<()> {
    let mut file = fs::open(rt, path)?;
    replay_open(rt, &mut file, path)
}

// Each argument in its turn. A class that can't be read is told, and those behind it are replayed all the same.
fn main(rt: HostRuntime) -> io::Result<()> {
    for path in env::args(&rt)?.skip(1) {
        if let Err(e) = replay_file(&rt, path.as_str()) {
            eprintln!(rt; "{path}: {e}")?;
        }
    }
    Ok(())
}
