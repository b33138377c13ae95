// Prints the listing of each file that its arguments name, each behind a line with the file's name.
#![tactic(auto)]

use listing_io::{INPUT, TEXT, list_input};
use std::rt::Files;
use std::{env, fs, io};

// The name of a file, and its listing.
fn list_file(rt: &(impl Files + Print), path: &str) -> anyhow::Result<()> {
    println!(rt; "file {path}")?;
    let mut file = fs::open(rt, path)?;
    let mut input = [0; INPUT];
    let mut text = [0; TEXT];
    list_input(&mut file, &mut io::writer(rt), &mut input, &mut text)?;
    Ok(())
}

// Each argument in its turn. A file that can't be listed is told, and those behind it are listed all the same.
fn main(rt: HostRuntime) -> io::Result<()> {
    for path in env::args(&rt)?.skip(1) {
        if let Err(e) = list_file(&rt, path.as_str()) {
            eprintln!(rt; "{path}: {e}")?;
        }
    }
    Ok(())
}
