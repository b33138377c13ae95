// Prints the listing of the clip file on standard input.
#![tactic(auto)]

use listing_io::{INPUT, TEXT, list_input};
use std::io;

// One listing, from standard input.
fn main(rt: HostRuntime) -> anyhow::Result<()> {
    let mut input = [0; INPUT];
    let mut text = [0; TEXT];
    list_input(
        &mut rt.reader(),
        &mut io::writer(&rt),
        &mut input,
        &mut text,
    )?;
    Ok(())
}
