// Lists one stream after another, each behind its length of four bytes on standard input and under a line with its number.
#![tactic(auto)]

use std::io::{self, Read, Write};

/// Lists the case that the input goes on with, and answers whether there was one.
fn list_case<R: Read>(rt: &HostRuntime, reader: &mut R, number: u64) -> io::Result<bool> {
    let mut stream = listing::stream_room();
    let Some(n) = input::read_case(reader, &mut stream)? else {
        return Ok(false);
    };
    println!(rt; "case {number}")?;
    let mut text = [0u8; listing::TEXT_ROOM];
    let written = listing::put_listing(&stream[..n], &mut text);
    io::writer(rt).write_all(&text[..written])?;
    Ok(true)
}

fn main(rt: HostRuntime) -> io::Result<()> {
    let mut reader = rt.reader();
    for number in 1..=u64::MAX {
        if !list_case(&rt, &mut reader, number)? {
            break;
        }
    }
    Ok(())
}
