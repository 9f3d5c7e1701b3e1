// Squeezes one stream after another, each behind its length of four bytes on standard input, and prints under a line with its number what
// the program `squeeze` answers.
#![tactic(auto)]

use std::io::{self, Read};

/// How many bytes a line shows: its offset is its number and one more hexadecimal digit.
const LINE: usize = 16;

/// Prints how many bytes there are, and then their lines but for those that are as the line before.
fn print_bytes(rt: &HostRuntime, bytes: &[u8]) -> io::Result<()> {
    println!(rt; "{} bytes", bytes.len())?;
    let mut before: &[u8] = &[];
    for (number, line) in bytes.chunks(LINE).enumerate() {
        if line != before {
            print!(rt; "{number:03x}0")?;
            for byte in line {
                print!(rt; " {byte:02x}")?;
            }
            println!(rt)?;
        }
        before = line;
    }
    Ok(())
}

/// Squeezes the case that the input goes on with, and answers whether there was one.
fn squeeze_case<R: Read>(rt: &HostRuntime, reader: &mut R, number: u64) -> io::Result<bool> {
    let mut stream = listing::stream_room();
    let Some(n) = input::read_case(reader, &mut stream)? else {
        return Ok(false);
    };
    println!(rt; "case {number}")?;
    let mut buffer = [0u8; listing::MAX_LISTED];
    match squeeze_listed::squeeze_listed(&stream[..n], &mut buffer) {
        Ok(n) => print_bytes(rt, &buffer[..n])?,
        Err(e) => println!(rt; "refused {} {}", e.number(), e.position())?,
    }
    Ok(true)
}

fn main(rt: HostRuntime) -> io::Result<()> {
    let mut reader = rt.reader();
    for number in 1..=u64::MAX {
        if !squeeze_case(&rt, &mut reader, number)? {
            break;
        }
    }
    Ok(())
}
