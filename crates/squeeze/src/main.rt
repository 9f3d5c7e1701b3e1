// Squeezes the fillers out of the stream on standard input: reads as the listing does, and writes the stream that the crate `squeeze_listed`
// makes of it, or why it refuses.
#![tactic(auto)]

use std::io::{self, Write};

fn main(rt: HostRuntime) -> io::Result<()> {
    let mut stream = listing::stream_room();
    let n = input::read_full(&mut rt.reader(), &mut stream)?;
    let mut buffer = [0u8; listing::MAX_LISTED];
    match squeeze_listed::squeeze_listed(&stream[..n], &mut buffer) {
        Ok(n) => io::writer(&rt).write_all(&buffer[..n]),
        Err(e) => println!(rt; "refused {} {}", e.number(), e.position()),
    }
}
