// Lists the records of the stream on standard input: reads it, and writes the text that the crate `listing` makes of it.
#![tactic(auto)]

use std::io::{self, Write};

fn main(rt: HostRuntime) -> io::Result<()> {
    let mut stream = listing::stream_room();
    let n = input::read_full(&mut rt.reader(), &mut stream)?;
    let mut text = [0u8; listing::TEXT_ROOM];
    let len = listing::put_listing(&stream[..n], &mut text);
    io::writer(&rt).write_all(&text[..len])
}
