// Replays a list of cases with the oracle's answers, read from standard input, and says how many of our answers differ.
//
// The list is made by the program under oracle/; docs/COMPARISON.md has its format.
#![tactic(auto)]

mod answer;
mod list;
mod squeeze;

use list::Tally;
use std::io::{self, Read};

/// How long the blocks of the list are.
const BLOCK: usize = 262144;

/// Replays the block that the input goes on with, and answers whether there was one.
fn replay_block<R: Read>(reader: &mut R, tally: &mut Tally) -> io::Result<bool> {
    let mut block = [0u8; BLOCK];
    let n = input::read_full(reader, &mut block)?;
    list::replay(&block[..n], tally);
    Ok(0 < n)
}

fn main(rt: HostRuntime) -> io::Result<()> {
    let mut reader = rt.reader();
    let mut tally = Tally::default();
    // No list is so long that the turns run out; they only show that the loop ends.
    for _ in 0..u64::MAX {
        if !replay_block(&mut reader, &mut tally)? {
            break;
        }
    }
    let Tally {
        cases,
        differences,
        first,
    } = tally;
    print!(rt; "{cases} cases, {differences} differences")?;
    if let Some(first) = first {
        print!(rt; ", the first in case {first}")?;
    }
    println!(rt)
}
