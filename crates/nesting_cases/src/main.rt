// Asks the nesting check and the finders about one stream after another, and prints what they answer.
//
// A case on standard input is a letter (n nesting check, w walk, j jump, c climb), a position and the length of a stream, each of four
// bytes, and the stream, which is read from 4.
#![tactic(auto)]

use chain::Found;
use check_nesting::Counts;
use common::Refusal;
use common::number::Number;
use std::io::{self, Read};

/// How many bytes stand before the length of a stream.
const HEAD: usize = 5;

/// How long a stream may be.
const ROOM: usize = 8192;

/// Where the records of a stream start.
const START: usize = 4;

fn print_refusal(rt: &HostRuntime, e: Refusal) -> io::Result<()> {
    println!(rt; "refused {} {}", e.number(), e.position())
}

fn print_counts(rt: &HostRuntime, counts: Result<Counts, Refusal>) -> io::Result<()> {
    print!(rt; "check: ")?;
    match counts {
        Ok(n) => {
            print!(rt; "{} records of {} bytes, ", n.records, n.bytes)?;
            print!(rt; "{} fillers of {}, ", n.fillers, n.filler_bytes)?;
            println!(rt; "{} openers, {} deep", n.openers, n.deepest)
        }
        Err(e) => print_refusal(rt, e),
    }
}

fn print_found(
    rt: &HostRuntime,
    finder: &str,
    i: usize,
    found: Result<Found, Refusal>,
) -> io::Result<()> {
    print!(rt; "{finder} {i}: ")?;
    match found {
        Ok(found) => {
            print!(rt; "count {}, chain", found.count)?;
            for at in &found.chain.places()[..found.chain.len()] {
                print!(rt; " {at}")?;
            }
            println!(rt)
        }
        Err(e) => print_refusal(rt, e),
    }
}

/// Prints what is asked, and the answer.
fn answer(rt: &HostRuntime, asked: u8, i: usize, stream: &[u8]) -> io::Result<()> {
    match asked {
        b'n' => print_counts(rt, check_nesting::check(stream, START)),
        b'w' => print_found(rt, "walk", i, walk::walk(stream, START, i)),
        b'j' => print_found(rt, "jump", i, jump::jump(stream, START, i)),
        b'c' => print_found(rt, "climb", i, climb::climb(stream, i)),
        _ => println!(rt; "not asked"),
    }
}

/// Answers the case that the input goes on with, and says whether there was one.
fn answer_case<R: Read>(rt: &HostRuntime, reader: &mut R) -> io::Result<bool> {
    let mut head = [0u8; HEAD];
    if input::read_full(reader, &mut head)? < HEAD {
        return Ok(false);
    }
    let i = u32::at(&head, 1) as usize;
    let mut stream = [0u8; ROOM];
    let Some(n) = input::read_case(reader, &mut stream)? else {
        return Ok(false);
    };
    answer(rt, head[0], i, &stream[..n])?;
    Ok(true)
}

fn main(rt: HostRuntime) -> io::Result<()> {
    let mut reader = rt.reader();
    // No input is so long that the turns run out; they only show that the loop ends.
    for _ in 0..u64::MAX {
        if !answer_case(&rt, &mut reader)? {
            break;
        }
    }
    Ok(())
}
