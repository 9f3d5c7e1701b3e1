// The list: blocks of cases, filled up with zeros, each case an operation, its argument and start, the bytes it is asked about and the
// oracle's answer in words.
use crate::answer::{FREE, WORDS, Words, answer};
use crate::squeeze::{SQUEEZE, is_squeezed};
use common::buffer::ParseBuffer;

/// What was replayed so far.
#[derive(Clone, Copy, Debug, Default, PartialEq, Eq)]
pub struct Tally {
    /// How many cases.
    pub cases: u64,

    /// How many of our answers differ.
    pub differences: u64,

    /// The first case that differs, counted from 1.
    pub first: Option<u64>,
}

impl Tally {
    /// Counts a case.
    fn count(&mut self, same: bool) {
        self.cases = self.cases.wrapping_add(1);
        if !same {
            self.differences = self.differences.wrapping_add(1);
            self.first = self.first.or(Some(self.cases));
        }
    }
}

/// Reads an unsigned LEB128 number, of ten bytes at the most.
pub fn number(list: &mut ParseBuffer) -> u64 {
    let mut value = 0;
    for k in 0..10u32 {
        let Ok(b) = list.parse::<u8>() else {
            break;
        };
        value |= u64::from(b % 0x80) << (7 * k);
        if b < 0x80 {
            break;
        }
    }
    value
}

/// Reads the words of an answer: ours must be the same, and the places behind them as they were before the call.
fn is_answer(list: &mut ParseBuffer, ours: &Words) -> bool {
    let count = number(list);
    let mut same = count <= WORDS as u64;
    for (i, word) in ours.iter().enumerate() {
        let expected = if (i as u64) < count {
            number(list)
        } else {
            FREE
        };
        same &= *word == expected;
    }
    same
}

/// Replays a case, and says whether our answer is the list's. One that is not in the format has none, and ends its block.
fn replay_case(list: &mut ParseBuffer) -> bool {
    let op = number(list);
    let arg = number(list);
    let start = number(list);
    let len = number(list) as usize;
    let Some(bytes) = list.rest().get(..len) else {
        list.pos = list.bytes.len();
        return false;
    };
    list.pos += len;
    if op == SQUEEZE {
        is_squeezed(list, arg as usize, start as usize, bytes)
    } else {
        is_answer(list, &answer(op, arg, start, bytes))
    }
}

/// Replays a block. (A case takes a byte or more, so that there are no more than bytes.)
pub fn replay(block: &[u8], tally: &mut Tally) {
    let mut list = ParseBuffer::new(block);
    for _ in block {
        match list.rest().first() {
            None | Some(0) => break,
            Some(_) => tally.count(replay_case(&mut list)),
        }
    }
}
