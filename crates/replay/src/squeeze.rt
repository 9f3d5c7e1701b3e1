// Squeezing, which has bytes to write to besides words: the list has the bytes that are written behind the words, eight to a word.
use crate::answer::FREE;
use crate::list::number;
use common::buffer::ParseBuffer;
use mitrelilac::mitrelilac_squeeze;

/// The operation's number.
pub const SQUEEZE: u64 = 44;

/// The most bytes that are lent: a case that asks for more is a difference.
const ROOM: usize = 65536;

/// The most words of an answer.
const WORDS: usize = 3 + ROOM / 8;

/// What lent bytes hold before a call.
const FREE_BYTE: u8 = 0xfd;

/// Reads the words of written bytes, the last word filled up with zeros: ours must be the same bytes.
fn are_bytes(answer: &mut ParseBuffer, ours: &[u8]) -> bool {
    let mut word = 0;
    let mut same = true;
    for (i, byte) in ours.iter().enumerate() {
        if i % 8 == 0 {
            word = number(answer);
        }
        same &= word % 256 == *byte as u64;
        word /= 256;
    }
    same && word == 0
}

/// Squeezes into so many lent bytes, reads the words of the answer, and says whether it is ours. Lent bytes behind those that are written
/// must be as they were before the call, and all of them after a refusal.
pub fn is_squeezed(list: &mut ParseBuffer, room: usize, start: usize, s: &[u8]) -> bool {
    let count = number(list);
    let mut answer = *list;
    for _ in 0..count.min(WORDS as u64) {
        number(list);
    }
    let mut buffer = [FREE_BYTE; ROOM];
    let lent = room.min(ROOM);
    let mut out = [FREE; 2];
    let returned = mitrelilac_squeeze(s, start, &mut buffer[..lent], &mut out);
    let written = if returned == 0 { out[0] as usize } else { 0 };
    let (ours, rest) = buffer[..lent].split_at(written.min(lent));
    let mut same = room == lent && written <= lent;
    same &= number(&mut answer) == returned as u64;
    same &= number(&mut answer) == out[0];
    if returned == 0 {
        same &= count == 2 + ours.len().div_ceil(8) as u64;
        same &= out[1] == FREE;
        same &= are_bytes(&mut answer, ours);
    } else {
        same &= count == 3;
        same &= number(&mut answer) == out[1];
    }
    same && rest.iter().all(|byte| *byte == FREE_BYTE)
}
