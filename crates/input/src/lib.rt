// What the programs read: a reader's bytes, as many as the lent ones hold, or one case of a test program after another.
#![tactic(auto)]

ghost use Rattle.std.specs.Prelude.{◌≡◌, ◌≤◌, ◌⊎◌, length, take, IfOk, IfSome, MatchOption};
ghost use Rattle.std.specs.Io.KnownBytes.{Consumes, IsAtEnd};
ghost use Rattle.input.specs.Case.{IsCase, NoCase};

use std::io::{self, Read};

/// Reads until the lent bytes are full or the reader ends, and answers how many bytes were read: the reader's next ones, from the first
/// lent place on. (A loop: std's `read_exact` refuses where the reader ends early, `read_to_end` wants a heap, and the contract of
/// `io::copy` into a slice says nothing of its bytes.)
pub fn read_full<R: Read>(reader: &mut R, bytes: &mut [u8]) -> io::Result<usize>
    ensures fits { IfOk result (λ n. n ≤ length bytes.new) }
    ensures next { IfOk result (λ n. Consumes (R.remaining reader.old) (R.remaining reader.new) (take n bytes.new)) }
    ensures full { IfOk result (λ n. (n ≡ length bytes.new) ⊎ IsAtEnd (R.remaining reader.new)) }
{
    let mut at = 0;
    while at < bytes.len() {
        let n = reader.read(&mut bytes[at..])?;
        if n == 0 {
            return Ok(at);
        }
        at += n;
    }
    Ok(at)
}

/// Reads the case that the reader goes on with: its length in four bytes, little-endian, and its bytes, to the first lent places. Answers
/// how many these are, fewer than the length says where the reader ends; none where no length is left, or no room for so many.
pub fn read_case<R: Read>(reader: &mut R, bytes: &mut [u8]) -> io::Result<Option<usize>>
    ensures fits { IfOk result (λ c. IfSome c (λ n. n ≤ length bytes.new)) }
    ensures case { IfOk result (λ c. MatchOption c
        (NoCase (R.remaining reader.old) (R.remaining reader.new) bytes.old bytes.new)
        (λ n. IsCase (R.remaining reader.old) (R.remaining reader.new) bytes.new n)) }
{
    let mut head = [0u8; 4];
    if read_full(reader, &mut head)? < 4 {
        return Ok(None);
    }
    let len = u32::from_le_bytes(head) as usize;
    if bytes.len() < len {
        return Ok(None);
    }
    let n = read_full(reader, &mut bytes[..len])?;
    Ok(Some(n))
}
