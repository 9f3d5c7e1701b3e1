// Reading a stream of records one step at a time (pdb's SymbolIter: seek, then next).
//
// A step is asked by a position, as C asks, and keeps none for the next; so are the calls that are made of steps. It makes no Iterator: the
// check counts what the last step passes over, the jump finder goes on behind a closer, and the climb finder goes by parent fields.
#![tactic(auto, unfolding(crate::specs::Step::frame_at, crate::specs::Step::scan_of, crate::specs::Step::step_of))]

ghost use Rattle.std.specs.Prelude.{◌≡◌, suc, ◌≤◌, length};
ghost use Rattle.iter.specs.Step.{frame_at, scan_from, scan_of, step_of};

use common::Refusal;
use common::number::Number;

/// The longest stream that is read.
pub const MAX_STREAM: usize = 0xffff_ffff;

/// What stands at a position: a record of a kind.
#[derive(Clone, Copy, Debug, PartialEq, Eq)]
pub struct Frame {
    /// Its kind.
    pub kind: u16,

    /// How many bytes stand behind its length field, its kind's two among them.
    pub len: usize,
}

/// The record at a position, as a step is asked by it, and none where no byte is left.
fn frame_at(s: &[u8], at: usize) -> Result<Option<Frame>, Refusal>
    ensures { result ≡ frame_at s.now at }
{
    let n = s.len();
    if n <= at {
        return Ok(None);
    }
    if n - at < 2 {
        return Err(Refusal::UnexpectedEof(at));
    }
    let len = u16::at(s, at) as usize;
    let body = at + 2;
    if len < 2 {
        return Err(Refusal::SymbolTooShort(body));
    }
    if n - body < len {
        return Err(Refusal::UnexpectedEof(body));
    }
    let kind = u16::at(s, body);
    Ok(Some(Frame { kind, len }))
}

/// A record that a step yields.
#[derive(Clone, Copy, Debug, PartialEq, Eq)]
pub struct Record {
    /// Its kind.
    pub kind: u16,

    /// The position of its length field.
    pub index: usize,

    /// Where its bytes start, kind first.
    pub start: usize,

    /// How many they are.
    pub len: usize,

    /// The position after it.
    pub next: usize,
}

/// Where a step ends.
#[derive(Clone, Copy, Debug, PartialEq, Eq)]
pub enum Next {
    /// At the end of the stream, which is this position.
    End(usize),

    /// At this record.
    Record(Record),
}

/// A step, with what it passed over.
#[derive(Clone, Copy, Debug, PartialEq, Eq)]
pub struct Scan {
    /// The fillers passed over.
    pub fillers: usize,

    /// Their bytes, length fields included.
    pub filler_bytes: usize,

    /// Where the step ends.
    pub step: Result<Next, Refusal>,
}

/// The step from a position within the stream. (By position, as `step`.)
#[tactic(auto, using(crate::proofs::Laws::stands), unfolding(crate::specs::Step::scan_from))]
fn scan_within(s: &[u8], from: usize) -> Scan
    requires { from ≤ length s.now }
    ensures { result ≡ scan_from (suc (length s.now)) s.now from }
{
    let mut p = from;
    let mut fillers = 0;
    let mut filler_bytes = 0;
    // No Iterator: this is what one would be made of.
    let step = loop {
        match frame_at(s, p) {
            Err(e) => break Err(e),
            Ok(None) => break Ok(Next::End(p)),
            Ok(Some(Frame { kind, len })) => {
                let start = p + 2;
                let next = start + len;
                if !constants::is_filler(kind) {
                    break Ok(Next::Record(Record {
                        kind,
                        index: p,
                        start,
                        len,
                        next,
                    }));
                }
                p = next;
                fillers += 1;
                filler_bytes += 2 + len;
            }
        }
    };
    Scan {
        fillers,
        filler_bytes,
        step,
    }
}

/// One step from a position, as `step`, with what it passed over.
pub fn scan_at(s: &[u8], at: usize) -> Scan
    ensures { result ≡ scan_of s.now at }
{
    let n = s.len();
    if MAX_STREAM < n {
        return Scan {
            fillers: 0,
            filler_bytes: 0,
            step: Err(Refusal::TooLong),
        };
    }
    scan_within(s, at.min(n))
}

/// One step from a position, by which C asks for it.
pub fn step(s: &[u8], at: usize) -> Result<Next, Refusal>
    ensures { result ≡ step_of s.now at }
{
    scan_at(s, at).step
}
