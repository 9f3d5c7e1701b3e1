// The nesting check: whether the links of a stream's openers say how its records lie in one another, and what it holds.
#![tactic(auto)]

pub mod act;

ghost use Rattle.std.specs.Prelude.{◌≡◌, reverse};
ghost use Rattle.iter.specs.Reading.{ends};
ghost use Rattle.check_nesting.specs.Check.{on_end, answer_by, check_of, AddsUp};

use act::{Act, Open, act_at};
use arrayvec::ArrayVec;
use chain::MAX_DEPTH;
use common::Refusal;
use iter::Next;

/// What a stream holds, from the start that is checked on.
#[derive(Clone, Copy, Debug, Default, PartialEq, Eq)]
pub struct Counts {
    /// The records that steps yield.
    pub records: usize,

    /// Their bytes, length fields included.
    pub bytes: usize,

    /// The fillers passed over.
    pub fillers: usize,

    /// Their bytes, length fields included.
    pub filler_bytes: usize,

    /// The records that open a scope.
    pub openers: usize,

    /// How many scopes are open where the most are.
    pub deepest: usize,
}

/// The answer at End, with these openers open, the innermost last.
fn at_end(n: Counts, stack: &[Open]) -> Result<Counts, Refusal>
    ensures { result ≡ answer_by (on_end ends (reverse stack.now)) n }
{
    match stack.last() {
        None => Ok(n),
        Some(o) => Err(Refusal::LeftOpen(o.index)),
    }
}

/// Whether the stream nests from a start on, and what it holds.
#[tactic(auto, using(crate::proofs::Checks::start_le_next, crate::proofs::Checks::next_within, crate::proofs::Checks::less_left, crate::proofs::Checks::lent_kind, crate::proofs::Checks::records_fit, crate::proofs::Checks::bytes_fit, crate::proofs::Checks::turned))]
pub fn check(s: &[u8], start: usize) -> Result<Counts, Refusal>
    ensures value { result ≡ check_of s.now start }
    ensures adds_up { AddsUp result s.now start }
{
    let mut stack: ArrayVec<Open, MAX_DEPTH> = ArrayVec::new();
    let mut n = Counts::default();
    let mut at = start;
    // By position: what the last step passes over counts too, which an Iterator would not tell.
    loop {
        let scan = iter::scan_at(s, at);
        n.fillers += scan.fillers;
        n.filler_bytes += scan.filler_bytes;
        match scan.step? {
            Next::End(_) => return at_end(n, &stack),
            Next::Record(r) => {
                at = r.next;
                n.records += 1;
                n.bytes += 2 + r.len;
                match act_at(r, &s[r.start..r.next], &stack)? {
                    Act::Stay => {}
                    Act::Push(o) => {
                        stack.push(o);
                        n.openers += 1;
                        n.deepest = n.deepest.max(stack.len());
                    }
                    Act::Pop => {
                        stack.pop();
                    }
                }
            }
        }
    }
}
