// Condition 3: wherever the nesting check passes, the jump finder, the walk finder and the climb finder agree.
//
// The claim is stated in specs/Agreement.antt. It is the contract of a function that makes the four calls, and behind it
// a theorem over their definitions, proofs/Agreement.antt.
#![tactic(auto)]

ghost use Rattle.std.specs.Prelude.{◌≡◌};
ghost use Rattle.agreement.specs.Agreement.{answers_of, Condition3};

use chain::Found;
use check_nesting::Counts;
use common::Refusal;

/// What the four calls return.
#[derive(Clone, Copy, Debug, PartialEq, Eq)]
pub struct Answers {
    /// The nesting check's, from the start.
    pub checked: Result<Counts, Refusal>,

    /// The walk finder's, from the start to the position.
    pub walked: Result<Found, Refusal>,

    /// The jump finder's, from the start to the position.
    pub jumped: Result<Found, Refusal>,

    /// The climb finder's, from the position.
    pub climbed: Result<Found, Refusal>,
}

/// Asks the check of a stream from a start, and the three finders of a position in it.
pub fn four_answers(s: &[u8], start: usize, i: usize) -> Answers
    ensures value { result ≡ answers_of s.now start i }
    ensures condition3 { Condition3 s.now start i result }
{
    let checked = check_nesting::check(s, start);
    let walked = walk::walk(s, start, i);
    let jumped = jump::jump(s, start, i);
    let climbed = climb::climb(s, i);
    Answers {
        checked,
        walked,
        jumped,
        climbed,
    }
}
