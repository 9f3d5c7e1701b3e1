// The climb finder: the scopes that enclose an opener, by its parent field and those of its parents.
//
// Only steps at the opener and at its parents are made. The chain lists the innermost scope first, in the order climbed.
#![tactic(auto)]

pub mod opener;

ghost use Rattle.std.specs.Prelude.{◌≡◌, []};
ghost use Rattle.chain.specs.Chain.{max_depth};
ghost use Rattle.climb.specs.Climb.{climb_on, climb_of};

use chain::{Chain, Found, MAX_DEPTH};
use common::Refusal;

/// The climb from an opener, whose parent field is `first`. (By position, which parent fields are.)
#[tactic(auto, using(crate::proofs::Openers::opener_fits, crate::proofs::Climbs::at_top, crate::proofs::Climbs::at_full))]
fn climb_from(s: &[u8], i: usize, first: usize) -> Result<Found, Refusal>
    ensures { result ≡ climb_on max_depth s.now i first [] }
{
    let mut chain = Chain::new();
    let mut index = i;
    let mut parent = first;
    // By position: each parent field says the next.
    while parent != 0 {
        if MAX_DEPTH <= chain.len() {
            return Err(Refusal::TooDeep(0));
        }
        if index <= parent {
            return Err(Refusal::UnusableLink);
        }
        let Ok(next) = opener::opener_at(s, parent) else {
            return Err(Refusal::UnusableLink);
        };
        chain.push(parent as u32);
        index = parent;
        parent = next;
    }
    let count = chain.len();
    Ok(Found { chain, count })
}

/// The scopes that enclose the opener at i, by parent fields.
#[tactic(auto, unfolding(crate::specs::Climb::climb_of))]
pub fn climb(s: &[u8], i: usize) -> Result<Found, Refusal>
    ensures { result ≡ climb_of s.now i }
{
    let parent = opener::opener_at(s, i)?;
    climb_from(s, i, parent)
}
