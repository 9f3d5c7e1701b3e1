// The walk finder: the scopes that enclose a record, by steps from a start.
//
// The chain is changed in place, so that no step of the walk copies it.
#![tactic(auto)]

ghost use Rattle.std.specs.Prelude.{◌≡◌};
ghost use Rattle.walk.specs.Walk.{turn_of, walk_of};

use chain::{Chain, Found, MAX_DEPTH};
use common::Refusal;
use constants::Role;
use iter::{Next, Record};

/// What the walk does at a record that it reads.
#[derive(Clone, Copy, Debug, PartialEq, Eq)]
pub enum Turn {
    /// It goes on: the record opens no scope and closes none.
    Stay,

    /// The record opens a scope.
    Push,

    /// The record closes the innermost scope.
    Pop,

    /// The record is the one asked for.
    Found,
}

/// The turn at a record, on the way to i, with so many openers open. (The depth is all that it needs of the chain.)
#[tactic(auto, unfolding(crate::specs::Walk::turn_of))]
fn turn_at(r: Record, i: usize, depth: usize) -> Result<Turn, Refusal>
    ensures { result ≡ turn_of i r.index r.kind depth }
{
    if r.index == i {
        return Ok(Turn::Found);
    }
    if i < r.index {
        return Err(Refusal::NothingThere);
    }
    match constants::nesting_role(r.kind) {
        Role::Opens => {
            if MAX_DEPTH <= depth {
                return Err(Refusal::TooDeep(0));
            }
            Ok(Turn::Push)
        }
        Role::Closes => {
            if depth == 0 {
                return Err(Refusal::NothingOpen(0));
            }
            Ok(Turn::Pop)
        }
        Role::Neither => Ok(Turn::Stay),
    }
}

/// The scopes that enclose the record at i, by steps from a start.
#[tactic(auto, using(iter::proofs::Steps::less_left, iter::proofs::Steps::index_fits, crate::proofs::Walks::push_room, crate::proofs::Walks::pop_some))]
pub fn walk(s: &[u8], start: usize, i: usize) -> Result<Found, Refusal>
    ensures { result ≡ walk_of s.now start i }
{
    let mut chain = Chain::new();
    let mut at = start;
    let mut read: usize = 0;
    // By position: the check counts fillers and the jump leaves the row, so that an Iterator would serve the walk and the listing alone.
    loop {
        match iter::step(s, at)? {
            Next::End(_) => return Err(Refusal::NothingThere),
            Next::Record(r) => {
                at = r.next;
                read += 1;
                match turn_at(r, i, chain.len())? {
                    Turn::Stay => {}
                    Turn::Push => chain.push(r.index as u32),
                    Turn::Pop => {
                        chain.pop();
                    }
                    Turn::Found => return Ok(Found { chain, count: read }),
                }
            }
        }
    }
}
