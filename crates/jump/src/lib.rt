// The jump finder: the scopes that enclose a record, where the end field of an opener jumps over a scope that closes before it.
//
// As walking, it reads records by steps from a start and changes its chain in place.
#![tactic(auto)]

pub mod hop;

ghost use Rattle.std.specs.Prelude.{◌≡◌};
ghost use Rattle.jump.specs.Jump.{jump_of};

use chain::{Chain, Found};
use common::Refusal;
use hop::Hop;
use iter::Next;

/// The scopes that enclose the record at i, by steps and jumps from a start.
#[tactic(auto, using(iter::proofs::Steps::start_le_next, iter::proofs::Steps::next_within, iter::proofs::Steps::less_left, iter::proofs::Steps::index_fits, iter::proofs::Steps::lent_kind, crate::proofs::Hops::push_room))]
pub fn jump(s: &[u8], start: usize, i: usize) -> Result<Found, Refusal>
    ensures { result ≡ jump_of s.now start i }
{
    let mut chain = Chain::new();
    let mut at = start;
    let mut read: usize = 0;
    // By position: a jump goes on elsewhere, which an Iterator would not.
    loop {
        match iter::step(s, at)? {
            Next::End(_) => return Err(Refusal::NothingThere),
            Next::Record(r) => {
                at = r.next;
                read += 1;
                match hop::hop_at(r, &s[r.start..r.next], i, chain.len())? {
                    Hop::Stay => {}
                    Hop::Push => chain.push(r.index as u32),
                    Hop::Over(end) => {
                        at = hop::land_at(s, end)?.next;
                        read += 1;
                    }
                    Hop::Found => return Ok(Found { chain, count: read }),
                }
            }
        }
    }
}
