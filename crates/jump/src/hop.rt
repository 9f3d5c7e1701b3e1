// What the jump finder does at one record, and where a jump over a scope lands: the loop of crate jump does as it says.
ghost use Rattle.std.specs.Prelude.{◌≡◌};
ghost use Rattle.constants.specs.Raw.{raw_kind};
ghost use Rattle.jump.specs.Hop.{open_hop, hop_of, land_of};

use chain::MAX_DEPTH;
use common::Refusal;
use constants::Role;
use iter::{Next, Record};
use links::Links;

/// What the jump finder does at a record that it reads.
#[derive(Clone, Copy, Debug, PartialEq, Eq)]
pub enum Hop {
    /// It goes on: the record opens no scope and closes none.
    Stay,

    /// The record opens a scope that reaches the one asked for.
    Push,

    /// The record opens a scope that ends before it: on to the closer at this end field.
    Over(usize),

    /// The record is the one asked for.
    Found,
}

/// The hop at an opener with these links. (The depth is all that it needs of the chain.)
fn open_hop(links: Option<Links>, next: usize, i: usize, depth: usize) -> Result<Hop, Refusal>
    ensures { result ≡ open_hop links next i depth }
{
    let links = links.ok_or(Refusal::UnusableLink)?;
    let end = links.end as usize;
    if end < next {
        return Err(Refusal::UnusableLink);
    }
    if end < i {
        return Ok(Hop::Over(end));
    }
    if MAX_DEPTH <= depth {
        return Err(Refusal::TooDeep(0));
    }
    Ok(Hop::Push)
}

/// The hop at a record, whose bytes are lent with it, on the way to i, with so many openers open. (As above, the depth is all that it
/// needs of the chain.)
#[tactic(auto, using(iter::proofs::Records::role_of_lem), unfolding(crate::specs::Hop::hop_of))]
pub fn hop_at(r: Record, rec: &[u8], i: usize, depth: usize) -> Result<Hop, Refusal>
    requires { r.kind ≡ raw_kind rec.now }
    ensures { result ≡ hop_of i r.index r.next rec.now depth }
{
    if r.index == i {
        return Ok(Hop::Found);
    }
    if i < r.index {
        return Err(Refusal::NothingThere);
    }
    match constants::nesting_role(r.kind) {
        Role::Opens => open_hop(links::links_of(rec), r.next, i, depth),
        Role::Closes => Err(Refusal::UnusableLink),
        Role::Neither => Ok(Hop::Stay),
    }
}

/// The closer at an end field, which is a position.
#[tactic(auto, unfolding(crate::specs::Hop::land_of, iter::specs::Step::step_of))]
pub fn land_at(s: &[u8], end: usize) -> Result<Record, Refusal>
    ensures { result ≡ land_of s.now end }
{
    let Next::Record(r) = iter::step(s, end)? else {
        return Err(Refusal::UnusableLink);
    };
    if r.index != end || constants::nesting_role(r.kind) != Role::Closes {
        return Err(Refusal::UnusableLink);
    }
    Ok(r)
}
