// The opener at a position, as the climb finder needs it: its parent field.
ghost use Rattle.std.specs.Prelude.{◌≡◌};
ghost use Rattle.climb.specs.Opener.{parent_of, opener_of};

use common::Refusal;
use constants::Role;
use iter::Next;
use links::Links;

/// The parent field of an opener with these links.
fn parent_of(links: Option<Links>) -> Result<usize, Refusal>
    ensures { result ≡ parent_of links }
{
    let links = links.ok_or(Refusal::UnusableLink)?;
    Ok(links.parent as usize)
}

/// The parent field of the opener at a position, which C or another parent field says.
#[tactic(auto, using(iter::proofs::Steps::start_le_next, iter::proofs::Steps::next_within, iter::proofs::Steps::lent_kind, iter::proofs::Steps::lent_bytes, iter::proofs::Records::role_of_lem), unfolding(crate::specs::Opener::opener_of))]
pub fn opener_at(s: &[u8], at: usize) -> Result<usize, Refusal>
    ensures { result ≡ opener_of s.now at }
{
    match iter::step(s, at)? {
        Next::End(_) => Err(Refusal::NothingThere),
        Next::Record(r) => {
            if r.index != at {
                return Err(Refusal::NothingThere);
            }
            match constants::nesting_role(r.kind) {
                Role::Opens => parent_of(links::links_of(&s[r.start..r.next])),
                Role::Closes | Role::Neither => Err(Refusal::NothingThere),
            }
        }
    }
}
