// What the nesting check does at one record: the loop of crate check_nesting does as it says.
ghost use Rattle.std.specs.Prelude.{◌≡◌, reverse};
ghost use Rattle.constants.specs.Raw.{raw_kind};
ghost use Rattle.check_nesting.specs.Act.{act_of, open_of, close_of, rec_of};

use chain::MAX_DEPTH;
use common::Refusal;
use constants::Role;
use iter::Record;
use links::Links;

/// An open opener.
#[derive(Clone, Copy, Debug, Default, PartialEq, Eq)]
pub struct Open {
    /// Its index.
    pub index: usize,

    /// Its end field.
    pub end: usize,
}

/// What the check does with a record.
#[derive(Clone, Copy, Debug, PartialEq, Eq)]
pub enum Act {
    /// It goes on: the record opens no scope and closes none.
    Stay,

    /// The record opens a scope, this one.
    Push(Open),

    /// The record closes the innermost scope.
    Pop,
}

/// The act at a record, whose bytes are lent with it, with these openers open, the innermost last.
#[tactic(auto, using(iter::proofs::Records::role_of_lem), unfolding(crate::specs::Act::act_of))]
pub fn act_at(r: Record, rec: &[u8], stack: &[Open]) -> Result<Act, Refusal>
    requires { r.kind ≡ raw_kind rec.now }
    ensures { result ≡ act_of (rec_of r.index rec.now) (reverse stack.now) }
{
    match constants::nesting_role(r.kind) {
        Role::Opens => open_at(links::links_of(rec), r.index, stack),
        Role::Closes => close_at(r.index, stack),
        Role::Neither => Ok(Act::Stay),
    }
}

/// The act at an opener with these links.
fn open_at(links: Option<Links>, index: usize, stack: &[Open]) -> Result<Act, Refusal>
    ensures { result ≡ open_of links index (reverse stack.now) }
{
    let links = links.ok_or(Refusal::UnreadableOpener(index))?;
    if index == 0 {
        return Err(Refusal::OpenerAt0);
    }
    let innermost = stack.last().map_or(0, |o| o.index);
    if links.parent as usize != innermost {
        return Err(Refusal::WrongParent(index));
    }
    if MAX_DEPTH <= stack.len() {
        return Err(Refusal::TooDeep(index));
    }
    let end = links.end as usize;
    Ok(Act::Push(Open { index, end }))
}

/// The act at a closer.
fn close_at(index: usize, stack: &[Open]) -> Result<Act, Refusal>
    ensures { result ≡ close_of index (reverse stack.now) }
{
    match stack.last() {
        None => Err(Refusal::NothingOpen(index)),
        Some(o) if o.end != index => Err(Refusal::WrongEnd(index)),
        Some(_) => Ok(Act::Pop),
    }
}
