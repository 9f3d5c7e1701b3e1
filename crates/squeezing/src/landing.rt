// Where records land in the squeezed stream.
#![tactic(auto)]

ghost use Rattle.std.specs.Prelude.{◌≡◌, ◌≤◌, ◌+◌};
ghost use Rattle.iter.specs.Reading.{read_of};
ghost use Rattle.squeezing.specs.Squeeze.{lands_from};
ghost use Rattle.squeezing.specs.Landing.{Lands, landing_at};

use iter::{Next, Record};

/// A position to read on from, and where the record that is read next lands.
#[derive(Clone, Copy, Debug, PartialEq, Eq)]
pub struct Landing {
    /// The position in the stream.
    pub at: usize,

    /// The position in the squeezed stream.
    pub to: usize,
}

impl Landing {
    /// The first record, which keeps its position.
    pub fn first(index: usize) -> Landing
        ensures { result ≡ record { at = index; to = index } }
    {
        Landing {
            at: index,
            to: index,
        }
    }

    /// Behind a record that lands here.
    pub fn behind(self, r: Record) -> Landing
        requires { self.to + 2 + r.len ≤ r.next }
        ensures { result ≡ record { at = r.next; to = self.to + 2 + r.len } }
    {
        Landing {
            at: r.next,
            to: self.to + 2 + r.len,
        }
    }
}

/// Where the record at i lands, by reading on; none where none begins there.
pub fn landing_from(s: &[u8], from: Landing, i: usize) -> Option<usize>
    requires { from.to ≤ from.at }
    ensures { result ≡ lands_from from.to (read_of s.now from.at).recs i }
{
    let mut here = from;
    loop {
        match iter::step(s, here.at) {
            Err(_) => return None,
            Ok(Next::End(_)) => return None,
            Ok(Next::Record(r)) => {
                if r.index == i {
                    return Some(here.to);
                }
                if i < r.index {
                    return None;
                }
                here = here.behind(r);
            }
        }
    }
}

/// Where the record at i lands, by reading on from one that is known, unless that is past it, or from the first. One that is found is
/// the known one then.
#[tactic(auto, using(crate::proofs::Landings::first_lands, crate::proofs::Landings::found_lands))]
pub fn landing_of(s: &[u8], first: usize, known: &mut Landing, i: usize) -> Option<usize>
    requires { Lands s.now first known.old }
    ensures place { result ≡ landing_at s.now first i }
    ensures known { Lands s.now first known.new }
{
    let from = if known.at <= i {
        *known
    } else {
        Landing::first(first)
    };
    let to = landing_from(s, from, i)?;
    *known = Landing { at: i, to };
    Some(to)
}
