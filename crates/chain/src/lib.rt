// What the finders answer with: a chain of positions, and how much was read for it.
//
// Walking and jumping list the outermost scope first, climbing the innermost.
#![tactic(auto)]

ghost use Rattle.std.specs.Prelude.{◌≡◌, ◌<◌, [], ◌∷◌, ◌++◌, length};
ghost use Rattle.chain.specs.Chain.{places, max_depth};

use std::marker::Model;

/// The most scopes that lie in one another, and the most positions that a chain lists.
pub const MAX_DEPTH: usize = 64;

/// Up to 64 positions. (Places and a count: an answer is `Copy`, which the kit's `ArrayVec` is not, and C is told all 64 places.)
#[derive(Clone, Copy, Debug, PartialEq, Eq)]
pub struct Chain {
    at: [u32; MAX_DEPTH],
    depth: usize,
}

// Clauses see the positions, from the first place on.
impl Model for Chain {
    ghost use Rattle.std.specs.Prelude.{ℕ, ◌≤◌, ◌≡◌, List, length, take};

    ghost Value = { List ℕ };

    ghost use Rattle.chain.specs.Chain.{places, max_depth};

    ghost view = { λ c. take c.depth c.at };

    ghost invariant = { λ c. (c.depth ≤ max_depth) × (length (take c.depth c.at) ≡ c.depth) × (places (take c.depth c.at) ≡ c.at) };

    ghost inverse = { λ xs. record { at = places xs; depth = length xs } };

    ghost inverse_ok = { λ c h i. record { at = h.2 i; depth = h.1 i } };
}

impl Chain {
    /// The chain of no position.
    pub fn new() -> Self
        ensures { result ≡ [] }
    {
        Chain {
            at: [0; MAX_DEPTH],
            depth: 0,
        }
    }

    /// How many positions it lists.
    pub fn len(&self) -> usize
        ensures { result ≡ length self.now }
    {
        self.depth
    }

    /// Lists a position behind the others.
    pub fn push(&mut self, position: u32)
        requires { length self.old < max_depth }
        ensures { self.new ≡ self.old ++ position ∷ [] }
    {
        self.at[self.depth] = position;
        self.depth += 1;
    }

    /// Takes the last position off. Its place is 0 again.
    pub fn pop(&mut self) -> u32
        requires { 0 < length self.old }
        ensures { self.old ≡ self.new ++ result ∷ [] }
    {
        self.depth -= 1;
        let position = self.at[self.depth];
        self.at[self.depth] = 0;
        position
    }

    /// All the places; unused ones are 0.
    pub fn places(&self) -> &[u32; MAX_DEPTH]
        ensures { result.now ≡ places self.now }
    {
        &self.at
    }
}

/// What a finder answers with.
#[derive(Clone, Copy, Debug, PartialEq, Eq)]
pub struct Found {
    /// The positions of the scopes that enclose the one asked for.
    pub chain: Chain,

    /// The number of records read; of a climb, of links.
    pub count: usize,
}
