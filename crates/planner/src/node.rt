//! Nodes of a walk.
ghost use Rattle.std.specs.Prelude.{◌≡◌, ◌≤◌};

use crate::arms::Arms;

/// Arms for the first few of the pairs that are not held: the first `depth` of the places.
// Kept: a planner has no heap, so a node is sixty places with how many of them count.
#[derive(Clone, Copy)]
pub(crate) struct Node {
    pub arms: Arms,
    pub depth: usize,
    ghost shallow: { depth ≤ 60 },
}

impl Node {
    ghost use Rattle.std.specs.Prelude.{◌<◌, ◌+◌, [], ◌∷◌, ◌++◌, take, Option, MatchOption};
    ghost use Rattle.search.specs.Search as Search;
    ghost use Rattle.search.specs.Search.{after};
    ghost use Rattle.planner.specs.Nodes.{node_of, found, LacksFirst, LastFirst};

    /// The node with no arms: the root.
    pub(crate) fn root() -> Node
        ensures { node_of result ≡ [] }
    {
        Node {
            arms: Arms::all(0),
            depth: 0,
        }
    }

    /// The node that also takes the first arm of the next pair.
    pub(crate) fn branched(self) -> Node
        requires { self.depth < 60 }
        ensures { node_of result ≡ node_of self ++ (1 ∷ []) }
    {
        Node {
            arms: self.arms.with(self.depth, 1),
            depth: self.depth + 1,
        }
    }

    /// This node up to a place, with the second arm there.
    pub(crate) fn turned_at(self, at: usize) -> Node
        requires { at < self.depth }
        ensures { node_of result ≡ take at (node_of self) ++ (2 ∷ []) }
    {
        Node {
            arms: self.arms.with(at, 2),
            depth: at + 1,
        }
    }

    /// The last place with a first arm.
    fn last_first(&self) -> Option<usize>
        ensures { MatchOption result (LacksFirst (node_of self.now)) (λ i. LastFirst (node_of self.now) i) }
    {
        self.arms.places[..self.depth]
            .iter()
            .rposition(|&arm| arm == 1)
    }

    /// The node after this one and all below it; none where it is the last.
    pub(crate) fn turned(self) -> Option<Node>
        ensures { found result ≡ after (node_of self) }
    {
        let at = self.last_first()?;
        Some(self.turned_at(at))
    }

    /// The held arms, and this node's for the first of the other pairs.
    pub(crate) fn joined(&self, holds: &Arms) -> Arms
        ensures { result.places ≡ Search.joined holds.now.places (node_of self.now) }
    {
        let mut places = holds.places;
        // Kept: a proof speaks of the arms that are left, a slice; an iterator over them would be no shorter here.
        let mut rest = &self.arms.places[..self.depth];
        for place in &mut places {
            if *place == 0 {
                // Where no arm is left, the other places stay as they are held.
                let Some((arm, others)) = rest.split_first() else {
                    break;
                };
                *place = *arm;
                rest = others;
            }
        }
        Arms { places }
    }
}
