//! Where a walk stands.
ghost use Rattle.std.specs.Prelude.{◌≡◌, ◌+◌, ◌-◌, ◌^◌, ◌≤◌};
ghost use Rattle.search.specs.Room.{room_after};
ghost use Rattle.planner.specs.Nodes.{found};

use crate::node::Node;

/// The node to examine next, none once the search is finished, and how many nodes were examined.
#[derive(Clone, Copy)]
pub(crate) struct Place {
    pub next: Option<Node>,
    pub count: u64,
    ghost few: { count + room_after 60 (found next) ≤ 2 ^ 61 - 1 },
}

impl Place {
    ghost use Rattle.std.specs.Prelude.{[], Some};

    /// At the root, with nothing examined.
    pub(crate) fn start() -> Place
        ensures next { found result.next ≡ Some [] }
        ensures count { result.count ≡ 0 }
    {
        Place {
            next: Some(Node::root()),
            count: 0,
        }
    }

    /// Goes on to another node, or finishes, with one node more examined.
    pub(crate) fn go_on(&mut self, next: Option<Node>)
        requires { room_after 60 (found next) + 1 ≤ room_after 60 (found self.old.next) }
        ensures next { self.new.next ≡ next }
        ensures count { self.new.count ≡ self.old.count + 1 }
    {
        self.next = next;
        self.count += 1;
    }
}
