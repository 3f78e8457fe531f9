ghost use Rattle.std.specs.Prelude.{◌≡◌, length};
ghost use Rattle.std.specs.List.{slice_get};
ghost use Rattle.graph.specs.Graph.{Case, Within};
ghost use Rattle.graph.specs.Views.{arc_found, arm_at};

use super::arc::Arc;

/// Where the arcs of a case come from. A source means one case, which is within the limits, and asking changes nothing.
pub trait CaseSource {
    /// The case.
    ghost means: { Self → Case };

    /// The last event: the events are 0 to this.
    fn end(&self) -> usize
        ensures { result ≡ (means self.now).end };

    fn fixed_count(&self) -> usize
        ensures { result ≡ length (means self.now).fixed };

    fn pair_count(&self) -> usize
        ensures { result ≡ length (means self.now).pairs };

    /// The fixed arc at an index, if there is one.
    fn fixed_arc(&self, at: usize) -> Option<Arc>
        ensures { arc_found result ≡ slice_get (means self.now).fixed at };

    /// Arm 1 or 2 of a pair; none of a pair that there is not, and no other arm.
    // Kept: an arm is a number wherever one is told, since a selection is sixty bytes, a rule of the project.
    fn arm(&self, pair: usize, arm: u8) -> Option<Arc>
        ensures { arc_found result ≡ arm_at (means self.now).pairs pair arm };

    /// The case is within the limits.
    ghost within: { (s : Self) → Within (means s) };
}
