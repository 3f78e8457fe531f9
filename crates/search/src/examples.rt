ghost use Rattle.std.specs.Prelude.{IsTrue};
ghost use Rattle.search.specs.Examples.{Examples};

/// The worked examples, on the values of the definitions.
pub fn examples_hold() -> bool
    ensures holds { IsTrue result }
    ensures law { Examples }
{
    true
}
