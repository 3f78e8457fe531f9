ghost use Rattle.std.specs.Prelude.{◌≡◌, ℤ, pos, ◌+ℤ◌, int_lt};
ghost use Rattle.graph.specs.Graph.{Ranking, IsRanking};
ghost use Rattle.graph.specs.Views.{Summable};

/// What times are told in. A value has a rank, a whole number, and values compare as their ranks do.
pub trait TimeMeasure: Copy {
    ghost rank: { Self → ℤ };

    /// The rank of an arc, by its weight and mark.
    ghost ranking: { Ranking };

    /// The value of rank 0.
    fn zero() -> Self
        ensures { rank result ≡ pos 0 };

    fn of_arc(weight: i32, mark: u8) -> Self
        ensures { rank result ≡ ranking weight mark };

    /// The sum, while both ranks lie between −2^60 and 2^60.
    fn plus(self, other: Self) -> Self
        ensures { Summable (rank self) → Summable (rank other) → rank result ≡ rank self +ℤ rank other };

    fn is_below(self, other: Self) -> bool
        ensures { result ≡ int_lt (rank self) (rank other) };

    ghost bounded: { IsRanking ranking };
}
