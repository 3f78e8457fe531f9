ghost use Rattle.std.specs.Prelude.{◌≡◌};
ghost use Rattle.graph.specs.Faults.{Fault};

/// Why a call is refused, told by three numbers.
// Kept: numbers, as the rules of the project tell a refusal; the faults themselves are enums.
pub trait Refusal: Copy {
    /// The layer, the cause and the place.
    ghost told: { Self → Fault };

    /// The layer that refuses: 1 the message, 2 the case, 3 the railway, 4 the planner.
    fn layer(self) -> u8
        ensures { result ≡ (told self).layer };

    /// The number of the cause.
    fn cause(self) -> u8
        ensures { result ≡ (told self).cause };

    /// Where: what the place counts depends on the cause.
    fn place(self) -> usize
        ensures { result ≡ (told self).place };
}
