use super::kind::Kind;

/// A train: its kind, the second at which it enters, the second at which it is due at its exit, and how many steps it
/// makes.
#[derive(Clone, Copy, Debug, PartialEq, Eq)]
pub struct Train {
    pub kind: Kind,
    /// 0 to 86,400.
    pub entry: u32,
    /// 0 to 86,400.
    pub due: u32,
    /// 1 to 16.
    // Kept: a number of steps, since the steps of all trains stand in one list, a rule of the project.
    pub steps: u8,
}

/// A step of a train: the section that it runs through, and the seconds that it takes at least.
#[derive(Clone, Copy, Debug, PartialEq, Eq)]
pub struct Step {
    /// 0 to 63.
    pub section: u8,
    /// 1 to 3,600.
    pub running: u16,
}
