ghost use Rattle.std.specs.Prelude.{◌≡◌, ◌<◌, slice_set};

/// A trial of one arm in arms that were lent: at its end the arm before is put back.
pub struct Trial<'a> {
    pub arms: &'a mut [u8; 60],
    pub pair: usize,
    pub before: u8,
}

impl Drop for Trial<'_> {
    fn drop(self)
        requires { self.pair < 60 }
        ensures { self.exit.0.now ≡ slice_set self.entry.arms.now self.entry.pair self.entry.before }
    {
        self.arms[self.pair] = self.before;
        let Trial {
            arms: _,
            pair: _,
            before: _,
        } = self;
    }
}
