ghost use Rattle.std.specs.Prelude.{◌≡◌};
ghost use Rattle.sources.specs.Records.{arc_in, pair_in};

use graph::{Arc, Pair};

/// What an arc or a pair is kept as.
pub trait Record<T>: Copy {
    ghost value: { Self → T };

    /// What is kept.
    fn read(self) -> T
        ensures { result ≡ value self };
}

/// A record that is the value.
impl<T: Copy> Record<T> for T {
    ghost value = { λ x. x };

    fn read(self) -> T {
        self
    }
}

/// An arc in nine bytes.
impl Record<Arc> for [u8; 9] {
    ghost value = { arc_in };

    fn read(self) -> Arc {
        let [f0, f1, t0, t1, w0, w1, w2, w3, mark] = self;
        Arc {
            from: u16::from_be_bytes([f0, f1]),
            to: u16::from_be_bytes([t0, t1]),
            weight: u32::from_be_bytes([w0, w1, w2, w3]).cast_signed(),
            mark,
        }
    }
}

/// The two arms of a pair, one after the other.
impl Record<Pair> for [[u8; 9]; 2] {
    ghost value = { pair_in };

    fn read(self) -> Pair {
        let [first, second] = self;
        Pair {
            first: first.read(),
            second: second.read(),
        }
    }
}

/// The records of a case, which may break its limits.
#[derive(Clone, Copy)]
pub(crate) struct Records<'a, A, P> {
    pub(crate) end: usize,
    pub(crate) fixed: &'a [A],
    pub(crate) pairs: &'a [P],
}
