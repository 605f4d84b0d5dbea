ghost use Rattle.std.specs.Prelude.{◌≡◌, ◌+◌, ◌-◌, ◌^◌, ◌<◌};

use std::marker::{Model, PhantomData};

/// A counter of steps, which contracts see as a number.
///
/// `L` only names the counter, so that two of them are not taken for each other.
#[derive(Debug, Drop)]
pub struct Steps<L> {
    count: u64,
    of: PhantomData<L>,
}

impl<L> Model for Steps<L> {
    ghost use Rattle.std.specs.Prelude.{ℕ};

    ghost Value = { ℕ };

    ghost view = { λ s. s.count };
}

impl<L> Steps<L> {
    /// A counter that stands at 0.
    #[inline]
    pub fn new() -> Steps<L>
        ensures { result ≡ 0 }
    {
        Steps {
            count: 0,
            of: PhantomData,
        }
    }

    /// Adds one.
    #[inline]
    pub fn tick(&mut self)
        requires { self.old < 2 ^ 64 - 1 }
        ensures { self.new ≡ self.old + 1 }
    {
        self.count += 1;
    }

    /// The number of ticks so far.
    #[inline]
    pub fn count(&self) -> u64
        ensures { result ≡ self.now }
    {
        self.count
    }
}

#[cfg(test)]
mod tests {
    use super::Steps;

    #[test]
    fn counts_ticks(rt: HostRuntime) {
        let mut steps = Steps::<u8>::new();
        steps.tick();
        steps.tick();
        assert_eq!(rt; steps.count(), 2);
    }
}
