// Where random weights come from.
ghost use Rattle.std.specs.Prelude.{◌≡◌, ℕ, ◌+◌, ◌%◌, ◌^◌};
ghost use Rattle.groups.specs.declared.weights.Weight.{Weight};

/// A number of 128 bits, in two halves.
// Two halves and no `u128`: contracts and cases name each of them by itself.
#[derive(Clone, Copy, PartialEq, Eq)]
pub struct Weight {
    pub high: u64,
    pub low: u64,
}

pub trait Weights {
    // The weights still to come, from place 0 on.
    ghost coming: { Self → ℕ → Weight };

    fn draw(&mut self) -> Weight
        ensures first { result ≡ coming self.old 0 }
        ensures rest { (k : ℕ) → coming self.new k ≡ coming self.old (k + 1) };
}

/// Gives its state, then one more, and so on.
#[derive(Clone, Copy, PartialEq, Eq)]
pub struct Counting {
    pub state: u64,
}

impl Weights for Counting {
    ghost coming = { λ s k. record { high = 0; low = (s.state + k) % 2 ^ 64 } };

    fn draw(&mut self) -> Weight {
        let weight = Weight {
            high: 0,
            low: self.state,
        };
        self.state = self.state.wrapping_add(1);
        weight
    }
}
