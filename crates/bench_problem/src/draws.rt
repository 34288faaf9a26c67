ghost use Rattle.std.specs.Prelude.{◌≡◌, ◌<◌, ◌==◌};
ghost use Rattle.bench_problem.specs.Draws.{next_state, number_below};

use std::marker::Model;

const MULTIPLIER: u64 = 6_364_136_223_846_793_005;

const INCREMENT: u64 = 1_442_695_040_888_963_407;

/// Numbers that are drawn in turn. Contracts see it as the state that the next one comes from.
#[derive(Debug, Drop)]
pub struct Draws {
    state: u64,
}

impl Model for Draws {
    ghost use Rattle.std.specs.Prelude.{ℕ};

    ghost Value = { ℕ };

    ghost view = { λ draws. draws.state };
}

impl Draws {
    /// The draws from this state on.
    pub fn new(state: u64) -> Draws
        ensures { result ≡ state }
    {
        Draws { state }
    }

    /// The next number, below `bound`.
    pub fn draw(&mut self, bound: u32) -> u32
        requires { 0 < bound }
        ensures number { result ≡ number_below self.new bound }
        ensures below { result < bound }
        ensures state { self.new ≡ next_state self.old }
    {
        self.state = self.state.wrapping_mul(MULTIPLIER).wrapping_add(INCREMENT);
        ((self.state >> 33) % u64::from(bound)) as u32
    }

    /// The next number below 2, as a truth value.
    pub fn draw_bit(&mut self) -> bool
        ensures value { result ≡ (number_below self.new 2 == 1) }
        ensures state { self.new ≡ next_state self.old }
    {
        self.draw(2) == 1
    }
}
