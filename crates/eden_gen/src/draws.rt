//! Draws of random numbers.
ghost use Rattle.std.specs.Prelude.{◌≡◌, ◌<◌};
ghost use Rattle.eden_gen.specs.Generated.{after, picked};

const MULTIPLIER: u64 = 6364136223846793005;

const INCREMENT: u64 = 1442695040888963407;

// The random number of the last draw, at first the seed.
#[derive(Drop)]
pub struct Draws {
    pub random: u64,
}

impl Draws {
    // One of m numbers, from 0.
    pub fn draw(&mut self, m: u64) -> u64
        requires { 0 < m }
        ensures next { self.new.random ≡ after self.old.random }
        ensures drawn { result ≡ picked self.new.random m }
        ensures below { result < m }
    {
        self.random = self.random.wrapping_mul(MULTIPLIER).wrapping_add(INCREMENT);
        (self.random >> 33) % m
    }
}
