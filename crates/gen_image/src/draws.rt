//! The numbers that a seed draws.
ghost use Rattle.std.specs.Prelude.{◌≡◌};
ghost use Rattle.gen_image.specs.Generated.{seed_state, next, draw_answer};

/// The modulus of the sequence.
const MODULUS: u64 = 0x8000_0000;

/// What the state is multiplied with, and what is added to it.
const FACTOR: u64 = 1_103_515_245;

const ADDEND: u64 = 12_345;

/// The state of the draws.
#[derive(Drop)]
pub(crate) struct Draws {
    pub(crate) state: u32,
}

impl Draws {
    /// The draws of a seed.
    pub(crate) fn new(seed: u64) -> Draws
        ensures { result.state ≡ seed_state seed }
    {
        Draws {
            state: (seed % MODULUS) as u32,
        }
    }

    /// The next number of the draws.
    pub(crate) fn draw(&mut self) -> u32
        ensures state { self.new.state ≡ next self.old.state }
        ensures drawn { result ≡ draw_answer (next self.old.state) }
    {
        self.state = ((FACTOR * u64::from(self.state) + ADDEND) % MODULUS) as u32;
        self.state / 65536
    }
}
