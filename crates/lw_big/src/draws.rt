// Numbers that are drawn from a seed.
const MULTIPLIER: u64 = 6_364_136_223_846_793_005;

const INCREMENT: u64 = 1_442_695_040_888_963_407;

// A linear congruential generator.
#[derive(Drop)]
pub(crate) struct Draws {
    state: u64,
}

impl Draws {
    ghost use Rattle.lw_big.specs.Drawing.{DrawsNext, HasDrawn};

    #[tactic(auto, unfolding(crate::specs::Draws::state_after))]
    pub(crate) fn new(seed: u64) -> Self
        ensures { HasDrawn seed 0 result }
    {
        Draws { state: seed }
    }

    // The next number: the upper 31 bits of the next state.
    pub(crate) fn draw(&mut self) -> u32
        ensures { DrawsNext self.old self.new result }
    {
        self.state = self.state.wrapping_mul(MULTIPLIER).wrapping_add(INCREMENT);
        (self.state >> 33) as u32
    }
}
