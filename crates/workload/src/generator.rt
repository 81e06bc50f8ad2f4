ghost use Rattle.std.specs.Prelude.{◌≡◌, ◌<◌, ◌%◌};
ghost use Rattle.workload.specs.Generator.{next_state, next_draw};

const MULTIPLIER: u64 = 6_364_136_223_846_793_005;

const INCREMENT: u64 = 1_442_695_040_888_963_407;

/// How many of the lower bits of a state no draw shows: a generator modulo a power of 2 repeats them soon.
const HIDDEN_BITS: u32 = 33;

/// The linear congruential generator of MMIX (Knuth, The Art of Computer Programming, volume 2, section 3.3.4).
#[derive(Drop)]
pub(crate) struct Generator {
    pub(crate) state: u64,
}

impl Generator {
    /// The next draw, of 31 bits.
    pub(crate) fn draw(&mut self) -> u64
        ensures value { result ≡ next_draw self.old.state }
        ensures state { self.new.state ≡ next_state self.old.state }
    {
        self.state = self.state.wrapping_mul(MULTIPLIER).wrapping_add(INCREMENT);
        self.state >> HIDDEN_BITS
    }

    /// The next draw, brought below a bound.
    pub(crate) fn draw_below(&mut self, bound: u64) -> u64
        requires { 0 < bound }
        ensures value { result ≡ next_draw self.old.state % bound }
        ensures state { self.new.state ≡ next_state self.old.state }
    {
        self.draw() % bound
    }
}
