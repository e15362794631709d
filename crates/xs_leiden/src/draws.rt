ghost use Rattle.std.specs.Prelude.{◌≡◌, ◌<◌};
ghost use Rattle.xs_leiden.specs.Draws.{next, drawn};

/// Numbers that are drawn from a seed, by a linear congruential generator.
#[derive(Drop)]
pub struct Draws {
    pub state: u32,
}

impl Draws {
    /// The next number, which is below `bound`.
    pub fn draw(&mut self, bound: u32) -> u32
        requires { 0 < bound }
        ensures state { self.new.state ≡ next self.old.state }
        ensures number { result ≡ drawn bound self.old.state }
        ensures below { result < bound }
    {
        let raised = u64::from(self.state) * 1_103_515_245 + 12_345;
        self.state = (raised % 2_147_483_648) as u32;
        self.state / 65_536 % bound
    }
}
