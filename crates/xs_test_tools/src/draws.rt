/// Numbers drawn by a linear congruential generator, whose first state is the seed.
#[derive(Drop)]
pub struct Draws {
    pub state: u32,
}

impl Draws {
    /// A number below the count.
    pub fn below(&mut self, count: u32) -> u32 {
        self.state = self.state.wrapping_mul(1_103_515_245).wrapping_add(12_345);
        (self.state >> 16).checked_rem(count).unwrap_or(0)
    }

    /// One of the letters.
    pub fn letter_of(&mut self, letters: &[u8]) -> u8 {
        match letters.get(self.below((letters.len() % 65_536) as u32) as usize) {
            None => b'a',
            Some(letter) => *letter,
        }
    }
}
