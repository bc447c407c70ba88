// Test data; programs share no crate, so `speed` has it too.

/// Numbers that look random.
#[derive(Drop)]
pub(crate) struct Noise(pub(crate) u32);

impl Noise {
    /// The next number.
    pub(crate) fn next(&mut self) -> u32 {
        self.0 = self.0.wrapping_mul(1_664_525).wrapping_add(1_013_904_223);
        self.0
    }
}
