ghost use Rattle.std.specs.Prelude.{◌≡◌};
ghost use Rattle.channel.specs.States.{state_number};

/// The state that a line code keeps from word to word: zero stands for Q = -1, one for Q = 1.
#[derive(Clone, Copy, PartialEq, Eq, Debug)]
pub enum State {
    Zero = 0,
    One = 1,
}

impl State {
    /// The state as a number, 0 or 1.
    pub fn number(self) -> u8
        ensures { result ≡ state_number self }
    {
        self as u8
    }
}
