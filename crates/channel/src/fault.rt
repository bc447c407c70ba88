ghost use Rattle.std.specs.Prelude.{◌≡◌};
ghost use Rattle.channel.specs.Faults.{number};

/// Why a sheet is declined.
#[derive(Clone, Copy, PartialEq, Eq, Debug)]
pub enum SheetFault {
    /// There are not 512 numbers.
    WrongCount = 1,
    /// A number is above 2,047.
    WideNumber = 2,
    /// One word stands under two different bytes.
    SharedWord = 3,
}

impl SheetFault {
    /// The number of the decline.
    pub fn number(self) -> u8
        ensures { result ≡ number self }
    {
        self as u8
    }
}
