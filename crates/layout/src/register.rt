ghost use Rattle.std.specs.Prelude.{◌≡◌, ◌<◌, ◌≤◌, true, false, MatchOption};
ghost use Rattle.layout.specs.Randomizer.{step, steps, output, small};

use crate::settings::Settings;

/// The greatest setting.
pub const LAST_SETTING: u16 = 32_767;

/// The register of the randomizer: its tap number, and its bits as a number.
#[derive(Clone, Copy, PartialEq, Eq, Debug)]
pub struct Register {
    pub tap: u16,
    pub bits: u16,
    ghost few: { bits < 32768 },
}

/// The bits after one step.
fn step(tap: u16, bits: u16) -> u16
    requires { bits < 32768 }
    ensures is { result ≡ step tap bits }
    ensures below { result < 32768 }
{
    bits / 2 + 16384 * ((bits & tap).count_ones() % 2) as u16
}

/// The bits after the eight steps of one byte.
fn eight_steps(tap: u16, bits: u16) -> u16
    requires { bits < 32768 }
    ensures is { result ≡ steps tap 8 bits }
    ensures below { result < 32768 }
{
    let mut after = bits;
    for k in 0..8u8 {
        after = step(tap, after);
    }
    after
}

impl Register {
    /// The register with these bits and any tap; none where the bits are above 32,767.
    pub fn from_parts(tap: u16, bits: u16) -> Option<Register>
        ensures { MatchOption result (32768 ≤ bits) (λ r. (bits < 32768) × (r.tap ≡ tap) × (r.bits ≡ bits)) }
    {
        if bits > LAST_SETTING {
            return None;
        }
        Some(Register { tap, bits })
    }

    /// The register as it is set before a sub-group; none where a setting is above 32,767.
    pub fn new(settings: Settings) -> Option<Register>
        ensures { MatchOption result (small settings.tap settings.start ≡ false) (λ r. (small settings.tap settings.start ≡ true) × (r.tap ≡ settings.tap) × (r.bits ≡ settings.start)) }
    {
        if settings.tap > LAST_SETTING || settings.start > LAST_SETTING {
            return None;
        }
        Some(Register {
            tap: settings.tap,
            bits: settings.start,
        })
    }

    /// The byte that the next eight steps put out, its lowest bit first.
    pub fn next_byte(&mut self) -> u8
        ensures byte { result ≡ output self.old.tap 8 self.old.bits }
        ensures tap { self.new.tap ≡ self.old.tap }
        ensures bits { self.new.bits ≡ steps self.old.tap 8 self.old.bits }
    {
        // The bits that come in at the top are not among the next eight to go out.
        let byte = (self.bits % 256) as u8;
        self.bits = eight_steps(self.tap, self.bits);
        byte
    }
}
