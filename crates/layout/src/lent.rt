ghost use Rattle.std.specs.Prelude.{◌≡◌, Some, None, MatchResult};
ghost use Rattle.layout.specs.Lent.{lent_fault};

use crate::register::Register;
use crate::settings::Settings;
use crate::sizes::{BENCH, GROUP, TRACK_WORDS};

/// Why a call is declined for what it is lent.
#[derive(Clone, Copy, PartialEq, Eq, Debug)]
pub enum LentFault {
    /// The track buffer does not have 4,608 numbers.
    TrackBuffer,
    /// A setting is above 32,767.
    Setting,
    /// The group buffer does not have 126,632 bytes.
    GroupBuffer,
    /// The bench does not have 138,048 bytes.
    Bench,
}

/// Tests the settings and the sizes of the memory that is lent, and gives the register that the settings ask for.
pub fn check_lent(
    buffer: usize,
    settings: Settings,
    group: usize,
    bench: usize,
) -> Result<Register, LentFault>
    ensures { MatchResult result (λ r. (lent_fault buffer settings.tap settings.start group bench ≡ None) × (r.tap ≡ settings.tap) × (r.bits ≡ settings.start) × (buffer ≡ 4608) × (group ≡ 126632) × (bench ≡ 138048)) (λ e. lent_fault buffer settings.tap settings.start group bench ≡ Some e) }
{
    if buffer != TRACK_WORDS {
        return Err(LentFault::TrackBuffer);
    }
    let register = Register::new(settings).ok_or(LentFault::Setting)?;
    if group != GROUP {
        return Err(LentFault::GroupBuffer);
    }
    if bench != BENCH {
        return Err(LentFault::Bench);
    }
    Ok(register)
}
