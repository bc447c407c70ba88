ghost use Rattle.std.specs.Prelude.{◌≡◌, Some, None, MatchResult};
ghost use Rattle.losses.specs.Faults.{size_decline};
ghost use Rattle.playing.specs.Play.{size_fault};

use layout::lent::check_lent;
use layout::register::Register;
use layout::settings::Settings;
use playing::fault::PlayFault;

/// Tests the settings and the sizes of the memory that is lent.
pub(crate) fn test_lent(
    buffer: usize,
    settings: Settings,
    group: usize,
    bench: usize,
) -> Result<Register, PlayFault>
    ensures { MatchResult result (λ r. (size_fault (size_decline buffer settings.tap settings.start group bench) ≡ None) × (r.tap ≡ settings.tap) × (r.bits ≡ settings.start)) (λ e. size_fault (size_decline buffer settings.tap settings.start group bench) ≡ Some e) }
{
    Ok(check_lent(buffer, settings, group, bench)?)
}
