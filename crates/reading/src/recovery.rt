ghost use Rattle.std.specs.Prelude.{◌≡◌, ◌<◌, ◌≤◌, length, is_ok};
ghost use Rattle.reed_solomon.specs.Interleaves.{Reaches};
ghost use Rattle.reed_solomon.specs.Words.{Places};
ghost use Rattle.reading.specs.Arrays.{Recovered};

use reed_solomon::codes::Code;
use reed_solomon::fault::Unfillable;
use reed_solomon::interleaved::Interleaving;

/// Fills the lost bytes of a word that lies interleaved, so that it is one of the code; with none lost it is only
/// checked. The memory is left as it is where there is no filling.
pub(crate) fn recover(
    code: Code,
    memory: &mut [u8],
    at: Interleaving,
    lost: &[usize],
) -> Result<(), Unfillable>
    requires reach { Reaches (length memory.old) at.start at.stride code.length }
    requires stride { 0 < at.stride }
    requires n { code.length < 256 }
    requires places { Places code.length lost.now }
    requires few { length lost.now ≤ code.check_bytes }
    ensures { Recovered code.check_bytes lost.now memory.old memory.new at.start at.stride code.length (is_ok result) }
{
    if !lost.is_empty() {
        return code.fill_interleaved(memory, at, lost);
    }
    if code.holds_interleaved(memory, at) {
        Ok(())
    } else {
        Err(Unfillable)
    }
}
