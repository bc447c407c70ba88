ghost use Rattle.std.specs.Prelude.{◌≡◌, ◌||◌, ◌==◌};
ghost use Rattle.layout.specs.Line.{sync};

use channel::state::State;

/// The sync word after a state.
pub fn sync_after(state: State) -> u16
    ensures { result ≡ sync state }
{
    match state {
        State::Zero => 273,
        State::One => 785,
    }
}

/// Whether it is a sync word, after whichever state.
pub fn is_sync(word: u16) -> bool
    ensures { result ≡ (word == 273 || word == 785) }
{
    word == sync_after(State::Zero) || word == sync_after(State::One)
}
