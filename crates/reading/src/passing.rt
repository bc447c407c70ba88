ghost use Rattle.std.specs.Prelude.{◌≡◌, ℕ, ◌<◌, Bool};
ghost use Rattle.layout.specs.Counts.{which};

use arrayvec::ArrayVec;

/// The numbers below `N` that pass a test, the greatest first.
pub(crate) fn passing<const N: usize, F: Fn(usize) -> bool>(test: F) -> ArrayVec<usize, N>
    requires { (j : ℕ) → j < N → F.pre test j }
    ensures { (p : ℕ → Bool) → ((j : ℕ) (r : Bool) → j < N → F.post test j r → r ≡ p j) → result.items ≡ which p N }
{
    let mut found = ArrayVec::new();
    for i in 0..N {
        let j = N - 1 - i;
        if test(j) {
            found.push(j);
        }
    }
    found
}
