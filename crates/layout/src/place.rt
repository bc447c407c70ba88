ghost use Rattle.std.specs.Prelude.{◌≡◌, ◌%◌, ◌<◌};
ghost use Rattle.layout.specs.Placing.{Places-fit, Bijection};
ghost use Rattle.layout.specs.Placed.{placing, sign_of};

use crate::sign::{Channel, Half, Sign};

/// The place of a byte of G3 word `word`: its sign, block and serial. There are 1,456 words, and no two bytes have one
/// place.
pub fn place_byte(word: usize, channel: Channel, half: Half) -> Option<(Sign, usize, usize)>
    ensures placed { result ≡ placing word channel half }
    ensures fits { Places-fit }
    ensures bijection { Bijection }
{
    if word >= 1456 {
        return None;
    }
    let run = word / 52;
    let block = word % 52 + 75 * (word % 2) + word / 832;
    let serial = 2 * (half.number() + run) - run % 2 - 32 * (word / 832);
    Some((sign_of(channel.number() + word), block, serial))
}

/// PLUS where the number is even.
fn sign_of(n: usize) -> Sign
    requires { n < 2000 }
    ensures { result ≡ sign_of (n % 2) }
{
    if n % 2 == 0 { Sign::Plus } else { Sign::Minus }
}
