ghost use Rattle.std.specs.Prelude.{◌≡◌, ℕ, ◌+◌, ◌*◌, ◌<◌, length};
ghost use Rattle.reading.specs.Groups.{Spread, group_in};

use layout::register::Register;
use layout::row::data_place;
use layout::sizes::{GROUP, ROW, ROWS, SUB_GROUP};

/// The sub-groups of a group.
const SUB_GROUPS: usize = 22;

/// Puts byte `d` of each sub-group, XORed with the mask, from the rows into the group.
fn put_bytes(rows: &[u8; ROWS], d: usize, mask: u8, group: &mut [u8; GROUP])
    requires d_bound { d < 5756 }
    ensures { Spread rows.now group.old group.new d mask 22 }
{
    let at = data_place(d);
    // By number: the bytes lie a stride apart, and of what a stepped iter_mut writes nothing would be known after the loop.
    for f in 0..SUB_GROUPS {
        group[SUB_GROUP * f + d] = rows[2 * ROW * f + at] ^ mask;
    }
}

/// Takes the bytes of the group from the rows: the D bytes, randomized again. The register is set anew for each
/// sub-group, so each of its bytes serves all of them.
pub(crate) fn take_group(rows: &[u8; ROWS], mut register: Register, group: &mut [u8; GROUP])
    ensures { group.new ≡ group_in register.tap register.bits rows.now }
{
    for d in 0..SUB_GROUP {
        let mask = register.next_byte();
        put_bytes(rows, d, mask, group);
    }
}
