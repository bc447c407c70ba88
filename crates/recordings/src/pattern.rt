// A record of n bytes has the byte 7 i + n at place i, mod 256. All records are parts of one pattern, 7 j at place j: such a
// record begins where 7 j is n, and that is at j = 183 n, mod 256.

/// The bytes of the pattern: enough for a record one byte too long, wherever it begins.
pub(crate) const LENGTH: usize = 16_777_216 + 256;

/// Writes the pattern.
pub(crate) fn fill(bytes: &mut [u8]) {
    for (place, byte) in bytes.iter_mut().enumerate() {
        *byte = byte_after(0, place);
    }
}

/// The record of so many bytes.
pub(crate) fn record_of(bytes: &[u8], count: usize) -> &[u8] {
    let from = (count % 256).wrapping_mul(183) % 256;
    bytes.get(from..from.saturating_add(count)).unwrap_or(&[])
}

/// Whether bytes are the pattern from a byte on.
pub(crate) fn goes_on(bytes: &[u8], first: u8) -> bool {
    bytes
        .iter()
        .enumerate()
        .all(|(place, byte)| *byte == byte_after(first, place))
}

/// The byte of the pattern that follows so many bytes after this one.
pub(crate) fn byte_after(first: u8, count: usize) -> u8 {
    first.wrapping_add((count % 256 * 7 % 256) as u8)
}
