use std::alloc::{AllocError, Global};

/// What a line of a callout asks for.
#[derive(Clone, Copy)]
pub(crate) enum Order {
    /// A record of so many bytes, the next ones of the callout's.
    Record(usize),
    /// A mark of this kind.
    Mark(u8),
    /// A warning.
    Warn,
}

/// A callout as a text gives it: the orders, the bytes of all records, one behind the other, and the numbers of the lines
/// that were not understood.
// The bytes stand together: with a vector for each record, many short records take 1.8 times the memory.
#[derive(Drop)]
pub(crate) struct Callout {
    pub(crate) orders: Vec<Order>,
    pub(crate) bytes: Vec<u8>,
    pub(crate) unclear: Vec<usize>,
}

/// Adds the bytes that a text gives in hex, and says how many they are; none where a word is no byte.
fn add_hex(bytes: &mut Vec<u8>, text: &str) -> Result<Option<usize>, AllocError> {
    let before = bytes.len();
    for word in text.split_whitespace() {
        match u8::from_str_radix(word, 16) {
            Ok(byte) => bytes.push(byte)?,
            Err(_) => {
                bytes.truncate(before);
                return Ok(None);
            }
        }
    }
    Ok(Some(bytes.len().saturating_sub(before)))
}

/// The order of a line, and none where it is not understood; the bytes of a record are added.
fn order_of(bytes: &mut Vec<u8>, line: &str) -> Result<Option<Order>, AllocError> {
    let (word, rest) = line.split_once(' ').unwrap_or((line, ""));
    Ok(match word {
        "record" => {
            bytes.extend_from_slice(rest.as_bytes())?;
            Some(Order::Record(rest.len()))
        }
        "hex" => add_hex(bytes, rest)?.map(Order::Record),
        "mark" => rest.trim().parse::<u8>().ok().map(Order::Mark),
        "warn" => Some(Order::Warn),
        _ => None,
    })
}

impl Callout {
    /// A callout without orders.
    pub(crate) fn new(heap: Global) -> Callout {
        Callout {
            orders: Vec::new(heap),
            bytes: Vec::new(heap),
            unclear: Vec::new(heap),
        }
    }

    /// Adds the line with this number. An empty line, or one that begins with #, is passed over.
    pub(crate) fn add(&mut self, number: usize, line: &str) -> Result<(), AllocError> {
        let line = line.trim();
        if line.is_empty() || line.starts_with('#') {
            return Ok(());
        }
        match order_of(&mut self.bytes, line)? {
            Some(order) => self.orders.push(order)?,
            None => self.unclear.push(number)?,
        }
        Ok(())
    }
}
