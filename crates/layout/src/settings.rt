/// The settings of the randomizer: the tap number and the start number of its register, each below 32,768.
#[derive(Clone, Copy, PartialEq, Eq, Debug)]
pub struct Settings {
    pub tap: u16,
    pub start: u16,
}
