/// What an accepted Add found: a new block, which the book then holds, or one that it held already.
#[derive(Clone, Copy, Debug, PartialEq, Eq)]
pub enum Added {
    New,
    Held,
}

/// What holds for a sonde: the calibration certificate it is bound to, and the flight.
#[derive(Clone, Copy, Debug, PartialEq, Eq)]
pub struct Binding {
    pub certificate: u32,
    pub flight: u32,
}
