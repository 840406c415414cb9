//! What happens at a station in a view, and in the next view that the same station leads.

use model::{Grade, Name};

pub const ALPHA: Name = Name { high: 1, low: 1 };

pub const BRAVO: Name = Name { high: 1, low: 2 };

/// One thing that happens. An enum and no closures: a script is a constant row that every make plays, and a closure
/// over one make could be played by that make alone.
#[derive(Clone, Copy)]
pub enum Step {
    Offer(Name),
    Hear(Grade, Name, u32),
    Shut,
    Open(u32),
}

/// Four stations, heard one by one; station 3 lies, and some voices come twice. The second view is probed early.
pub const FOUR_ALONE: &[Step] = &[
    Step::Hear(Grade::One, ALPHA, 0b0001),
    Step::Offer(ALPHA),
    Step::Offer(BRAVO),
    Step::Hear(Grade::One, ALPHA, 0b0001),
    Step::Hear(Grade::One, ALPHA, 0b0010),
    Step::Hear(Grade::One, ALPHA, 0b0010),
    Step::Hear(Grade::One, BRAVO, 0b1000),
    Step::Hear(Grade::One, ALPHA, 0b1000),
    Step::Hear(Grade::One, ALPHA, 0b0101),
    Step::Hear(Grade::One, ALPHA, 0b0000),
    Step::Hear(Grade::One, ALPHA, 0b10000),
    Step::Hear(Grade::One, ALPHA, 0b0100),
    Step::Hear(Grade::Two, BRAVO, 0b1000),
    Step::Hear(Grade::Two, ALPHA, 0b0010),
    Step::Hear(Grade::Two, ALPHA, 0b0010),
    Step::Hear(Grade::Two, ALPHA, 0b0001),
    Step::Hear(Grade::Two, ALPHA, 0b0100),
    Step::Hear(Grade::Two, ALPHA, 0b1000),
    Step::Shut,
    Step::Open(5),
    Step::Offer(BRAVO),
    Step::Hear(Grade::One, BRAVO, 0b0001),
    Step::Shut,
    Step::Hear(Grade::One, BRAVO, 0b0010),
    Step::Hear(Grade::One, BRAVO, 0b0100),
    Step::Hear(Grade::One, BRAVO, 0b1000),
    Step::Hear(Grade::Two, BRAVO, 0b0001),
    Step::Hear(Grade::Two, BRAVO, 0b1000),
    Step::Hear(Grade::Two, BRAVO, 0b0100),
];

/// Four stations, heard as the leader passes them on.
pub const FOUR_TOGETHER: &[Step] = &[
    Step::Offer(ALPHA),
    Step::Hear(Grade::One, ALPHA, 0b0001),
    Step::Hear(Grade::One, ALPHA, 0b1001),
    Step::Hear(Grade::One, ALPHA, 0b10011),
    Step::Hear(Grade::One, ALPHA, 0b0111),
    Step::Hear(Grade::One, ALPHA, 0b0111),
    Step::Hear(Grade::One, BRAVO, 0b1110),
    Step::Hear(Grade::Two, BRAVO, 0b1100),
    Step::Hear(Grade::Two, ALPHA, 0b1101),
    Step::Hear(Grade::Two, ALPHA, 0b1111),
    Step::Shut,
    Step::Open(5),
    Step::Shut,
    Step::Hear(Grade::One, BRAVO, 0b1111),
    Step::Offer(ALPHA),
    Step::Hear(Grade::Two, ALPHA, 0b1010),
    Step::Hear(Grade::Two, BRAVO, 0b0111),
    Step::Hear(Grade::Two, ALPHA, 0b1110),
];

/// Seven stations, heard one by one; stations 5 and 6 lie.
pub const SEVEN_ALONE: &[Step] = &[
    Step::Offer(BRAVO),
    Step::Offer(BRAVO),
    Step::Hear(Grade::One, ALPHA, 0b0100000),
    Step::Hear(Grade::One, ALPHA, 0b1000000),
    Step::Hear(Grade::One, BRAVO, 0b0000010),
    Step::Hear(Grade::One, BRAVO, 0b0000100),
    Step::Hear(Grade::One, BRAVO, 0b0000100),
    Step::Hear(Grade::One, BRAVO, 0b0100000),
    Step::Hear(Grade::One, BRAVO, 0b10000000),
    Step::Hear(Grade::One, BRAVO, 0b0010000),
    Step::Hear(Grade::One, BRAVO, 0b0001000),
    Step::Hear(Grade::One, BRAVO, 0b0000001),
    Step::Hear(Grade::Two, ALPHA, 0b1000000),
    Step::Hear(Grade::Two, BRAVO, 0b0000001),
    Step::Hear(Grade::Two, BRAVO, 0b0000010),
    Step::Hear(Grade::Two, BRAVO, 0b0000100),
    Step::Hear(Grade::Two, BRAVO, 0b0001000),
    Step::Hear(Grade::Two, BRAVO, 0b0001000),
    Step::Hear(Grade::Two, BRAVO, 0b1000000),
    Step::Hear(Grade::Two, BRAVO, 0b0010000),
    Step::Shut,
    Step::Open(8),
    Step::Shut,
    Step::Offer(ALPHA),
    Step::Hear(Grade::One, ALPHA, 0b0000001),
    Step::Hear(Grade::One, ALPHA, 0b0000010),
    Step::Hear(Grade::One, ALPHA, 0b0000100),
    Step::Hear(Grade::One, ALPHA, 0b0001000),
    Step::Hear(Grade::One, ALPHA, 0b0010000),
    Step::Hear(Grade::One, BRAVO, 0b0010000),
    Step::Shut,
    Step::Open(15),
];

/// Seven stations, heard as the leader passes them on.
pub const SEVEN_TOGETHER: &[Step] = &[
    Step::Hear(Grade::One, BRAVO, 0b0001111),
    Step::Hear(Grade::One, BRAVO, 0b0011111),
    Step::Offer(BRAVO),
    Step::Hear(Grade::One, BRAVO, 0b1111111),
    Step::Hear(Grade::Two, BRAVO, 0b11111000),
    Step::Hear(Grade::Two, ALPHA, 0b1111000),
    Step::Hear(Grade::Two, BRAVO, 0b1111100),
    Step::Offer(ALPHA),
    Step::Shut,
    Step::Open(8),
    Step::Shut,
    Step::Hear(Grade::One, ALPHA, 0b1110110),
    Step::Hear(Grade::Two, ALPHA, 0b1101101),
    Step::Hear(Grade::Two, ALPHA, 0b0101101),
];
