ghost use Rattle.std.specs.Prelude.{◌≡◌, ◌^◌, ◌<◌, true, false, MatchOption};
ghost use Rattle.model.specs.Questions.{Judged};
ghost use Rattle.model.specs.Quorums.{start_questions, stations, leader, leads, within, quorum, first_quorum, single};

use crate::numbers::Numbers;
use crate::refusals::Refusal;

impl Numbers {
    /// The numbers, if f is from 1 to 9 and the own number at most 3f.
    pub fn new(f: u32, own: u32) -> Result<Numbers, Refusal>
        ensures { Judged (start_questions f own) (λ s. (s.f ≡ f) × (s.own ≡ own)) result }
    {
        if 1 <= f && f <= 9 && own <= 3 * f {
            Ok(Numbers { f, own })
        } else {
            Err(Refusal::BadNumbers)
        }
    }

    /// This station's number.
    pub fn own(self) -> u32
        ensures { result ≡ self.own }
    {
        self.own
    }

    /// How many stations there are, numbered from 0.
    pub fn stations(self) -> u32
        ensures { result ≡ stations self }
    {
        3 * self.f + 1
    }

    /// The station that leads the view.
    pub fn leader(self, view: u32) -> u32
        ensures { result ≡ leader self view }
    {
        view % self.stations()
    }

    /// Whether this station leads the view.
    pub fn leads(self, view: u32) -> bool
        ensures { result ≡ leads self view }
    {
        self.leader(view) == self.own
    }

    /// Whether the mask has no bit from the number of stations up.
    pub fn is_within(self, mask: u32) -> bool
        ensures { result ≡ within self mask }
    {
        mask < 1u32 << self.stations()
    }

    /// Whether the mask holds a quorum: 2f + 1 stations or more, and nothing but stations.
    pub fn holds_quorum(self, mask: u32) -> bool
        ensures { result ≡ quorum self mask }
    {
        mask.count_ones() >= 2 * self.f + 1 && self.is_within(mask)
    }

    /// Whether a mask that grew from `before` to `after` holds a quorum now that it did not hold.
    pub fn first_quorum(self, before: u32, after: u32) -> bool
        ensures { result ≡ first_quorum self before after }
    {
        !self.holds_quorum(before) && self.holds_quorum(after)
    }

    /// The station of a mask that has exactly one.
    pub fn only_station(self, mask: u32) -> Option<usize>
        ensures { MatchOption result (single self mask ≡ false) (λ i. (single self mask ≡ true) × (mask ≡ 2 ^ i) × (i < stations self)) }
    {
        (mask.count_ones() == 1 && self.is_within(mask)).then_some(mask.trailing_zeros() as usize)
    }
}
