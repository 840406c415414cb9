ghost use Rattle.std.specs.Prelude.{◌≡◌};
ghost use Rattle.words.specs.Types.{type_number, IsTypeOf};

use model::Refusal;

/// What a message is, as its head says by a number.
#[derive(Debug, Clone, Copy, PartialEq, Eq)]
pub(crate) enum MessageType {
    Side = 1,
    Backbone = 2,
    Offer = 3,
    Voices = 4,
    Certificate = 5,
    Claim = 6,
    Probe = 7,
    Leave = 8,
}

impl From<MessageType> for u32 {
    ghost from_gives = { λ kind number. number ≡ type_number kind };

    fn from(kind: MessageType) -> u32 {
        kind as u32
    }
}

impl TryFrom<u32> for MessageType {
    type Error = Refusal;

    ghost try_from_gives = { IsTypeOf };

    fn try_from(number: u32) -> Result<Self, Refusal> {
        match number {
            1 => Ok(MessageType::Side),
            2 => Ok(MessageType::Backbone),
            3 => Ok(MessageType::Offer),
            4 => Ok(MessageType::Voices),
            5 => Ok(MessageType::Certificate),
            6 => Ok(MessageType::Claim),
            7 => Ok(MessageType::Probe),
            8 => Ok(MessageType::Leave),
            _ => Err(Refusal::NotWhole),
        }
    }
}
