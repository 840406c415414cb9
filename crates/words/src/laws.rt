ghost use Rattle.words.specs.Claims.{ClaimsRoundTrip};
ghost use Rattle.words.specs.Messages.{WordsRoundTrip};

/// A written message reads back as itself, and a message that reads is written as those very words.
pub fn words_round_trip()
    ensures { WordsRoundTrip }
{}

/// Written claims read back as themselves, and claims that read are written as those very words.
pub fn claims_round_trip()
    ensures { ClaimsRoundTrip }
{}
