ghost use Rattle.std.specs.Prelude.{◌≡◌, ◌+◌, ◌<◌, ◌≤◌, length};
ghost use Rattle.model.specs.Questions.{Judged};
ghost use Rattle.model.specs.Votes.{graded};
ghost use Rattle.model.specs.Stations.{posted, sent, own_voice};
ghost use Rattle.model.specs.Voting.{grade_at, gave, voices_form, voices_fit, certified, completing, VoicesCall};
ghost use Rattle.places.specs.Held.{held, bound};
ghost use Rattle.book.specs.Meaning.{book_of};
ghost use Rattle.station.specs.Meaning.{core_of, desk_of};
ghost use Rattle.station.specs.Ready.{IsGrade, MayHear, gives, relaying};

use crate::outbox::Outbox;
use crate::ranges::{judge_ranges, some_stations};
use crate::stations::Station;
use book::Book;
use broadcast::{Broadcast, Observe};
use model::{Certificate, Grade, Name, Refusal, SecondVote, Sent, Voices};

impl<B: Broadcast> Station<B> {
    // The questions on the form of the voices, and their grade.
    fn judge_voices_form(&self, voices: Voices) -> Result<Grade, Refusal>
        ensures { Judged (voices_form (core_of B.Observe self.now) voices) (IsGrade voices.grade) result }
    {
        if !some_stations(self.cast.numbers(), voices.mask) {
            return Err(Refusal::NoSuchStation);
        }
        let grade = judge_ranges(voices.grade, voices.view, voices.name)?;
        self.judge_view(voices.view)?;
        Ok(grade)
    }

    // The questions on their block, those of the broadcast, and that on the outbox.
    fn judge_voices_fit(
        &self,
        book: &Book<'_>,
        out: &Outbox<'_>,
        grade: Grade,
        voices: Voices,
    ) -> Result<(), Refusal>
        requires { grade ≡ grade_at voices.grade }
        ensures { Judged (voices_fit B.Observe.fits B.Observe.free (desk_of B.Observe self.now out.now) (book_of book.now) voices)
            (λ _. MayHear B.Observe.fits B.Observe.free (desk_of B.Observe self.now out.now) voices) result }
    {
        if !book.holds_backbone(voices.name, voices.view) {
            return Err(Refusal::NotHeld);
        }
        self.cast.judge(grade, voices.name, voices.mask)?;
        if !out.has_room(2) {
            return Err(Refusal::NoPlaces);
        }
        Ok(())
    }

    // Voices of this view.
    fn voices_of(&self, grade: Grade, name: Name, mask: u32) -> Voices
        ensures { result ≡ record { grade = graded grade; view = (B.Observe.meaning self.now.cast).view; name = name; mask = mask } }
    {
        Voices {
            grade: grade.into(),
            view: self.cast.view(),
            name,
            mask,
        }
    }

    // The station's own voice.
    pub(crate) fn own_voice(&self, grade: Grade, name: Name) -> Sent
        ensures { result ≡ sent (own_voice (core_of B.Observe self.now) (graded grade) name) }
    {
        Sent::Voices(self.voices_of(grade, name, 1u32 << self.cast.numbers().own()))
    }

    // The certificate of that grade for the name, by those heard.
    fn certified(&self, grade: Grade, name: Name) -> Certificate
        ensures { result ≡ certified (B.Observe.meaning self.now.cast) grade name }
    {
        Certificate::from(self.voices_of(grade, name, self.cast.mask(grade, name)))
    }

    // A second vote given since `before` is certified in grade 1, and sent.
    fn give(&mut self, out: &mut Outbox<'_>, before: SecondVote)
        requires { length (held out.old) < bound out.old }
        ensures after { desk_of B.Observe self.new out.new ≡ gives (gave before (B.Observe.meaning self.old.cast).second) (desk_of B.Observe self.old out.old) }
        ensures few { length (held out.new) ≤ length (held out.old) + 1 }
    {
        if let (SecondVote::Waiting, SecondVote::Given(name)) = (before, self.cast.second()) {
            self.take_up(self.certified(Grade::One, name));
            out.put(self.own_voice(Grade::Two, name));
        }
    }

    // A view that is complete for the name is certified in grade 2.
    fn complete(&mut self, name: Name)
        ensures { core_of B.Observe self.new ≡ completing name (core_of B.Observe self.old) }
    {
        if self.cast.is_complete(name) {
            self.take_up(self.certified(Grade::Two, name));
        }
    }

    // A mask that a Hear handed over is passed on, under the grade and name heard.
    fn relay(&self, out: &mut Outbox<'_>, grade: Grade, name: Name, send: Option<u32>)
        requires { length (held out.old) < bound out.old }
        ensures { desk_of B.Observe self.now out.new ≡ posted (relaying grade name send (core_of B.Observe self.now)) (desk_of B.Observe self.now out.old) }
    {
        if let Some(mask) = send {
            out.put(Sent::Voices(self.voices_of(grade, name, mask)));
        }
    }

    /// Hands voices to the broadcast. A second vote that this gives is certified and sent, a view that is then complete is certified,
    /// and a mask that the broadcast hands over is sent last.
    #[tactic(auto, using(crate::proofs::Parts::voices_parts))]
    pub fn voices(
        &mut self,
        book: &Book<'_>,
        out: &mut Outbox<'_>,
        voices: Voices,
    ) -> Result<(), Refusal>
        ensures { VoicesCall B.Observe.fits B.Observe.free B.Broadcast.hears (desk_of B.Observe self.old out.old) (book_of book.now) voices
            (desk_of B.Observe self.new out.new) result }
    {
        let grade = self.judge_voices_form(voices)?;
        self.judge_voices_fit(book, out, grade, voices)?;
        let before = self.cast.second();
        let send = self.cast.hear(grade, voices.name, voices.mask)?;
        self.give(out, before);
        self.complete(voices.name);
        self.relay(out, grade, voices.name, send);
        Ok(())
    }
}
