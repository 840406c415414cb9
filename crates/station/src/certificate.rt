ghost use Rattle.std.specs.Prelude.{◌≡◌};
ghost use Rattle.model.specs.Questions.{Judged};
ghost use Rattle.model.specs.Stations.{with_state};
ghost use Rattle.model.specs.Certifying.{taking, certificate_questions, CertificateCall};
ghost use Rattle.book.specs.Meaning.{book_of};
ghost use Rattle.station.specs.Meaning.{core_of};

use crate::ranges::{judge_ranges, some_stations};
use crate::stations::Station;
use book::Book;
use broadcast::{Broadcast, Observe};
use model::{Certificate, Grade, Refusal};

impl<B: Broadcast> Station<B> {
    /// Takes a certificate up: as the highest, and if it is of grade 2 as the target, where its view is higher.
    pub(crate) fn take_up(&mut self, certificate: Certificate)
        ensures { core_of B.Observe self.new ≡ with_state (taking certificate self.old.state) (core_of B.Observe self.old) }
    {
        if self.state.highest.view < certificate.view {
            self.state.highest = certificate;
        }
        if certificate.grade == u32::from(Grade::Two) && self.state.target.view < certificate.view {
            self.state.target = certificate;
        }
    }

    fn judge_certificate(&self, book: &Book<'_>, certificate: Certificate) -> Result<(), Refusal>
        ensures { Judged (certificate_questions (core_of B.Observe self.now) (book_of book.now) certificate) (λ _. Unit {0}) result }
    {
        let numbers = self.cast.numbers();
        if !some_stations(numbers, certificate.mask) {
            return Err(Refusal::NoSuchStation);
        }
        judge_ranges(certificate.grade, certificate.view, certificate.name)?;
        if !book.holds_backbone(certificate.name, certificate.view) {
            return Err(Refusal::NotHeld);
        }
        if !numbers.holds_quorum(certificate.mask) {
            return Err(Refusal::NoQuorum);
        }
        Ok(())
    }

    /// Takes up a certificate of a held block.
    pub fn certificate(&mut self, book: &Book<'_>, certificate: Certificate) -> Result<(), Refusal>
        ensures { CertificateCall (core_of B.Observe self.old) (book_of book.now) certificate (core_of B.Observe self.new) result }
    {
        self.judge_certificate(book, certificate)?;
        self.take_up(certificate);
        Ok(())
    }
}
