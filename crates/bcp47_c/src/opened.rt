//! What a handle holds, and its answer to each call. `Some self.new` in a clause is what the handle holds after the
//! call.
ghost use Rattle.std.specs.Prelude.{◌≡◌, IfOk, IfErr, Ok, Err, Some, length};
ghost use Rattle.lt_canon.specs.ExplanationTexts.{IsExplanationTextOf};
ghost use Rattle.lt_canon.specs.Texts.{IsCanonicalTextOf, IsTextRefusal};
ghost use Rattle.bcp47.specs.Promise.{ReadsBytes};
ghost use Rattle.bcp47_c.specs.Ends.{ChecksUpgrade, Classifies, Compares, CountsSteps, Keeps, Validates};
ghost use Rattle.bcp47_c.specs.Matches.{Matches};
ghost use Rattle.bcp47_c.specs.Outcomes.{Answers};
ghost use Rattle.bcp47_c.specs.Records.{AreRowsOf, TellsRecord, alone};
ghost use Rattle.bcp47_c.specs.Serving.{Accepts, Lists, Serves, texts_of};
ghost use Rattle.bcp47_c.specs.Texts.{IsReadingRefusal};
ghost use Rattle.lt_canon.specs.TextAnswers.{IsExtlangTextOf};
ghost use Rattle.bcp47_c.specs.Traces.{Verifies};

use crate::errors::upgrade_said;
use crate::matching::{answer_match, scheme_of};
use crate::numbers::{BAD_CALL, BAD_FILE, DIFFERENT, DONE, OUT_OF_MEMORY};
use crate::outcomes::{Outcome, Said, deliver, deliver_rows, ended, refuse};
use crate::records::{FieldLengths, read_fields};
use crate::serving::{answer_accepted, answer_best, list_tags, refuse_tag};
use crate::steps::StepNumbers;
use crate::texts::{classify, equality, read_pair, rows_text, step_count, validity, write_extlang};
use crate::traces::{judge, trace_said};
use bcp47::{
    Available, Jar, JarFaultKind, OutOfMemory, Registry, RegistryError, TextRefusal, fields_of,
    read_jar,
};
use std::alloc::Global;
use std::marker::Model;
use std::sync::Arc;

/// How many bytes `texts` has room for at first: as many as the longest text that is read as a tag has.
const TEXT_ROOM: usize = 1024;

/// A registry, and the records and the list of tags that are kept with it. Other handles may hold all of these too. It
/// also has room in which calls make their texts.
#[derive(Drop)]
pub(crate) struct Opened {
    registry: Arc<Registry>,
    records: Arc<Jar>,
    available: Arc<Available>,
    /// Room for the text of a call, so that a call need not take memory for it. No contract sees it.
    texts: Vec<u8>,
}

impl Model for Opened {
    ghost use Rattle.bcp47_c.specs.Records.{Kept};

    ghost Value = { Kept };

    ghost view = { λ o. record { entries = o.registry.value; records = o.records.value; lists = o.available.value } };
}

impl Opened {
    /// What a handle holds for a registry and what is kept with it, in a box. Refused only where memory runs out.
    fn hold(
        alloc: Global,
        registry: Arc<Registry>,
        records: Arc<Jar>,
        available: Arc<Available>,
    ) -> Result<Box<Opened>, OutOfMemory>
        ensures { IfOk result (λ opened. opened.value ≡ record { entries = registry.value; records = records.value; lists = available.value }) }
    {
        let texts = Vec::with_capacity(alloc, TEXT_ROOM)?;
        let opened = Opened {
            registry,
            records,
            available,
            texts,
        };
        Ok(Box::new(alloc, opened)?)
    }

    /// What a handle holds for a registry with which nothing is kept, in a box. Refused only where memory runs out.
    fn hold_alone(alloc: Global, registry: Registry) -> Result<Box<Opened>, OutOfMemory>
        ensures { IfOk result (λ opened. opened.value ≡ alone registry) }
    {
        let Ok(no_tags) = registry.available(alloc, &[]) else {
            return Err(OutOfMemory);
        };
        let records = Vec::new(alloc);
        let no_records = Arc::new(alloc, Jar { records })?;
        let available = Arc::new(alloc, no_tags)?;
        Opened::hold(alloc, Arc::new(alloc, registry)?, no_records, available)
    }

    /// What a handle holds for the registry whose text the bytes are, or why they are none. Nothing is kept with it.
    pub(crate) fn read(alloc: Global, bytes: &[u8]) -> Result<Box<Opened>, RegistryError>
        ensures read { IfOk result (λ opened. ReadsBytes bytes.now (Ok opened.value.entries)) }
        ensures none { IfOk result (λ opened. opened.value ≡ alone opened.value.entries) }
        ensures error { IfErr result (λ error. ReadsBytes bytes.now (Err error)) }
    {
        let registry = Registry::from_bytes(alloc, bytes)?;
        match Opened::hold_alone(alloc, registry) {
            Ok(opened) => Ok(opened),
            Err(_) => Err(RegistryError::OutOfMemory),
        }
    }

    /// Keeps the records that bytes have with the registry, in place of those that were kept, and gives the status 0.
    /// The status is 7 if the bytes are not in the format, and 4 if memory ran out; nothing changes then.
    pub(crate) fn keep(&mut self, alloc: Global, bytes: &[u8]) -> u8
        ensures { Keeps self.old (Some self.new) bytes.now result }
    {
        match read_jar(alloc, bytes) {
            Ok(jar) => match Arc::new(alloc, jar) {
                Ok(records) => {
                    self.records = records;
                    DONE
                }
                Err(_) => OUT_OF_MEMORY,
            },
            Err(fault) if fault.kind == JarFaultKind::OutOfMemory => OUT_OF_MEMORY,
            Err(_) => BAD_FILE,
        }
    }

    /// Keeps a list of tags in place of the one that was kept, and answers the status 0. The texts of the tags stand
    /// one after another in `text`, and `lengths` are their lengths. If a tag is refused or memory runs out, that is
    /// answered, and nothing changes.
    pub(crate) fn list(&mut self, alloc: Global, text: &[u8], lengths: &[usize]) -> Outcome
        ensures { Lists self.old (texts_of lengths.now text.now) (Some self.new) result }
    {
        match list_tags(alloc, &self.registry, text, lengths) {
            Ok(available) => {
                self.available = available;
                deliver(ended(DONE), &[], &mut [])
            }
            Err(refused) => refuse_tag(&refused),
        }
    }

    /// How many entries the registry has.
    pub(crate) fn count(&self) -> usize
        ensures { result ≡ length self.now.entries }
    {
        self.registry.entries().len()
    }

    /// What another handle holds for the same registry and what is kept with it, which is not copied. Refused only where
    /// memory runs out.
    pub(crate) fn share(&self, alloc: Global) -> Result<Box<Opened>, OutOfMemory>
        ensures { IfOk result (λ opened. opened.value ≡ self.now) }
    {
        let registry = Arc::try_clone(&self.registry)?;
        let records = Arc::try_clone(&self.records)?;
        let available = Arc::try_clone(&self.available)?;
        Opened::hold(alloc, registry, records, available)
    }

    /// Writes the canonical text of the tag that a text is read as, or answers why there is none.
    pub(crate) fn canonical(&mut self, alloc: Global, text: &[u8], buffer: &mut [u8]) -> Outcome
        ensures kept { self.new ≡ self.old }
        ensures answer { Answers (IsCanonicalTextOf self.old.entries text.now) (IsTextRefusal self.old.entries text.now) buffer.old buffer.new result }
    {
        self.texts.clear();
        match self
            .registry
            .append_canonical_text(alloc, text, &mut self.texts)
        {
            Ok(()) => deliver(ended(DONE), &self.texts, buffer),
            Err(refusal) => refuse(&refusal, buffer),
        }
    }

    /// Writes the text of the extlang form of the tag that a text is read as, or answers why there is none.
    pub(crate) fn extlang(&mut self, alloc: Global, text: &[u8], buffer: &mut [u8]) -> Outcome
        ensures kept { self.new ≡ self.old }
        ensures answer { Answers (IsExtlangTextOf self.old.entries text.now) (IsTextRefusal self.old.entries text.now) buffer.old buffer.new result }
    {
        if let Err(refusal) = write_extlang(alloc, &self.registry, text, &mut self.texts) {
            return refuse(&refusal, buffer);
        }
        deliver(ended(DONE), &self.texts, buffer)
    }

    /// Writes the text, in conventional case, of the tag that a text is read as, and tells its class, or answers why it is
    /// no tag.
    pub(crate) fn classify(&mut self, alloc: Global, text: &[u8], buffer: &mut [u8]) -> Outcome
        ensures kept { self.new ≡ self.old }
        ensures answer { Classifies text.now buffer.old buffer.new result }
    {
        classify(alloc, text, &mut self.texts, buffer)
    }

    /// Tells whether the tag that a text is read as is valid, or why not.
    pub(crate) fn validate(&self, alloc: Global, text: &[u8]) -> Outcome
        ensures { Validates self.now.entries text.now result }
    {
        match validity(alloc, &self.registry, text) {
            Ok(()) => deliver(ended(DONE), &[], &mut []),
            // A refusal has a text only where steps can repeat a variant, which is no fault of validity.
            Err(refusal) => refuse(&refusal, &mut []),
        }
    }

    /// Tells whether the tags that two texts are read as are equivalent, or answers why a text is no tag or a tag is
    /// refused. If steps can repeat a variant of a tag, the variant is written to the buffer.
    pub(crate) fn equal(
        &self,
        alloc: Global,
        first: &[u8],
        second: &[u8],
        buffer: &mut [u8],
    ) -> Outcome
        ensures { Compares self.now.entries first.now second.now buffer.old buffer.new result }
    {
        match equality(alloc, &self.registry, first, second) {
            Ok(true) => deliver(ended(DONE), &[], buffer),
            Ok(false) => deliver(ended(DIFFERENT), &[], buffer),
            Err(refusal) => refuse(&refusal, buffer),
        }
    }

    /// Tells whether a language range matches a tag, by the scheme with this number; or why one of them is refused, or
    /// that no scheme has the number. If steps can repeat a variant of the range or the tag, the variant is written to
    /// the buffer.
    pub(crate) fn matches(
        &self,
        alloc: Global,
        scheme: u32,
        range: &[u8],
        tag: &[u8],
        buffer: &mut [u8],
    ) -> Outcome
        ensures { Matches self.now.entries scheme range.now tag.now buffer.old buffer.new result }
    {
        match scheme_of(scheme) {
            Some(known) => answer_match(alloc, &self.registry, known, range, tag, buffer),
            None => deliver(ended(BAD_CALL), &[], buffer),
        }
    }

    /// Tells the place, counted from 0, of the kept tag that is served for an Accept-Language header, or that there is
    /// none, or why the header is refused.
    pub(crate) fn best(&self, alloc: Global, header: &[u8]) -> Outcome
        ensures { Serves self.now.entries self.now.lists header.now result }
    {
        answer_best(alloc, &self.registry, &self.available, header)
    }

    /// Writes the places, counted from 0, of the kept tags that an Accept-Language header accepts to the front of
    /// `room`, and answers how many there are. If they don't fit, none is written, and BufferTooSmall is answered with
    /// their number. If the header is refused, that is answered.
    pub(crate) fn accepted(&self, alloc: Global, header: &[u8], room: &mut [usize]) -> Outcome
        ensures { Accepts self.now.entries self.now.lists header.now room.old room.new result }
    {
        answer_accepted(alloc, &self.registry, &self.available, header, room)
    }

    /// Writes the explanation of the tag that a text is read as, or answers why there is none.
    pub(crate) fn explain(&self, alloc: Global, text: &[u8], buffer: &mut [u8]) -> Outcome
        ensures { Answers (IsExplanationTextOf self.now.entries text.now) (IsTextRefusal self.now.entries text.now) buffer.old buffer.new result }
    {
        match self.registry.explanation_text(alloc, text) {
            Ok(lines) => deliver(ended(DONE), &lines, buffer),
            Err(refusal) => refuse(&refusal, buffer),
        }
    }

    /// Writes, as an array of JSON, what the registry and the records that are kept with it have for the parts of the tag that
    /// a text is read as, or answers why it is no tag.
    pub(crate) fn show(&self, alloc: Global, text: &[u8], buffer: &mut [u8]) -> Outcome
        ensures { Answers (AreRowsOf self.now.entries self.now.records text.now) (IsReadingRefusal text.now) buffer.old buffer.new result }
    {
        match rows_text(alloc, &self.registry, self.records.records(), text) {
            Ok(rows) => deliver(ended(DONE), &rows, buffer),
            Err(refusal) => refuse(&refusal, buffer),
        }
    }

    /// Counts the steps in the explanation of the tag that a text is read as, or answers why there is none. If steps
    /// can repeat a variant of the tag, the variant is written to the buffer.
    pub(crate) fn count_steps(&self, alloc: Global, text: &[u8], buffer: &mut [u8]) -> Outcome
        ensures { CountsSteps self.now.entries text.now buffer.old buffer.new result }
    {
        match step_count(alloc, &self.registry, text) {
            Ok(count) => {
                let said = Said {
                    status: DONE,
                    detail: 0,
                    place: count as u64,
                };
                deliver(said, &[], buffer)
            }
            Err(refusal) => refuse(&refusal, buffer),
        }
    }

    /// Writes the fields of the kept record with this number, counted from 1: their lengths to the front of `room`, and
    /// their texts to the buffer. A record that is not there has no fields. If one of the two doesn't fit, nothing is
    /// written, and BufferTooSmall is answered. If memory runs out, that is answered.
    pub(crate) fn record(
        &self,
        alloc: Global,
        number: u32,
        buffer: &mut [u8],
        room: &mut [FieldLengths],
    ) -> Outcome
        ensures { TellsRecord self.now.records number room.old room.new buffer.old buffer.new result }
    {
        match read_fields(alloc, fields_of(self.records.records(), number)) {
            Ok((lengths, texts)) => deliver_rows(&lengths, &texts, room, buffer),
            Err(_) => refuse(&TextRefusal::OutOfMemory, buffer),
        }
    }

    /// Tells whether steps, given in numbers, lead from the tag of `text`, one after another, to the tag of `last`, or
    /// what is wrong with a text or a step.
    pub(crate) fn verify(
        &self,
        alloc: Global,
        text: &[u8],
        steps: &[StepNumbers],
        last: &[u8],
    ) -> Outcome
        ensures { Verifies self.now.entries text.now steps.now last.now result }
    {
        let (tag, last) = match read_pair(alloc, text, last) {
            Ok(pair) => pair,
            Err(refusal) => return refuse(&refusal, &mut []),
        };
        match judge(alloc, &self.registry, &tag, steps, last) {
            Ok(()) => deliver(ended(DONE), &[], &mut []),
            Err(fault) => deliver(trace_said(fault), &[], &mut []),
        }
    }

    /// Tells whether a newer registry upgrades this one, or which condition fails and the record at fault.
    pub(crate) fn upgrade_check(&self, alloc: Global, newer: &Opened) -> Outcome
        ensures { ChecksUpgrade self.now.entries newer.now.entries result }
    {
        match self.registry.upgrade_check(alloc, &newer.registry) {
            Ok(()) => deliver(ended(DONE), &[], &mut []),
            Err(fault) => deliver(upgrade_said(fault), &[], &mut []),
        }
    }
}

/// Checks, when it is compiled, that threads may share a type and hand its values to one another.
fn shareable<T: Send + Sync>() {}

/// Threads may share what a handle holds: the handles of a registry share it. Nobody calls this; it only has to
/// compile.
pub(crate) fn opened_is_shareable() {
    shareable::<Opened>();
}
