//! What a run has read, and what is said of its fault from that.

ghost use Rattle.std.specs.Prelude.{◌≡◌, IfOk, OnOk};

use crate::notes::{in_form, turn_notes};
use crate::said::Note;
use crate::unusable::{Unusable, plain_text};
use fs_app_error_messages::{
    Located, explain_all, explain_all_of_test, explain_fences, explain_json, explain_unread,
    locate, locate_fences, locate_json, locate_test,
};
use fs_app_io::{INPUT_LIMIT, Missing, Source, read_file, read_input};
use fs_app_plain::{Forms, Plain};
use fs_kinds::Fault;
use std::alloc::{AllocError, Global};
use std::rt::Files;

/// A file, or standard input: its name as it was given, and its bytes.
#[derive(Drop)]
pub struct Paper<'a> {
    pub name: &'a str,
    pub bytes: Vec<u8>,
}

/// What a run goes by. A file that it wasn't given, or hasn't read yet, has no name.
#[derive(Drop)]
pub struct Papers<'a> {
    pub test: Paper<'a>,
    pub prices: Paper<'a>,
    /// The witness or the certificate.
    pub evidence: Paper<'a>,
    /// The FENCE words.
    pub fences: &'a [String],
    /// Which forms of a test are read beside the reader's own.
    pub forms: Forms,
    /// How many inferences each hunt may make.
    pub inferences: usize,
    /// Whether accesses of a word stand in the test for those of 64 bits.
    pub is_wide: bool,
    /// Whether mnemonics of the test are hidden, as `Plain` says.
    pub is_hidden: bool,
    /// Whether the test's condition has what its executions must meet, as `Plain` says.
    pub is_guarded: bool,
    /// The file of which the test is made, where that isn't in the reader's form.
    pub file: Option<Vec<u8>>,
    /// Lines on loops of the tests that were read, of which one turn may not be as good as several.
    pub notes: String,
    /// The name of the file that wasn't read, and why.
    unread: Option<(&'a str, Unusable)>,
}

impl<'a> Papers<'a> {
    /// Nothing was read yet.
    pub fn new(alloc: Global, forms: Forms, inferences: usize) -> Self {
        Papers {
            test: no_paper(alloc),
            prices: no_paper(alloc),
            evidence: no_paper(alloc),
            fences: &[],
            forms,
            inferences,
            is_wide: false,
            is_hidden: false,
            is_guarded: false,
            file: None,
            notes: String::new(alloc),
            unread: None,
        }
    }

    /// Reads the test, from standard input where it is called so.
    pub fn read_test<R: Files + Input + AllocGlobal>(
        &mut self,
        rt: &R,
        name: &'a str,
    ) -> Result<(), Fault>
        ensures name { OnOk result (self.new.test.name.now ≡ name.now) }
        ensures kept { (self.new.prices ≡ self.old.prices) × (self.new.evidence ≡ self.old.evidence)
            × (self.new.fences ≡ self.old.fences) }
    {
        let text = plain_text(rt.alloc(), read_input(rt, name), self.forms);
        self.test = self.plain_paper(rt.alloc(), name, text)?;
        Ok(())
    }

    /// Reads the test that a FILE word names.
    pub fn read_source<R: Files + Input + AllocGlobal>(
        &mut self,
        rt: &R,
        source: &'a Source,
    ) -> Result<(), Fault> {
        let text = plain_text(rt.alloc(), source.read(rt), self.forms);
        self.test = self.plain_paper(rt.alloc(), source.name.as_str(), text)?;
        Ok(())
    }

    /// Reads the prices.
    pub fn read_prices<R: Files + AllocGlobal>(
        &mut self,
        rt: &R,
        name: &'a str,
    ) -> Result<(), Fault>
        ensures name { OnOk result (self.new.prices.name.now ≡ name.now) }
        ensures kept { (self.new.test ≡ self.old.test) × (self.new.evidence ≡ self.old.evidence)
            × (self.new.fences ≡ self.old.fences) }
    {
        self.prices = self.paper(name, read_file(rt, name, INPUT_LIMIT))?;
        Ok(())
    }

    /// Reads the witness or the certificate, which may have so many bytes.
    pub fn read_evidence<R: Files + AllocGlobal>(
        &mut self,
        rt: &R,
        name: &'a str,
        limit: usize,
    ) -> Result<(), Fault>
        ensures name { OnOk result (self.new.evidence.name.now ≡ name.now) }
        ensures kept { (self.new.test ≡ self.old.test) × (self.new.prices ≡ self.old.prices)
            × (self.new.fences ≡ self.old.fences) }
    {
        self.evidence = self.paper(name, read_file(rt, name, limit))?;
        Ok(())
    }

    /// The paper of this test; or the fault that there is none, and why is kept.
    fn plain_paper(
        &mut self,
        alloc: Global,
        name: &'a str,
        file: Result<Plain, Unusable>,
    ) -> Result<Paper<'a>, Fault>
        ensures name { IfOk result (λ paper. paper.name.now ≡ name.now) }
        ensures kept { (self.new.test ≡ self.old.test) × (self.new.prices ≡ self.old.prices)
            × (self.new.evidence ≡ self.old.evidence) × (self.new.fences ≡ self.old.fences) }
    {
        match file {
            Ok(plain) => {
                let notes = turn_notes(alloc, name, &plain.turns)?;
                self.notes.push_str(notes.as_str())?;
                self.is_wide = plain.is_wide;
                self.is_hidden = plain.is_hidden;
                self.is_guarded = plain.is_guarded;
                self.file = plain.file;
                Ok(Paper {
                    name,
                    bytes: plain.text,
                })
            }
            Err(why) => {
                self.unread = Some((name, why));
                Err(why.fault())
            }
        }
    }

    /// The paper of these bytes; or the fault that there are none, and why is kept.
    fn paper(&mut self, name: &'a str, file: Result<Vec<u8>, Missing>) -> Result<Paper<'a>, Fault>
        ensures name { IfOk result (λ paper. paper.name.now ≡ name.now) }
        ensures kept { (self.new.test ≡ self.old.test) × (self.new.prices ≡ self.old.prices)
            × (self.new.evidence ≡ self.old.evidence) × (self.new.fences ≡ self.old.fences) }
    {
        match file {
            Ok(bytes) => Ok(Paper { name, bytes }),
            Err(why) => {
                self.unread = Some((name, Unusable::Missing(why)));
                Err(why.fault())
            }
        }
    }

    /// The prices, where some were read.
    fn offered(&self) -> Option<&[u8]> {
        if self.prices.name.is_empty() {
            None
        } else {
            Some(&self.prices.bytes)
        }
    }

    /// The message of the fault that ended the run, and those of further faults of the test. None where there is no
    /// more to say than its line, or no memory for it.
    pub fn message(&self, alloc: Global, fault: Fault) -> Option<String> {
        let message = self.explained(alloc, fault).unwrap_or(None)?;
        in_form(alloc, message, self.is_wide, self.is_hidden).ok()
    }

    /// The file that wasn't read, and why, where the run ended with this fault for it.
    fn unread_for(&self, fault: Fault) -> Option<(&'a str, Unusable)> {
        let (name, why) = self.unread?;
        if fault != Fault::Memory && why.fault() == fault {
            Some((name, why))
        } else {
            None
        }
    }

    fn explained(&self, alloc: Global, fault: Fault) -> Result<Option<String>, AllocError> {
        if let Some((name, why)) = self.unread_for(fault) {
            return Ok(Some(unread_line(alloc, name, why)?));
        }
        match fault {
            Fault::BadPrices | Fault::NoTop => explained_json(alloc, &self.prices, fault),
            Fault::BadWitness | Fault::BadCertificate => explained_json(
                alloc,
                &self.evidence,
                fault,
            ),
            Fault::BadFence => {
                let text = explain_fences(alloc, self.fences, &self.test.bytes, self.offered())?;
                Ok(Some(text))
            }
            Fault::Memory
            | Fault::ReadFault
            | Fault::WriteFault
            | Fault::Unmatched
            | Fault::StrangePass => Ok(None),
            _ => Ok(Some(explain_all(alloc, self.test.name, &self.test.bytes, fault)?)),
        }
    }
}

/// What the message of a fault says, and of which file.
#[derive(Drop)]
pub struct Noted<'a> {
    pub file: &'a str,
    pub note: Note,
}

impl<'a> Papers<'a> {
    /// What the message of the fault that ended the run says, for those who read JSON. None where it has no message. The
    /// error is want of memory.
    pub fn noted(&self, alloc: Global, fault: Fault) -> Result<Option<Noted<'a>>, AllocError> {
        if let Some((file, why)) = self.unread_for(fault) {
            let note = note_of_unusable(alloc, why)?;
            return Ok(Some(Noted { file, note }));
        }
        match fault {
            Fault::BadPrices | Fault::NoTop => noted_json(alloc, &self.prices, fault),
            Fault::BadWitness | Fault::BadCertificate => noted_json(alloc, &self.evidence, fault),
            Fault::BadFence => {
                let found = locate_fences(alloc, self.fences, &self.test.bytes)?;
                Ok(Some(self.noted_test(note_of(found))))
            }
            Fault::Syntax { .. } => Ok(Some(self.noted_test(form_note(alloc, &self.test.bytes)?))),
            Fault::Memory
            | Fault::ReadFault
            | Fault::WriteFault
            | Fault::Unmatched
            | Fault::StrangePass => Ok(None),
            _ => {
                let found = locate(alloc, &self.test.bytes, fault)?;
                Ok(Some(self.noted_test(note_of(found))))
            }
        }
    }

    fn noted_test(&self, note: Note) -> Noted<'a> {
        Noted {
            file: self.test.name,
            note,
        }
    }
}

/// The note of a fault of the form. Where the test has none, the fault is that of an item of `locations`, which is refused
/// beside the reader of tests.
fn form_note(alloc: Global, bytes: &[u8]) -> Result<Note, AllocError> {
    match locate_test(alloc, bytes)? {
        Some(found) => Ok(note_of(found)),
        None => placeless(
            alloc,
            "an item of `locations` has another form, or names what the test lacks",
        ),
    }
}

fn placeless(alloc: Global, message: &str) -> Result<Note, AllocError> {
    Ok(Note {
        line: None,
        column: None,
        message: String::from_str(alloc, message)?,
    })
}

fn noted_json<'a>(
    alloc: Global,
    paper: &Paper<'a>,
    fault: Fault,
) -> Result<Option<Noted<'a>>, AllocError> {
    let note = note_of(locate_json(alloc, &paper.bytes, fault)?);
    Ok(Some(Noted {
        file: paper.name,
        note,
    }))
}

fn no_paper<'a>(alloc: Global) -> Paper<'a> {
    Paper {
        name: "",
        bytes: Vec::new(alloc),
    }
}

fn explained_json(
    alloc: Global,
    paper: &Paper<'_>,
    fault: Fault,
) -> Result<Option<String>, AllocError> {
    Ok(Some(explain_json(alloc, paper.name, &paper.bytes, fault)?))
}

/// The line that says why the file wasn't read.
fn unread_line(alloc: Global, name: &str, why: Unusable) -> Result<String, AllocError> {
    let why = format!(in alloc; "{why}")?;
    explain_unread(alloc, name, why.as_str())
}

/// The messages of a file beside others that isn't a test, or wasn't read; or the lines on its loops. None where there
/// is nothing to say, or no memory for it. A file that is a test is read once more where it is judged.
pub fn message_of_file(
    alloc: Global,
    name: &str,
    file: &Result<Plain, Unusable>,
) -> Option<String> {
    match file {
        Ok(plain) => message_of_plain(alloc, name, plain),
        Err(why) if why.fault() == Fault::Memory => None,
        Err(why) => unread_line(alloc, name, *why).ok(),
    }
}

fn message_of_plain(alloc: Global, name: &str, plain: &Plain) -> Option<String> {
    if !plain.turns.is_empty() {
        return turn_notes(alloc, name, &plain.turns).ok();
    }
    let message = explain_all_of_test(alloc, name, &plain.text).unwrap_or(None)?;
    in_form(alloc, message, plain.is_wide, plain.is_hidden).ok()
}

/// What that message says, for those who read JSON. The error is want of memory. The cost is that of `locate_test` of
/// fs_app_error_messages.
pub fn note_of_file(
    alloc: Global,
    file: &Result<Vec<u8>, Unusable>,
) -> Result<Option<Note>, AllocError> {
    match file {
        Ok(bytes) => match locate_test(alloc, bytes)? {
            Some(found) => Ok(Some(note_of(found))),
            None => Ok(None),
        },
        Err(why) => Ok(Some(note_of_unusable(alloc, *why)?)),
    }
}

/// The note; or where there is none that of the fault, which is none of the form of a test. The error is want of memory.
pub fn note_or(
    alloc: Global,
    note: Option<Note>,
    fault: Option<Fault>,
) -> Result<Option<Note>, AllocError> {
    if note.is_some() {
        return Ok(note);
    }
    match fault {
        Some(fault) => Ok(Some(note_of(locate(alloc, &[], fault)?))),
        None => Ok(None),
    }
}

fn note_of(found: Located) -> Note {
    let Located { place, hint } = found;
    Note {
        line: place.map(|place| place.line),
        column: place.map(|place| place.column),
        message: hint,
    }
}

fn note_of_unusable(alloc: Global, why: Unusable) -> Result<Note, AllocError> {
    Ok(Note {
        line: why.line(),
        column: None,
        message: format!(in alloc; "{why}")?,
    })
}
