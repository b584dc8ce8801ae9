//! Journals in memory, read from files.
ghost use Rattle.std.specs.Prelude.{◌≡◌, ◌≤◌, IfErr, IfOk, length};
ghost use Rattle.mk_splice.specs.declared.journals.JournalError.TheVariants.{Memory as NoMemory};
ghost use Rattle.mk_splice.specs.Journals.{belongs, journal, meaning, read_front as front_read, read_journal as journal_read};
ghost use Rattle.mk_splice.specs.JournalViews.{meaning_of, SaysStop, SaysText};
ghost use Rattle.mk_splice.specs.inner.Readings.{Gives, IsFront};

use crate::digests::digest_of;
use crate::reading::{
    Stop, Version, read_digest, read_mark, read_number, read_steps, read_text, read_version,
};
use crate::splicing::Splice;
use std::alloc::{AllocError, Global};
use thiserror::Error;

/// A journal: the digest of its text, if it names one, the steps, and how many of them are done. A place that 64 bits don't
/// hold is the greatest that they hold, which is beyond every text.
#[derive(Debug, Drop)]
pub struct Journal {
    pub digest: Option<[u8; 64]>,
    pub steps: Vec<Vec<Splice>>,
    pub done: usize,
}

/// Why a file isn't read as a journal.
#[derive(Clone, Copy, Debug, PartialEq, Eq, Error)]
pub enum JournalError {
    /// It isn't one. This is the length of its longest prefix that some journal begins with.
    #[error("the journal is invalid at offset {offset}")]
    Syntax { offset: usize },
    /// Memory ran out.
    #[error("out of memory")]
    Memory,
}

impl From<AllocError> for JournalError {
    ghost from_gives = { λ _ e. e ≡ NoMemory };

    fn from(_error: AllocError) -> JournalError {
        JournalError::Memory
    }
}

impl Journal {
    /// The journal that a file is, of version 1 or 2.
    pub fn parse(alloc: Global, file: &[u8]) -> Result<Journal, JournalError>
        ensures ok { IfOk result (λ j. SaysText j (journal file.now)) }
        ensures within { IfOk result (λ j. j.done ≤ length j.steps.items) }
        ensures err { IfErr result (λ e. SaysStop e (journal file.now)) }
    {
        match read_journal(alloc, file) {
            Ok((journal, rest)) => {
                if rest.is_empty() {
                    Ok(journal)
                } else {
                    Err(JournalError::Syntax {
                        offset: file.len() - rest.len(),
                    })
                }
            }
            Err(Stop::At { left }) => Err(JournalError::Syntax {
                offset: file.len() - left,
            }),
            Err(Stop::Memory) => Err(JournalError::Memory),
        }
    }

    /// Whether a text is the one that the journal's digest names, if it names one.
    pub fn is_of(&self, text: &[u8]) -> bool
        ensures { result ≡ belongs self.now.digest text.now }
    {
        match &self.digest {
            None => true,
            Some(digest) => *digest == digest_of(text),
        }
    }
}

// What stands before a journal's steps.
#[derive(Clone, Copy)]
struct Front {
    version: Version,
    digest: Option<[u8; 64]>,
    done: usize,
    undone: usize,
}

// What stands before the steps.
fn read_front(file: &[u8]) -> Result<(Front, &[u8]), Stop>
    ensures { Gives IsFront result (front_read file.now) }
{
    let rest = read_text(file, b"mimejournal ")?;
    let (version, rest) = read_version(rest)?;
    let rest = read_mark(rest, b'\n')?;
    let (digest, rest) = read_digest(version, rest)?;
    let (done, rest) = read_number(rest, b' ')?;
    let (undone, rest) = read_number(rest, b'\n')?;
    Ok((
        Front {
            version,
            digest,
            done,
            undone,
        },
        rest,
    ))
}

// A journal and the bytes after it.
fn read_journal(alloc: Global, file: &[u8]) -> Result<(Journal, &[u8]), Stop>
    ensures told { Gives (λ text j. meaning_of j ≡ meaning text) result (journal_read file.now) }
    ensures within { IfOk result (λ p. p.0.done ≤ length p.0.steps.items) }
{
    let (front, rest) = read_front(file)?;
    let count = front.done.saturating_add(front.undone);
    let (steps, rest) = read_steps(alloc, front.version, rest, count)?;
    Ok((
        Journal {
            digest: front.digest,
            steps,
            done: front.done,
        },
        rest,
    ))
}
