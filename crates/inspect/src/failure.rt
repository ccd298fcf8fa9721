// Why the program ends with status 1.
use crate::plan::LARGEST_EXTENT;
use std::alloc::AllocError;
use std::{fmt, io};
use thiserror::Error;

#[derive(Drop, Error)]
pub(crate) enum Failure {
    #[error("no command")]
    NoCommand,
    #[error("no such command")]
    UnknownCommand,
    // The command of this name got no file.
    #[error("{0}: no file is named")]
    NoFile(&'static str),
    #[error("too few words: see inspect --help")]
    TooFewWords,
    #[error("too many words: see inspect --help")]
    TooManyWords,
    #[error("a word is no number: decimal, or hexadecimal after 0x")]
    NoNumber,
    #[error("bytes: at most {most} bytes at a time", most = LARGEST_EXTENT)]
    TooManyBytes,
    #[error("the file could not be read")]
    Unreadable,
    // One of several files.
    #[error("a file could not be read")]
    SomeUnreadable,
    // The arguments could not be had, or a write failed.
    #[error(transparent)]
    Io(#[from] io::Error),
    #[error(transparent)]
    Memory(#[from] AllocError),
}

// What `main` prints behind 'Error: ': a text in quotes, or the error as it is. The derive would print the case's name, not the text.
impl fmt::Debug for Failure {
    fn fmt<W: fmt::Write>(&self, f: &mut fmt::Formatter<W>) -> fmt::Result {
        match self {
            Failure::Io(error) => write!(f, "{error:?}"),
            Failure::Memory(error) => write!(f, "{error:?}"),
            failure => write!(f, "\"{failure}\""),
        }
    }
}
