// Files that the program reads.
use crate::failure::Failure;
use crate::report::Report;
use std::{fs, io};
use thiserror::Error;

// Files beyond this are not read: the loader takes none of them anyhow.
const LARGEST: u64 = 1 << 28;

// Why a file's bytes could not be had.
#[derive(Debug, Drop, Error)]
enum ReadError {
    #[error("too large to read")]
    TooLarge,
    #[error(transparent)]
    Io(#[from] io::Error),
}

// Reads a file, unless it is so large that reading it is pointless.
fn read_some(rt: &HostRuntime, name: &str) -> Result<Vec<u8>, ReadError> {
    if fs::metadata(rt, name)?.len() > LARGEST {
        return Err(ReadError::TooLarge);
    }
    Ok(fs::read(rt, name)?)
}

impl Report<'_, HostRuntime> {
    // The file's bytes; else a message on standard error says why there are none.
    pub(crate) fn read(&self) -> Result<Vec<u8>, Failure> {
        let Report { rt, name } = self;
        read_some(rt, name).or_else(|error| {
            eprintln!(rt; "inspect: {name}: {error}")?;
            Err(Failure::Unreadable)
        })
    }
}
