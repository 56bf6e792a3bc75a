//! What fails at the outside.

use thiserror::Error;

/// A file could not be opened.
#[derive(Debug, Drop, Error)]
#[error("OpenFailed")]
pub struct OpenFailed;

/// The open file could not be read.
#[derive(Debug, Drop, Error)]
#[error("ReadFailed")]
pub struct ReadFailed;

/// The sink took nothing.
#[derive(Debug, Drop, Error)]
#[error("WriteFailed")]
pub struct WriteFailed;
