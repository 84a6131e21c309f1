use thiserror::Error;

/// A call of the outside failed, and was counted.
#[derive(Clone, Copy, Debug, Error, PartialEq, Eq)]
#[error("failed")]
pub struct Failed;
