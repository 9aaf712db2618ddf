// Why a line of the table fails.
use item::Refusal;
use std::alloc::AllocError;
use std::num::ParseIntError;
use thiserror::Error;

#[derive(Debug, Drop, Error)]
pub enum Failure {
    #[error("not a case")]
    NotACase,
    #[error("there is no such lane")]
    NoSuchLane,
    #[error("something else came out")]
    SomethingElse,
    #[error("a step, a first or a take did not do what it must")]
    OutOfOrder,
    #[error(transparent)]
    Memory(#[from(alloc)] AllocError),
}

/// A word that should be a number and is none.
impl From<ParseIntError> for Failure {
    fn from(_error: ParseIntError) -> Failure {
        Failure::NotACase
    }
}

/// A step that is refused, where it should be taken.
impl From<Refusal> for Failure {
    fn from(_refusal: Refusal) -> Failure {
        Failure::OutOfOrder
    }
}
