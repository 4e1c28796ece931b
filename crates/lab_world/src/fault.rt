//! Why a worker's call is refused.

use lab_book::BookFault;
use thiserror::Error;
use x_branches::RunnerFault;

/// Why a worker's call was refused: by its runner, and then the book wasn't called, or by the book.
#[derive(Debug, Drop, Error)]
pub enum WorkerFault {
    #[error("{0}")]
    Runner(RunnerFault),
    #[error("{0}")]
    Book(BookFault),
}
