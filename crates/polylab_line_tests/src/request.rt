//! What tests ask the program for.

use polylab_engine::Job;
use polylab_line::Request;

/// A job of so many workers, by the table that a short search prefers.
pub fn shared(job: Job, workers: u32) -> Request {
    Request {
        job,
        workers,
        table: None,
        cache: None,
    }
}

/// The same of one worker.
pub fn alone(job: Job) -> Request {
    shared(job, 1)
}
