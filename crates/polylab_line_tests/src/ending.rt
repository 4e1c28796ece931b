//! How jobs end: with which status, what is written, and what is told.

use byte_streams::Watched;
use lab_pool::Gate;
use polylab_line::{LineFault, Request, Threading, do_alone, do_together, tell_no_job};
use std::alloc::Global;
use std::io::Read;
use std::sync::Wait;
use std::thread::Threads;

/// How a job ended: its status, what it wrote, and what it told.
#[derive(Drop)]
pub struct Ending {
    pub status: u8,
    pub written: Vec<u8>,
    pub told: Vec<u8>,
}

impl Ending {
    /// Whether it is this one.
    pub fn is_so(&self, status: u8, written: &[u8], told: &[u8]) -> bool {
        self.status == status && self.written.as_slice() == written && self.told.as_slice() == told
    }
}

/// How what was asked for, or refused, ends under a gate on what a reader reads.
pub fn ending_under<R: Threads + Wait + Sync, G: Gate, I: Read + Drop>(
    rt: &R,
    alloc: Global,
    gate: &G,
    request: Result<Request, LineFault>,
    reader: I,
) -> Ending {
    let mut written = Vec::new(alloc);
    let mut told = Vec::new(alloc);
    let reader = &mut Watched::reader(reader);
    let writer = &mut Watched::writer(&mut written);
    let faults = &mut Watched::writer(&mut told);
    let status = match request {
        Err(fault) => tell_no_job(&fault, writer, faults),
        Ok(asked) if asked.is_alone() => do_alone(alloc, asked, reader, writer, faults),
        Ok(asked) => {
            let threading = Threading { rt, gate };
            do_together(&threading, alloc, asked, reader, writer, faults)
        }
    };
    Ending {
        status,
        written,
        told,
    }
}
