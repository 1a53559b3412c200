//! A caller that answers late, and in any order.

use crate::host::{Bench, clear_sectors, put_sectors, sectors_of};
use crate::memory::{copied, push};
use block_command::AnswerError;
use block_engine::{Answer, Failure, Range, Request, What};
use std::alloc::Global;
use std::process::Abort;

/// A request that was not answered yet.
#[derive(Drop)]
pub struct Pending {
    /// The request.
    pub request: Request,
    /// The bytes of a store, as they were when it was asked for.
    pub bytes: Vec<u8>,
}

/// The bytes of a store.
fn bytes_of(rt: &impl Abort, alloc: Global, bench: &Bench, request: &Request) -> Vec<u8> {
    let What::Store { count, .. } = request.what else {
        return Vec::new(alloc);
    };
    let place = request.place.expect(rt, "a place");
    let bytes = bench.disk.stored(place, request.number);
    let bytes = bytes.expect(rt, "a store");
    assert!(rt; bytes.len() == count as usize * 512);
    copied(rt, alloc, bytes)
}

impl Bench {
    /// Starts all that may start, and keeps all that is asked for.
    pub fn collects(&mut self, rt: &impl Abort, alloc: Global, pending: &mut Vec<Pending>) {
        for _ in 0..64u32 {
            if let Ok(None) = self.disk.start_next() {
                break;
            }
        }
        for _ in 0..64u32 {
            let Some(request) = self.disk.next_request() else {
                return;
            };
            assert!(rt; request.number >= self.asked);
            self.asked = request.number.saturating_add(1);
            let bytes = bytes_of(rt, alloc, self, &request);
            push(rt, pending, Pending { request, bytes });
        }
    }

    /// Does what a request asks for.
    fn does(&mut self, rt: &impl Abort, alloc: Global, pending: &Pending) -> Answer {
        match pending.request.what {
            What::Load { lba, count } => {
                let bytes = sectors_of(rt, &self.medium, lba, count);
                return Answer::Loaded(copied(rt, alloc, bytes));
            }
            What::Store { lba, .. } => put_sectors(rt, &mut self.medium, lba, &pending.bytes),
            What::Flush => self.flushes = self.flushes.saturating_add(1),
            What::Discard => {
                for range in self.disk.discarded(pending.request.number).unwrap_or(&[]) {
                    let Range { lba, count } = *range;
                    clear_sectors(rt, &mut self.medium, lba, count);
                }
            }
        }
        Answer::Done
    }

    /// Does what a request asks for and answers it, or fails it. Whether the answer was taken: not where a reset or an error
    /// ended the request.
    pub fn answers_late(
        &mut self,
        rt: &impl Abort,
        alloc: Global,
        pending: Pending,
        failure: Option<Failure>,
    ) -> bool {
        let answer = match failure {
            Some(failure) => Answer::Failed(failure),
            None => self.does(rt, alloc, &pending),
        };
        match self.disk.answer(pending.request.number, answer) {
            Ok(()) => true,
            Err(error) => {
                assert!(rt; matches!(error, AnswerError::NotOut));
                false
            }
        }
    }
}
