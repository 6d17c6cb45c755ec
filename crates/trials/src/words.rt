// What the days say in one word: a job, an end, a file.
use host::{Ended, Job, Stamped};

pub(crate) fn job<'a>(
    edge: usize,
    question: &'a [u8],
    reads: &'a [usize],
    outputs: &'a [usize],
) -> Job<'a> {
    Job {
        edge,
        question,
        reads,
        outputs,
    }
}

pub(crate) fn made(edge: usize) -> Option<Ended> {
    Some(Ended { edge, good: true })
}

pub(crate) fn failed(edge: usize) -> Option<Ended> {
    Some(Ended { edge, good: false })
}

pub(crate) fn stamped(stamp: u32, mark: u32) -> Option<Stamped> {
    Some(Stamped { stamp, mark })
}
