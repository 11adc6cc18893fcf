//! The record of a job.
pub(crate) mod read;
mod row;
mod split;

/// The body of a job record, in its parts.
#[derive(Clone, Copy)]
pub(crate) struct JobBody<'a> {
    pub(crate) zone: u8,
    pub(crate) needs: &'a [u8],
    pub(crate) adds: &'a [u8],
    pub(crate) deletes: &'a [u8],
}
