// What failed, and why.
use std::io;
use std::io::ErrorKind;

#[derive(Drop)]
pub(crate) struct Failure<'a> {
    pub what: &'a str,
    pub error: io::Error,
}

impl<'a> Failure<'a> {
    pub(crate) fn of(what: &'a str, kind: ErrorKind) -> Self {
        Self {
            what,
            error: io::Error::from(kind),
        }
    }
}
