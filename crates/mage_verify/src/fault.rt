use thiserror::Error;

/// Why a memory program isn't verified. The directives of each worker are numbered from 0.
#[derive(Clone, Copy, Debug, PartialEq, Eq, Error)]
pub enum VerifyFault {
    /// A frame, a slot or a store page isn't there, or a value passes the end of its page.
    #[error("worker {worker} directive {directive} names what is not there")]
    Range { worker: u16, directive: u32 },
    /// A slot in flight is issued, or a slot is finished that doesn't read, or write. At the count of directives: a
    /// slot is in flight after the last of them.
    #[error("worker {worker} directive {directive} finds a slot in another state")]
    SlotState { worker: u16, directive: u32 },
    /// A store page is issued that a slot in flight names, or is read though no finished write stored it.
    #[error("worker {worker} directive {directive} finds a page in another state")]
    PageState { worker: u16, directive: u32 },
    /// A value is received in another width than it was sent.
    #[error("worker {worker} directive {directive} receives another width")]
    Width { worker: u16, directive: u32 },
    /// A worker waits for another one for ever.
    #[error("worker {worker} directive {directive} waits for ever")]
    Links { worker: u16, directive: u32 },
    /// There was no memory for the check.
    #[error("no memory")]
    Memory,
}
