//! Why a call failed: a failed read, a failed write.

/// A source could not give bytes.
#[derive(Clone, Copy, Debug, PartialEq, Eq)]
pub struct ReadFailed;

/// A sink could not take bytes. It took none of the piece that it was given.
#[derive(Clone, Copy, Debug, PartialEq, Eq)]
pub struct WriteFailed;
