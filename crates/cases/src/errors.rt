// What is wrong with a stream, and what stops the program.
use std::io;
use thiserror::Error;

// What is wrong with a stream. Its text is what the program prints of it, behind `error: `.
#[derive(Debug, Drop, Error)]
pub enum StreamError {
    #[error("the stream ends inside a head")]
    HeadCutOff,
    #[error("byte 73 of a head is no newline")]
    HeadWithoutNewline,
    #[error("a head holds what is no number")]
    HeadWithoutNumber,
    #[error("a body is over the limit")]
    BodyOverLimit,
    #[error("the stream ends inside a body")]
    BodyCutOff,
    #[error("a lent buffer is over the limit")]
    LentOverLimit,
    #[error("a letter is none of B, R, L, H, F, A, T, Q, M")]
    UnknownLetter,
    #[error("a bucket of 0 bytes")]
    EmptyBucket,
    #[error("a bucket's letter is none of B, X")]
    UnknownMark,
    #[error("a body of F is not 12 bytes")]
    LengthOfSize,
    #[error("a body of F is no number")]
    SizeWithoutNumber,
    #[error("a body of A or T is under 36 bytes")]
    ChangeTooShort,
    #[error("a number of lines is no number")]
    LinesWithoutNumber,
    #[error("the length of a list's buffer is no number")]
    ListLengthWithoutNumber,
    #[error("the length of a given line is no number")]
    GivenLengthWithoutNumber,
    #[error("a body of A or T ends inside its given line")]
    GivenCutOff,
    #[error("a list's buffer has another length")]
    OtherListLength,
}

// What stops the program before the stream's end: a wrong stream, or an input or output that fails.
#[derive(Debug, Drop, Error)]
pub enum Stopped {
    #[error(transparent)]
    Stream(#[from] StreamError),
    #[error(transparent)]
    Io(#[from] io::Error),
}
