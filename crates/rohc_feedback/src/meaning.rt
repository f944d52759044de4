//! The meaning of a feedback element.

/// The kind of feedback: the word of an element.
#[derive(Clone, Copy, PartialEq, Eq)]
pub enum Word {
    /// ACK, FEEDBACK-2 of Acktype 0: a packet updated the context.
    Ack,
    /// NACK, FEEDBACK-2 of Acktype 1: the dynamic part of the context is lost.
    Nack,
    /// STATIC-NACK, FEEDBACK-2 of Acktype 2: the static part of the context is lost.
    StaticNack,
    /// FEEDBACK-1 with octet 00: a context of profile 0x0000 was made or renewed (RFC 3095 5.10.4).
    Plain,
}

/// The meaning of a feedback element.
#[derive(Clone, Copy, PartialEq, Eq)]
pub struct Reading {
    /// The CID.
    pub cid: u16,
    /// The kind of feedback for that context.
    pub word: Word,
    /// The low 12 bits of the sequence number, if the feedback carries one.
    pub sn: Option<u16>,
}
