//! Communications, as a run has them.

use crate::message::Message;

/// One end of a communication.
#[derive(Clone, Copy, Debug, PartialEq, Eq)]
pub enum End {
    /// The process with this number.
    Process(u32),
    /// The keyboard.
    Keyboard,
    /// The screen.
    Screen,
    /// The error channel's reader.
    Error,
}

/// A message that was output and input.
#[derive(Debug, Drop)]
pub struct Communication {
    /// The channel's number.
    pub chan: u32,
    /// Who output it.
    pub sender: End,
    /// Who input it.
    pub receiver: End,
    /// The message.
    pub message: Message,
}
