//! What a board shows.
ghost use Rattle.std.specs.Prelude.{◌≡◌, ◌↔◌, IfOk, IsTrue, option_copied};
ghost use Rattle.occ_board.specs.Entries.{AreAlike, entry};

use occ_term::{End, Message, Name, Text};
use std::alloc::{AllocError, Global};
use std::marker::Model;

/// A communication as it is shown: its number, its channel with the name, its ends, the tag's name and the message.
/// Contracts see the entry of the trace. Copies share the letters of the names, and a message of one value takes no block
/// of memory.
pub struct Shown {
    number: u64,
    channel: u32,
    name: Name,
    sender: End,
    receiver: End,
    tag: Option<Text>,
    message: Message,
}

impl Drop for Shown {
    fn drop(self) {
        let Shown {
            number: _,
            channel: _,
            name: _,
            sender: _,
            receiver: _,
            tag: _,
            message: _,
        } = self;
    }
}

impl Model for Shown {
    ghost use Rattle.occ_term.specs.Runs.{Entry};
    ghost use Rattle.occ_board.specs.Entries.{entry};

    ghost Value = { Entry };

    ghost view = { λ s. entry s.number s.channel s.name s.sender s.receiver s.tag s.message };
}

impl Shown {
    /// The communication with this number on this channel, which has this name, between these ends.
    pub fn new(
        number: u64,
        channel: u32,
        name: Name,
        sender: End,
        receiver: End,
        tag: Option<Text>,
        message: Message,
    ) -> Shown
        ensures { result ≡ entry number channel name sender receiver tag message }
    {
        Shown {
            number,
            channel,
            name,
            sender,
            receiver,
            tag,
            message,
        }
    }

    /// Its number in the trace, from 1.
    pub fn number(&self) -> u64
        ensures { result ≡ self.now.number }
    {
        self.number
    }

    /// The channel's number.
    pub fn channel(&self) -> u32
        ensures { result ≡ self.now.channel }
    {
        self.channel
    }

    /// The channel's name.
    pub fn name(&self) -> &Name
        ensures { result.now ≡ self.now.name }
    {
        &self.name
    }

    /// Who output it.
    pub fn sender(&self) -> End
        ensures { result ≡ self.now.sender }
    {
        self.sender
    }

    /// Who input it.
    pub fn receiver(&self) -> End
        ensures { result ≡ self.now.receiver }
    {
        self.receiver
    }

    /// The name of the message's tag; none in a protocol without tags.
    pub fn tag(&self) -> Option<&Text>
        ensures { option_copied result ≡ self.now.tag }
    {
        self.tag.as_ref()
    }

    /// The message.
    pub fn message(&self) -> &Message
        ensures { result.now ≡ self.now.message }
    {
        &self.message
    }

    /// A copy. The error is a refused growth.
    pub fn copy(&self, alloc: Global) -> Result<Shown, AllocError>
        ensures { IfOk result (λ s. s ≡ self.now) }
    {
        let name = self.name.copy()?;
        let message = self.message.copy(alloc)?;
        let tag = copied(&self.tag)?;
        Ok(Shown {
            number: self.number,
            channel: self.channel,
            name,
            sender: self.sender,
            receiver: self.receiver,
            tag,
            message,
        })
    }

    /// Whether both have the same content. The error is a refused growth.
    pub fn is_same(&self, alloc: Global, other: &Shown) -> Result<bool, AllocError>
        ensures { IfOk result (λ same. IsTrue same ↔ (self.now ≡ other.now)) }
    {
        let named = self.name.is_same(alloc, &other.name)?;
        Ok(named && self.is_alike(other))
    }

    /// Whether all but the names of the channels is the same.
    fn is_alike(&self, other: &Shown) -> bool
        ensures { IsTrue result ↔ AreAlike self.now other.now }
    {
        self.number == other.number
            && self.channel == other.channel
            && is_end(self.sender, other.sender)
            && is_end(self.receiver, other.receiver)
            && are_same_tags(&self.tag, &other.tag)
            && self.message.is_same(&other.message)
    }
}

/// Whether both are the same end.
fn is_end(one: End, other: End) -> bool
    ensures { IsTrue result ↔ (one ≡ other) }
{
    match (one, other) {
        (End::Process(m), End::Process(n)) => m == n,
        (End::Keyboard, End::Keyboard) => true,
        (End::Screen, End::Screen) => true,
        (End::Error, End::Error) => true,
        _ => false,
    }
}

/// Whether both have the same letters, or there is none.
fn are_same_tags(one: &Option<Text>, other: &Option<Text>) -> bool
    ensures { IsTrue result ↔ (one.now ≡ other.now) }
{
    match (one, other) {
        (Some(text), Some(same)) => are_same_letters(text.as_slice(), same.as_slice()),
        (None, None) => true,
        _ => false,
    }
}

/// Whether both are the same letters.
fn are_same_letters(letters: &[u8], others: &[u8]) -> bool
    ensures { IsTrue result ↔ (letters.now ≡ others.now) }
{
    letters == others
}

/// A copy of a tag's name, where there is one.
fn copied(tag: &Option<Text>) -> Result<Option<Text>, AllocError>
    ensures { IfOk result (λ t. t ≡ tag.now) }
{
    match tag {
        Some(text) => Ok(Some(text.copy()?)),
        None => Ok(None),
    }
}

/// A list that was published, and whether it is the board's last. No value of it is made: a clause reads the array as a list
/// of any length.
pub struct Edition {
    /// The list.
    pub entries: [Shown; 0],
    /// Whether none is published after it.
    pub last: bool,
}
