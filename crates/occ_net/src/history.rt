//! The messages of a channel.
ghost use Rattle.std.specs.Prelude.{◌≡◌, ◌↔◌, ◌∷◌, [], IfNone, IfSome, IsTrue, None, Some, length, slice_get};
ghost use Rattle.std.specs.Iterator.{YieldsFirst, item_count};
ghost use Rattle.occ_net.specs.Histories.{messages_in};

use occ_net_tables::{Entries, MessageView};
use std::marker::Model;

/// The messages of a channel, in order: a view of the trace.
#[derive(Drop)]
pub struct History<'a> {
    entries: Entries<'a>,
    chan: u32,
}

impl<'a> Model for History<'a> {
    ghost use Rattle.std.specs.Prelude.{List};
    ghost use Rattle.occ_term.specs.declared.message.Message.{Message};
    ghost use Rattle.occ_net.specs.Histories.{messages_in};

    ghost Value = { List Message };

    ghost view = { λ h. messages_in h.entries h.chan };
}

/// How many messages these communications have on the channel.
fn count_on(entries: &Entries<'_>, chan: u32) -> usize
    ensures { result ≡ length (messages_in entries.now chan) }
{
    let mut count = 0;
    for communication in entries.copy() {
        if communication.chan() == chan {
            count += 1;
        }
    }
    count
}

/// The one with this number among them.
fn message_on<'a>(entries: &Entries<'a>, chan: u32, number: usize) -> Option<MessageView<'a>>
    ensures some { IfSome result (λ m. slice_get (messages_in entries.now chan) number ≡ Some m) }
    ensures none { IfNone result (slice_get (messages_in entries.now chan) number ≡ None) }
{
    let mut left = number;
    for communication in entries.copy() {
        if communication.chan() == chan {
            if left == 0 {
                return Some(communication.message());
            }
            left -= 1;
        }
    }
    None
}

/// The first of them; the communications behind it are left.
fn first_on<'a>(entries: &mut Entries<'a>, chan: u32) -> Option<MessageView<'a>>
    ensures some { IfSome result
        (λ m. messages_in entries.old chan ≡ m ∷ messages_in entries.new chan) }
    ensures none { IfNone result
        ((messages_in entries.old chan ≡ []) × (messages_in entries.new chan ≡ [])) }
{
    while let Some(communication) = entries.next() {
        if communication.chan() == chan {
            return Some(communication.message());
        }
    }
    None
}

impl<'a> History<'a> {
    /// The messages that these communications have on the channel.
    pub(crate) fn new(entries: Entries<'a>, chan: u32) -> History<'a>
        ensures { result ≡ messages_in entries.entry chan }
    {
        History { entries, chan }
    }

    /// How many there are.
    pub fn len(&self) -> usize
        ensures { result ≡ length self.now }
    {
        count_on(&self.entries, self.chan)
    }

    /// Whether there is none.
    pub fn is_empty(&self) -> bool
        ensures { IsTrue result ↔ (self.now ≡ []) }
    {
        first_on(&mut self.entries.copy(), self.chan).is_none()
    }

    /// The message with this number, from 0.
    pub fn get(&self, number: usize) -> Option<MessageView<'a>>
        ensures some { IfSome result (λ m. slice_get self.now number ≡ Some m) }
        ensures none { IfNone result (slice_get self.now number ≡ None) }
    {
        message_on(&self.entries, self.chan, number)
    }
}

/// The messages one after another, each of which is then no longer among them.
impl<'a> Iterator for History<'a> {
    type Item = MessageView<'a>;

    ghost next_gives = { YieldsFirst (λ messages. messages) };

    ghost remaining = { item_count (λ messages. messages) };

    fn next(&mut self) -> Option<MessageView<'a>> {
        first_on(&mut self.entries, self.chan)
    }
}
