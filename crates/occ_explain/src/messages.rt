//! Messages that do not fit their channel.

use crate::class::Class;
use crate::context::{Start, parent_of, start_of};
use crate::finding::{index_of, sign_of};
use crate::mismatch::conversion;
use crate::scan::{Text, Word};
use crate::scope::{Declared, Kind, behind_sizes, declaration_of};
use crate::sentence::{Nothing, Piece, Told};
use crate::shapes::{Shape, are_alike, shape_of};
use crate::types::{
    Primitive, Typed, expression_end, operand_begin, operand_end, spelled_type, typed_at,
};
use crate::words::{bytes_at, class_at};

/// A message: the line that sends or takes it, where its first item stands, and the channel.
#[derive(Clone, Copy)]
struct Message {
    line: usize,
    at: usize,
    is_input: bool,
    channel: Declared,
}

/// The parts of messages: the line in which they stand, from one place up to another, and how many they are.
#[derive(Clone, Copy)]
struct Parts {
    line: usize,
    at: usize,
    count: usize,
}

/// The line that declares the protocol of a channel, where that has a name.
fn protocol_of(text: &Text<'_>, channel: &Declared) -> Option<usize> {
    let words = text.words_at(channel.line);
    let found = declaration_of(text, channel.line, bytes_at(words, channel.spec.of))?;
    if found.spec.kind == Kind::Protocol {
        Some(found.line)
    } else {
        None
    }
}

/// How many expressions or types stand from a place on, with a semicolon between two.
fn count_from(words: &[Word<'_>], at: usize) -> usize {
    let mut count: usize = 0;
    for i in at..words.len() {
        if i == at {
            count = count.saturating_add(1);
        }
        if words[i].class == Class::Semicolon {
            count = count.saturating_add(1);
        }
    }
    count
}

/// The place of the next item, behind the one at a place.
fn next_item(words: &[Word<'_>], at: usize) -> usize {
    for i in at..words.len() {
        if words[i].class == Class::Semicolon {
            return i.saturating_add(1);
        }
    }
    words.len()
}

/// The line below a protocol that has this tag.
fn tag_line(text: &Text<'_>, protocol: usize, tag: &[u8]) -> Option<usize> {
    let indent = text.indent_at(protocol);
    for i in protocol.saturating_add(2)..text.lines.len() {
        if text.indent_at(i) <= indent {
            return None;
        }
        if bytes_at(text.words_at(i), 0) == tag {
            return Some(i);
        }
    }
    None
}

/// The message of a line: of an output, an input, or a variant below one.
fn message_of(text: &Text<'_>, index: usize) -> Option<Message> {
    let words = text.words_at(index);
    let own = sign_of(words);
    let (line, at) = if own < words.len() {
        (index, own.saturating_add(1))
    } else if let Start::Variant = start_of(text, index) {
        (parent_of(text, index)?, 0)
    } else {
        return None;
    };
    let naming = text.words_at(line);
    let sign = sign_of(naming);
    let channel = declaration_of(text, line, bytes_at(naming, operand_begin(naming, sign)))?;
    if sign == naming.len() || channel.spec.kind != Kind::Channel {
        return None;
    }
    Some(Message {
        line: index,
        at,
        is_input: at == 0 || class_at(words, own) == Class::Question,
        channel,
    })
}

/// What is carried in the place of an item.
fn carried(text: &Text<'_>, message: &Message, parts: &Parts, at: usize) -> Piece {
    let words = text.words_at(parts.line);
    if parts.line == message.channel.line {
        return Piece::Words(parts.line, at, message.channel.spec.to);
    }
    for i in at..words.len() {
        if matches!(words[i].class, Class::Colon | Class::Semicolon) {
            return Piece::Words(parts.line, at, i);
        }
    }
    Piece::Words(parts.line, at, words.len())
}

/// How an item becomes one of the type that is wanted.
fn item_hint(
    words: &[Word<'_>],
    message: &Message,
    item: Typed,
    sizes: usize,
    to: Primitive,
) -> &'static str {
    if message.is_input {
        "input into a variable of the type that the channel carries"
    } else if sizes > 0 {
        ""
    } else if to == Primitive::Byte && class_at(words, item.from) == Class::Text {
        "send a string byte by byte, in a replicated SEQ; one letter is written 'a'"
    } else {
        conversion(words, item, to)
    }
}

/// An item of another type than its part: the first item of a message, and the first one of parts, which have so many before them.
fn item_finding(text: &Text<'_>, message: &Message, parts: &Parts, number: usize) -> Option<Told> {
    let words = text.words_at(message.line);
    let other = text.words_at(parts.line);
    let (at, part) = (message.at, parts.at);
    let wanted = spelled_type(other, part)?;
    let item = typed_at(text, message.line, at, false)?;
    let is_counted = class_at(other, operand_end(other, part)) == Class::DoubleColon;
    let has_count = class_at(words, expression_end(words, at)) == Class::DoubleColon;
    let carried = carried(text, message, parts, part);
    let is_alone = parts.count < 2;
    let place = if is_alone {
        channel_name(message)
    } else {
        Piece::Count(number.saturating_add(1))
    };
    let (wrong, hint) = if is_counted != has_count {
        (
            if is_alone {
                "`@3` carries @4"
            } else {
                "part @3 of the message is @4"
            },
            if is_counted {
                "write the count and the array: `n::a`"
            } else {
                "write no count here"
            },
        )
    } else {
        let spelled = Shape::Spelled(
            parts.line,
            part,
            behind_sizes(other, part).0.saturating_add(1),
        );
        let is_spelled = match shape_of(text, item) {
            Shape::Called => true,
            shape => are_alike(text, shape, spelled),
        };
        if item.found == wanted && is_spelled {
            return None;
        }
        (
            if is_alone {
                "`@1` is @2, but `@3` carries @4"
            } else {
                "`@1` is @2, but part @3 of the message is @4"
            },
            item_hint(words, message, item, wanted.sizes, wanted.primitive),
        )
    };
    Some(Told {
        line: message.line,
        at,
        wrong,
        hint,
        pieces: [Piece::Said(item), Piece::Typed(item), place, carried],
    })
}

/// The name of a channel, as it is declared.
fn channel_name(message: &Message) -> Piece {
    Piece::Word(message.channel.line, message.channel.at)
}

/// The items of a message against the parts of its protocol.
fn compared(text: &Text<'_>, message: &Message, parts: &Parts) -> Option<Told> {
    let items = count_from(text.words_at(message.line), message.at);
    if items != parts.count {
        let is_tagged = class_at(text.words_at(parts.line), 0) == Class::Name;
        return Some(Told {
            line: message.line,
            at: message.at,
            wrong: if is_tagged {
                "a message on `@1` has @2 behind its tag, but this line has @3"
            } else {
                "a message on `@1` has @2, but this line has @3"
            },
            hint: "all parts of a message go together, with semicolons between them",
            pieces: [
                channel_name(message),
                Piece::Counted(parts.count, "part"),
                Piece::Counted(items, "item"),
                Nothing,
            ],
        });
    }
    let (mut message, mut parts) = (*message, *parts);
    for number in 0..items {
        let found = item_finding(text, &message, &parts, number);
        if found.is_some() {
            return found;
        }
        message.at = next_item(text.words_at(message.line), message.at);
        parts.at = next_item(text.words_at(parts.line), parts.at);
    }
    None
}

/// A finding about the channel of a message, at the place of its first item or its tag.
fn about_channel(
    message: &Message,
    at: usize,
    wrong: &'static str,
    hint: &'static str,
    piece: Piece,
) -> Told {
    Told {
        line: message.line,
        at,
        wrong,
        hint,
        pieces: [channel_name(message), piece, Nothing, Nothing],
    }
}

/// The place of a tag, behind CASE where that stands before it.
fn tag_at(words: &[Word<'_>], message: &Message) -> usize {
    if class_at(words, message.at) == Class::Case {
        message.at.saturating_add(1)
    } else {
        message.at
    }
}

/// What does not fit in a line that is refused for its message; nothing where the words do not tell.
pub(crate) fn message_finding(text: &Text<'_>, index: usize) -> Option<Told> {
    let message = message_of(text, index)?;
    let words = text.words_at(index);
    let tag = tag_at(words, &message);
    let protocol = protocol_of(text, &message.channel);
    let channel = message.channel;
    let (line, at) = match protocol {
        Some(line) => (
            line,
            index_of(text.words_at(line), Class::Is).saturating_add(1),
        ),
        None => (channel.line, channel.spec.of),
    };
    let declaring = text.words_at(line);
    if let Some(protocol) = protocol
        && at > declaring.len()
    {
        // the messages have tags
        if message.is_input && message.at > 0 && tag == message.at {
            return Some(about_channel(
                &message,
                tag,
                "`@1` carries messages with tags, and this input has no CASE",
                "write `? CASE`, and a tag behind it or variants below",
                Nothing,
            ));
        }
        let Some(line) = tag_line(text, protocol, bytes_at(words, tag)) else {
            return Some(about_channel(
                &message,
                tag,
                "a message on `@1` begins with a tag",
                "the tags of its protocol are @2",
                Piece::Tags(protocol),
            ));
        };
        let count = count_from(text.words_at(line), 2);
        let behind = Message {
            at: tag.saturating_add(2),
            ..message
        };
        return compared(text, &behind, &Parts { line, at: 2, count });
    }
    if tag > message.at || message.at == 0 {
        return Some(about_channel(
            &message,
            message.at,
            "`@1` carries messages without tags, and CASE takes a tag",
            "leave CASE out, and input into variables",
            Nothing,
        ));
    }
    let count = match protocol {
        Some(_) => count_from(declaring, at),
        None => 1,
    };
    compared(text, &message, &Parts { line, at, count })
}

/// A tag that the protocol has not, or one that stands twice among the variants of an input.
pub(crate) fn tag_finding(text: &Text<'_>, index: usize) -> Option<Told> {
    let message = message_of(text, index)?;
    let protocol = protocol_of(text, &message.channel)?;
    let words = text.words_at(index);
    let at = tag_at(words, &message);
    let tag = words.get(at)?.bytes;
    let wrong = if tag_line(text, protocol, tag).is_some() {
        "`@1` stands twice in this input"
    } else {
        "`@1` is no tag of the protocol"
    };
    Some(Told {
        line: index,
        at,
        wrong,
        hint: "the tags are @2",
        pieces: [
            Piece::Short(index, at),
            Piece::Tags(protocol),
            Nothing,
            Nothing,
        ],
    })
}
