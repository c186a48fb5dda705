//! Channels with the same name and protocol, and protocols with the same content.
ghost use Rattle.std.specs.Prelude.{◌≡◌, ◌↔◌, IfOk, IsTrue};

use occ_term::same::{same_bytes, same_numbers};
use occ_term::{Channel, PartType, Protocol, Tag};
use std::alloc::{AllocError, Global};

/// Whether both are the same channels, in the same order.
pub(crate) fn same_channels(
    alloc: Global,
    channels: &[Channel],
    others: &[Channel],
) -> Result<bool, AllocError>
    ensures { IfOk result (λ same. IsTrue same ↔ (channels.now ≡ others.now)) }
{
    if channels.len() != others.len() {
        return Ok(false);
    }
    for i in 0..channels.len() {
        if !is_same_channel(alloc, &channels[i], &others[i])? {
            return Ok(false);
        }
    }
    Ok(true)
}

fn is_same_channel(alloc: Global, channel: &Channel, other: &Channel) -> Result<bool, AllocError>
    ensures { IfOk result (λ same. IsTrue same ↔ (channel.now ≡ other.now)) }
{
    let same = channel.name.is_same(alloc, &other.name)?;
    Ok(same && is_same_protocol(&channel.protocol, &other.protocol))
}

fn is_same_protocol(protocol: &Protocol, other: &Protocol) -> bool
    ensures { IsTrue result ↔ (protocol.now ≡ other.now) }
{
    match (protocol, other) {
        (Protocol::Simple(sizes, p), Protocol::Simple(others, q)) => {
            p == q && same_numbers(sizes.as_slice(), others.as_slice())
        }
        (Protocol::CountedArray(c, p), Protocol::CountedArray(d, q)) => c == d && p == q,
        (Protocol::Sequential(parts), Protocol::Sequential(others)) => {
            same_part_types(parts.as_slice(), others.as_slice())
        }
        (Protocol::Variant(tags), Protocol::Variant(others)) => {
            same_tags(tags.as_slice(), others.as_slice())
        }
        _ => false,
    }
}

fn same_tags(tags: &[Tag], others: &[Tag]) -> bool
    ensures { IsTrue result ↔ (tags.now ≡ others.now) }
{
    if tags.len() != others.len() {
        return false;
    }
    for i in 0..tags.len() {
        if !is_same_tag(&tags[i], &others[i]) {
            return false;
        }
    }
    true
}

fn is_same_tag(tag: &Tag, other: &Tag) -> bool
    ensures { IsTrue result ↔ (tag.now ≡ other.now) }
{
    same_bytes(tag.name.as_slice(), other.name.as_slice())
        && same_part_types(tag.parts.as_slice(), other.parts.as_slice())
}

fn same_part_types(parts: &[PartType], others: &[PartType]) -> bool
    ensures { IsTrue result ↔ (parts.now ≡ others.now) }
{
    if parts.len() != others.len() {
        return false;
    }
    for i in 0..parts.len() {
        if !is_same_part_type(&parts[i], &others[i]) {
            return false;
        }
    }
    true
}

fn is_same_part_type(part: &PartType, other: &PartType) -> bool
    ensures { IsTrue result ↔ (part.now ≡ other.now) }
{
    match (part, other) {
        (PartType::One(p), PartType::One(q)) => p == q,
        (PartType::Many(sizes, p), PartType::Many(others, q)) => p == q
            && same_numbers(sizes.as_slice(), others.as_slice()),
        (PartType::Counted(c, p), PartType::Counted(d, q)) => c == d && p == q,
        _ => false,
    }
}

/// A copy of all channels. The error is a refused growth.
pub fn copy_channels(alloc: Global, channels: &[Channel]) -> Result<Vec<Channel>, AllocError>
    ensures { IfOk result (λ copies. copies.items ≡ channels.now) }
{
    let mut copies = Vec::new(alloc);
    for channel in channels {
        copies.push(channel.copy(alloc)?)?;
    }
    Ok(copies)
}
