//! Writes elements of XML.
ghost use Rattle.std.specs.Prelude.{◌≡◌, OnOk, codes};
ghost use Rattle.std.specs.Fmt.{decimal};
ghost use Rattle.occ_chart.specs.Shapes.{area, path, style_attributes, text_at};
ghost use Rattle.occ_chart.specs.Xml.{attribute, attribute_text, attributes_text, element_text, xml_text, xml_byte, title_text, AddsElement, AddsAttribute};
ghost use Rattle.occ_shown.specs.Answers.{AddsText};

use std::alloc::{AllocError, Global};

/// How words are written.
#[derive(Clone, Copy)]
pub(crate) enum Style {
    /// In black, round their place.
    Plain,
    /// In red, round their place.
    Red,
    /// In black, from their place on.
    Note,
    /// In red, from their place on.
    RedNote,
}

fn write_byte(out: &mut Vec<u8>, byte: u8) -> Result<(), AllocError>
    ensures { OnOk result (AddsText out.old out.new (xml_byte byte)) }
{
    match byte {
        b'"' => out.extend_from_slice(b"&quot;")?,
        b'&' => out.extend_from_slice(b"&amp;")?,
        b'<' => out.extend_from_slice(b"&lt;")?,
        b'>' => out.extend_from_slice(b"&gt;")?,
        b' '..=b'~' => out.push(byte)?,
        _ => out.push(b'?')?,
    }
    Ok(())
}

fn write_escaped(out: &mut Vec<u8>, bytes: &[u8]) -> Result<(), AllocError>
    ensures { OnOk result (AddsText out.old out.new (xml_text bytes.now)) }
{
    let mut rest = bytes;
    while let Some((first, others)) = rest.split_first() {
        write_byte(out, *first)?;
        rest = others;
    }
    Ok(())
}

/// An attribute after a space.
#[tactic(auto, unfolding(crate::specs::Xml::attribute_text))]
pub(crate) fn write_attribute(
    out: &mut Vec<u8>,
    name: &[u8],
    value: &[u8],
) -> Result<(), AllocError>
    ensures { OnOk result (AddsAttribute out.old out.new name.now value.now) }
{
    out.push(b' ')?;
    out.extend_from_slice(name)?;
    out.extend_from_slice(b"=\"")?;
    write_escaped(out, value)?;
    out.push(b'"')?;
    Ok(())
}

/// An attribute whose value is a number.
pub(crate) fn write_number(
    alloc: Global,
    out: &mut Vec<u8>,
    name: &[u8],
    number: u64,
) -> Result<(), AllocError>
    ensures { OnOk result (AddsAttribute out.old out.new name.now (decimal number)) }
{
    let text = format!(in alloc; "{number}")?;
    write_attribute(out, name, text.as_bytes())
}

fn write_anchor(out: &mut Vec<u8>) -> Result<(), AllocError>
    ensures { OnOk result (AddsAttribute out.old out.new (codes "text-anchor") (codes "start")) }
{
    write_attribute(out, b"text-anchor", b"start")?;
    Ok(())
}

fn write_red(out: &mut Vec<u8>) -> Result<(), AllocError>
    ensures { OnOk result (AddsAttribute out.old out.new (codes "fill") (codes "red")) }
{
    write_attribute(out, b"fill", b"red")?;
    Ok(())
}

fn write_style(out: &mut Vec<u8>, style: Style) -> Result<(), AllocError>
    ensures { OnOk result (AddsText out.old out.new (attributes_text (style_attributes style))) }
{
    match style {
        Style::Plain => Ok(()),
        Style::Red => write_red(out),
        Style::Note => write_anchor(out),
        Style::RedNote => {
            write_anchor(out)?;
            write_red(out)
        }
    }
}

/// A title, where there is one.
fn write_title(out: &mut Vec<u8>, title: &[u8]) -> Result<(), AllocError>
    ensures { OnOk result (AddsText out.old out.new (title_text title.now)) }
{
    if title.is_empty() {
        return Ok(());
    }
    out.extend_from_slice(b"<title>")?;
    write_escaped(out, title)?;
    out.extend_from_slice(b"</title>")
}

/// Words at this place, with a title where there is one.
#[tactic(auto, unfolding(crate::specs::Xml::element_text))]
pub(crate) fn write_text(
    alloc: Global,
    out: &mut Vec<u8>,
    style: Style,
    x: u64,
    y: u64,
    title: &[u8],
    words: &[u8],
) -> Result<(), AllocError>
    ensures { OnOk result (AddsElement out.old out.new (text_at style x y title.now words.now)) }
{
    out.extend_from_slice(b"<text")?;
    write_number(alloc, out, b"x", x)?;
    write_number(alloc, out, b"y", y)?;
    write_style(out, style)?;
    out.push(b'>')?;
    write_title(out, title)?;
    write_escaped(out, words)?;
    out.extend_from_slice(b"</text>\n")
}

/// A line of this course and colour.
#[tactic(auto, unfolding(crate::specs::Xml::element_text))]
pub(crate) fn write_path(out: &mut Vec<u8>, course: &[u8], colour: &[u8]) -> Result<(), AllocError>
    ensures { OnOk result (AddsElement out.old out.new (path course.now colour.now)) }
{
    out.extend_from_slice(b"<path")?;
    write_attribute(out, b"d", course)?;
    write_attribute(out, b"fill", b"none")?;
    write_attribute(out, b"stroke", colour)?;
    out.extend_from_slice(b"></path>\n")
}

/// A white area of this course.
#[tactic(auto, unfolding(crate::specs::Xml::element_text))]
pub(crate) fn write_area(out: &mut Vec<u8>, course: &[u8]) -> Result<(), AllocError>
    ensures { OnOk result (AddsElement out.old out.new (area course.now)) }
{
    out.extend_from_slice(b"<path")?;
    write_attribute(out, b"d", course)?;
    write_attribute(out, b"fill", b"white")?;
    out.extend_from_slice(b"></path>\n")
}
