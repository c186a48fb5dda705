//! The calls of a source: in which PROC each stands, and which PROC it names.
ghost use Rattle.std.specs.Prelude.{◌≡◌, ◌<◌, IfOk, OnOk, length, map};
ghost use Rattle.occ_text.specs.Reading.{or_else};
ghost use Rattle.occ_text.specs.Words.{logical_lines, words};
ghost use Rattle.occ_explaining.specs.Calls.{AddsCall, SetsBelow, calls_in, deepest, named, owner_in, call_pair, proc_begun, proc_called};

use occ_held::letters::Letters;
use occ_text::{Key, Line, Sym, Token};
use std::alloc::{AllocError, Global};

/// A call: the PROC that it stands in, and the one that it names.
#[derive(Clone, Copy)]
pub(crate) struct Call<'a> {
    pub(crate) from: &'a Letters,
    pub(crate) to: &'a Letters,
}

/// The PROC that a line begins.
pub(crate) fn proc_begun(line: &Line) -> Option<&Letters>
    ensures { named result ≡ proc_begun (words line.now.words.items) }
{
    match line.words.as_slice() {
        [Token::Key(Key::Proc), Token::Name(name), ..] => Some(name),
        _ => None,
    }
}

/// The PROC that a line calls.
fn proc_called(line: &Line) -> Option<&Letters>
    ensures { named result ≡ proc_called (words line.now.words.items) }
{
    match line.words.as_slice() {
        [Token::Name(name), Token::Sym(Sym::OpenParen), ..] => Some(name),
        _ => None,
    }
}

/// The greatest level.
fn deepest(mut lines: &[Line]) -> u32
    ensures { result ≡ deepest (logical_lines lines.entry.now) }
{
    let mut most = 0;
    while let [line, rest @ ..] = lines {
        most = most.max(line.level);
        lines = rest;
    }
    most
}

/// The PROC in which a line of this level stands.
fn owner_at<'a>(owners: &[Option<&'a Letters>], level: usize) -> Option<&'a Letters>
    requires { level < length owners.now }
    ensures { named result ≡ owner_in owners.now level }
{
    owners[level]
}

/// The PROC that a line begins, or else the one that it stands in.
fn begun_or<'a>(line: &'a Line, owner: Option<&'a Letters>) -> Option<&'a Letters>
    ensures { named result ≡ or_else (proc_begun (words line.now.words.items)) (named owner.entry) }
{
    match proc_begun(line) {
        Some(name) => Some(name),
        None => owner,
    }
}

/// Deeper lines stand in this PROC.
fn set_below<'a>(owners: &mut [Option<&'a Letters>], level: usize, owner: Option<&'a Letters>)
    requires { level < length owners.old }
    ensures { SetsBelow level owners.old owners.new owner.entry }
{
    for deeper in level + 1..owners.len() {
        owners[deeper] = owner;
    }
}

/// The same of a list that owns them.
fn set_deeper<'a>(owners: &mut Vec<Option<&'a Letters>>, level: usize, owner: Option<&'a Letters>)
    requires { level < length owners.old.items }
    ensures set { SetsBelow level owners.old.items owners.new.items owner.entry }
    ensures len { length owners.new.items ≡ length owners.old.items }
{
    set_below(owners, level, owner);
}

/// Adds a call, where a line has one and stands in a PROC.
fn add_call<'a>(
    calls: &mut Vec<Call<'a>>,
    from: Option<&'a Letters>,
    to: Option<&'a Letters>,
) -> Result<(), AllocError>
    ensures { OnOk result (AddsCall calls.old.items calls.new.items from.entry to.entry) }
{
    if let (Some(from), Some(to)) = (from, to) {
        calls.push(Call { from, to })?;
    }
    Ok(())
}

/// All calls, in the order of the source.
pub(crate) fn calls_of<'a>(alloc: Global, lines: &'a [Line]) -> Result<Vec<Call<'a>>, AllocError>
    ensures { IfOk result (λ calls.
        map call_pair calls.items ≡ calls_in (logical_lines lines.entry.now)) }
{
    // in which PROC a next line would stand, by its level
    let mut owners: Vec<Option<&'a Letters>> = vec![in alloc; None; deepest(lines) as usize + 1]?;
    let mut calls = Vec::new(alloc);
    for line in lines {
        let level = line.level as usize;
        let owner = owner_at(owners.as_slice(), level);
        add_call(&mut calls, owner, proc_called(line))?;
        set_deeper(&mut owners, level, begun_or(line, owner));
    }
    Ok(calls)
}
