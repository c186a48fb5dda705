//! The words that begin an expression, and those that go on with one.
ghost use Rattle.std.specs.Prelude.{◌≡◌};
ghost use Rattle.occ_tree_grammar.specs.declared.expressions.start.Link.TheVariants as links;
ghost use Rattle.occ_tree_grammar.specs.declared.expressions.start.Start.TheVariants as starts;
ghost use Rattle.occ_tree_grammar.specs.declared.tree.expr.Logic.TheVariants as logics;
ghost use Rattle.occ_tree_grammar.specs.declared.tree.expr.Monadic.TheVariants as monadics;

use occ_text::{Key, Token};
use occ_tree_grammar::expressions::start::{Link, Start, link_to, start_with};

/// A word begins an expression in one way.
pub fn start_twice(first: &Token) -> (Start, Start)
    ensures { result.0 ≡ result.1 }
{
    (start_with(first), start_with(first))
}

/// A word goes on with an expression in one way.
pub fn link_twice(first: &Token) -> (Link, Link)
    ensures { result.0 ≡ result.1 }
{
    (link_to(first), link_to(first))
}

/// SIZE begins the number of components of an array.
pub fn size_begins() -> Start
    ensures { result ≡ starts.Monadic monadics.Size }
{
    start_with(&Token::Key(Key::Size))
}

/// OR goes on with another operand of OR.
pub fn or_goes_on() -> Link
    ensures { result ≡ links.Logic logics.Or }
{
    link_to(&Token::Key(Key::Or))
}
