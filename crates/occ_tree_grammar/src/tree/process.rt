//! Processes, their parts, declarations and whole texts.

ghost use Rattle.occ_tree_grammar.specs.Expressions.Reading.{Gives};
ghost use Rattle.occ_tree_grammar.specs.Processes.Reading.{as_item};
ghost use Rattle.occ_tree_grammar.specs.Processes.Views.{decl_of, item_of};

use crate::fault::ParseFault;
use crate::stops::{Stop, Wanted};
use crate::tree::expr::Expr;
use crate::tree::line::{
    Action, Formals, Guard, OneOrMore, Part, Replicator, Sort, Target, ValueType, Var, VariantGuard,
};
use occ_held::letters::Letters;

/// A process.
#[cycle(process)]
pub enum Process {
    /// The declarations before it, the line of the statement, and the statement.
    Declared(Vec<Decl>, u32, Stmt),
}

impl Drop for Process {
    #[cycle(process)]
    fn drop(self) {
        match self {
            Process::Declared(_, _, _) => {}
        }
    }
}

/// What a process does, behind its declarations.
#[cycle(process)]
pub enum Stmt {
    /// A process in one line.
    Action(Box<Action>),
    /// `SEQ`
    Seq(Vec<Process>),
    /// `SEQ` with a replicator.
    SeqFor(Box<Replicator>, Box<Process>),
    /// `PAR`
    Par(Vec<Process>),
    /// `PAR` with a replicator.
    ParFor(Box<Replicator>, Box<Process>),
    /// `ALT`, by priority where the truth value says so.
    Alt(bool, Vec<Arm>),
    /// `ALT` with a replicator, by priority where the truth value says so.
    AltFor(bool, Box<Replicator>, Box<Arm>),
    /// `IF`
    If(Vec<Choice>),
    /// `IF` with a replicator.
    IfFor(Box<Replicator>, Box<Choice>),
    /// `CASE`: the value and the options.
    Case(Box<Expr>, Vec<Selection>),
    /// `WHILE`: the condition and the body.
    While(Box<Expr>, Box<Process>),
    /// An input of variants: the channel and the variants.
    Variants(Var, Vec<Variant>),
}

impl Drop for Stmt {
    #[cycle(process)]
    fn drop(self) {
        match self {
            Stmt::Action(_) => {}
            Stmt::Seq(_) => {}
            Stmt::SeqFor(_, _) => {}
            Stmt::Par(_) => {}
            Stmt::ParFor(_, _) => {}
            Stmt::Alt(_, _) => {}
            Stmt::AltFor(_, _, _) => {}
            Stmt::If(_) => {}
            Stmt::IfFor(_, _) => {}
            Stmt::Case(_, _) => {}
            Stmt::While(_, _) => {}
            Stmt::Variants(_, _) => {}
        }
    }
}

/// A choice of an `IF`. Each case begins with the declarations before it and its line.
#[cycle(process)]
pub enum Choice {
    /// A condition and its process.
    When(Vec<Decl>, u32, Box<Expr>, Process),
    /// A nested `IF`.
    InnerIf(Vec<Decl>, u32, Vec<Choice>),
    /// A nested `IF` with a replicator.
    InnerIfFor(Vec<Decl>, u32, Box<Replicator>, Box<Choice>),
}

impl Drop for Choice {
    #[cycle(process)]
    fn drop(self) {
        match self {
            Choice::When(_, _, _, _) => {}
            Choice::InnerIf(_, _, _) => {}
            Choice::InnerIfFor(_, _, _, _) => {}
        }
    }
}

/// An option of a `CASE`. Each case begins with the declarations before it and its line.
#[cycle(process)]
pub enum Selection {
    /// The values and their process.
    Values(Vec<Decl>, u32, Box<OneOrMore<Expr>>, Process),
    /// `ELSE` and its process.
    Else(Vec<Decl>, u32, Process),
}

impl Drop for Selection {
    #[cycle(process)]
    fn drop(self) {
        match self {
            Selection::Values(_, _, _, _) => {}
            Selection::Else(_, _, _) => {}
        }
    }
}

/// An arm of an `ALT`. Each case begins with the declarations before it and its line.
#[cycle(process)]
pub enum Arm {
    /// A guard and its process.
    Guarded(Vec<Decl>, u32, Box<Guard>, Process),
    /// An input of variants: what guards it, and the variants.
    OnVariant(Vec<Decl>, u32, Box<VariantGuard>, Vec<Variant>),
    /// A nested `ALT`, by priority where the truth value says so.
    InnerAlt(Vec<Decl>, u32, bool, Vec<Arm>),
    /// A nested `ALT` with a replicator, by priority where the truth value says so.
    InnerAltFor(Vec<Decl>, u32, bool, Box<Replicator>, Box<Arm>),
}

impl Drop for Arm {
    #[cycle(process)]
    fn drop(self) {
        match self {
            Arm::Guarded(_, _, _, _) => {}
            Arm::OnVariant(_, _, _, _) => {}
            Arm::InnerAlt(_, _, _, _) => {}
            Arm::InnerAltFor(_, _, _, _, _) => {}
        }
    }
}

/// A variant of an input.
#[cycle(process)]
pub enum Variant {
    /// The declarations before it, its line, the tag, the targets and the process.
    Tagged(Vec<Decl>, u32, Letters, Vec<Target>, Process),
}

impl Drop for Variant {
    #[cycle(process)]
    fn drop(self) {
        match self {
            Variant::Tagged(_, _, _, _, _) => {}
        }
    }
}

/// A declaration before a process or a part of one.
#[cycle(process)]
pub enum Decl {
    /// Names of variables or channels: the line, the sizes, the sort and the names.
    Names(u32, Vec<Expr>, Box<Sort>, OneOrMore<Letters>),
    /// What may stand at the top of a text too.
    Item(Item),
}

impl Drop for Decl {
    #[cycle(process)]
    fn drop(self) {
        match self {
            Decl::Names(_, _, _, _) => {}
            Decl::Item(_) => {}
        }
    }
}

impl Decl {
    /// The item, where the declaration may stand at the top of a text.
    #[tactic(auto, unfolding(crate::specs::Processes::Views::decl_of))]
    pub fn into_item(self) -> Result<Item, ParseFault>
        ensures { Gives item_of result (as_item (decl_of self)) }
    {
        match self {
            Decl::Item(item) => Ok(item),
            Decl::Names(line, _, _, _) => Err(ParseFault::Unexpected(
                line,
                Stop {
                    left: usize::MAX,
                    wanted: Wanted::Begin,
                },
            )),
        }
    }
}

/// An item of a text.
#[cycle(process)]
pub enum Item {
    /// A named value: the line, the type where it is given, the name and the value.
    Value(u32, Option<ValueType>, Letters, Box<Expr>),
    /// A protocol.
    Protocol(Protocol),
    /// A procedure: the line, the name, the formals, the body and the line of the colon that ends it.
    Proc(u32, Letters, Option<Box<Formals>>, Process, u32),
}

impl Drop for Item {
    #[cycle(process)]
    fn drop(self) {
        match self {
            Item::Value(_, _, _, _) => {}
            Item::Protocol(_) => {}
            Item::Proc(_, _, _, _, _) => {}
        }
    }
}

/// A protocol.
pub enum Protocol {
    /// The line, the name and the parts of its messages.
    Parts(u32, Letters, Box<OneOrMore<Part>>),
    /// The line, the name, the line of `CASE`, the tags, and the line of the colon that ends it.
    Tags(u32, Letters, u32, Vec<Tag>, u32),
}

impl Drop for Protocol {
    fn drop(self) {
        match self {
            Protocol::Parts(_, _, _) => {}
            Protocol::Tags(_, _, _, _, _) => {}
        }
    }
}

/// A tag of a protocol.
pub struct Tag {
    /// The line.
    pub line: u32,
    /// The name.
    pub name: Letters,
    /// The parts that follow it in a message.
    pub parts: Vec<Part>,
}

impl Drop for Tag {
    fn drop(self) {
        let Tag {
            line: _,
            name: _,
            parts: _,
        } = self;
    }
}

/// A text.
pub struct Program {
    /// The items, in order.
    pub items: Vec<Item>,
}

impl Drop for Program {
    fn drop(self) {
        let Program { items: _ } = self;
    }
}
