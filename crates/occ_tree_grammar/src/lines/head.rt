//! What the line at the head of a process, or of a part of one, says.

use crate::tree::expr::Expr;
use crate::tree::line::{
    Action, Formals, Guard, Input, OneOrMore, Part, Replicator, Sort, Target, ValueType, Var,
    VariantGuard,
};
use occ_held::letters::Letters;

/// The line of a process.
#[derive(Drop)]
pub enum ProcessHead {
    /// A process that stands in one line.
    Action(Box<Action>),
    /// An input of variants from the channel.
    Variants(Var),
    /// `SEQ`
    Seq(Option<Box<Replicator>>),
    /// `PAR`
    Par(Option<Box<Replicator>>),
    /// `ALT`, by priority where the truth value says so.
    Alt(bool, Option<Box<Replicator>>),
    /// `IF`
    If(Option<Box<Replicator>>),
    /// `CASE` and the value.
    Case(Box<Expr>),
    /// `WHILE` and the condition.
    While(Box<Expr>),
}

/// The line of a choice.
#[derive(Drop)]
pub enum ChoiceHead {
    /// A condition.
    When(Box<Expr>),
    /// A nested `IF`.
    If(Option<Box<Replicator>>),
}

/// The line of an option.
#[derive(Drop)]
pub enum OptionHead {
    /// The values.
    Values(Box<OneOrMore<Expr>>),
    /// `ELSE`
    Else,
}

/// The line of an arm.
#[derive(Drop)]
pub enum ArmHead {
    /// A guard.
    Guarded(Box<Guard>),
    /// What guards an input of variants.
    Variants(Box<VariantGuard>),
    /// A nested `ALT`, by priority where the truth value says so.
    Alt(bool, Option<Box<Replicator>>),
}

/// The line of a variant: the tag and the targets.
#[derive(Drop)]
pub struct VariantHead {
    /// The tag.
    pub tag: Letters,
    /// The targets of what follows it.
    pub targets: Vec<Target>,
}

/// The first line of a declaration.
#[derive(Drop)]
pub enum DeclHead {
    /// The sizes, the sort and the names.
    Names(Vec<Expr>, Box<Sort>, OneOrMore<Letters>),
    /// The type where it is given, the name and the value.
    Value(Option<ValueType>, Letters, Box<Expr>),
    /// A protocol: the name and the parts.
    Parts(Letters, Box<OneOrMore<Part>>),
    /// The first line of a protocol of variants: the name.
    Tags(Letters),
    /// The first line of a procedure: the name and the formals.
    Proc(Letters, Option<Box<Formals>>),
}

/// A line of a protocol of variants: the tag and the parts.
#[derive(Drop)]
pub struct TagHead {
    /// The tag.
    pub tag: Letters,
    /// The parts that follow it.
    pub parts: Vec<Part>,
}

/// What follows the question mark of an input.
#[derive(Drop)]
pub enum Received {
    /// An input in one line.
    Input(Input),
    /// An input of variants, which stand in the lines below.
    Variants(Var),
}
