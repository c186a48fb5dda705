//! What stands in one line.

use crate::tree::expr::{Expr, Prim};
use occ_held::letters::Letters;

/// One or more of a kind.
pub struct OneOrMore<T: Drop> {
    /// The first.
    pub first: T,
    /// The others, in order.
    pub others: Vec<T>,
}

impl<T: Drop> Drop for OneOrMore<T> {
    fn drop(self) {
        let OneOrMore {
            first: _,
            others: _,
        } = self;
    }
}

/// A variable or a channel: a name with its subscripts.
pub struct Var {
    /// The name.
    pub name: Letters,
    /// The subscripts, in order; at most one.
    pub subscripts: Vec<Expr>,
}

impl Drop for Var {
    fn drop(self) {
        let Var {
            name: _,
            subscripts: _,
        } = self;
    }
}

/// Where an input puts an item.
pub enum Target {
    /// The variable that takes the item.
    Whole(Var),
    /// The variable that takes the number of components, and the array that takes them.
    Counted(Var, Var),
}

impl Drop for Target {
    fn drop(self) {
        match self {
            Target::Whole(_) => {}
            Target::Counted(_, _) => {}
        }
    }
}

/// An item of an output.
pub enum Out {
    /// A value.
    Whole(Expr),
    /// The number of components, and the array that they are taken from.
    Counted(Expr, Expr),
}

impl Drop for Out {
    fn drop(self) {
        match self {
            Out::Whole(_) => {}
            Out::Counted(_, _) => {}
        }
    }
}

/// An input in one line.
pub enum Input {
    /// The channel and the targets.
    Items(Var, OneOrMore<Target>),
    /// The channel, the tag that must come, and the targets of what follows it.
    Tagged(Var, Letters, Vec<Target>),
}

impl Drop for Input {
    fn drop(self) {
        match self {
            Input::Items(_, _) => {}
            Input::Tagged(_, _, _) => {}
        }
    }
}

/// The guard of an arm that isn't an input of variants.
pub enum Guard {
    /// An input, behind the Boolean where there is one.
    Input(Option<Expr>, Input),
    /// `SKIP` behind the Boolean.
    Skip(Expr),
}

impl Drop for Guard {
    fn drop(self) {
        match self {
            Guard::Input(_, _) => {}
            Guard::Skip(_) => {}
        }
    }
}

/// The guard of an arm that is an input of variants.
pub struct VariantGuard {
    /// The Boolean, where there is one.
    pub condition: Option<Expr>,
    /// The channel.
    pub channel: Var,
}

impl Drop for VariantGuard {
    fn drop(self) {
        let VariantGuard {
            condition: _,
            channel: _,
        } = self;
    }
}

/// A replicator: `name = base FOR count`.
pub struct Replicator {
    /// The name of the index.
    pub name: Letters,
    /// The first value of the index.
    pub base: Expr,
    /// How many values the index takes.
    pub count: Expr,
}

impl Drop for Replicator {
    fn drop(self) {
        let Replicator {
            name: _,
            base: _,
            count: _,
        } = self;
    }
}

/// A process that stands in one line.
pub enum Action {
    /// `SKIP`
    Skip,
    /// `STOP`
    Stop,
    /// The targets and the values of an assignment.
    Assign(OneOrMore<Var>, OneOrMore<Expr>),
    /// An input.
    Input(Input),
    /// The channel and the items of an output.
    Output(Var, OneOrMore<Out>),
    /// The name and the actuals of a call.
    Call(Letters, Option<OneOrMore<Expr>>),
}

impl Drop for Action {
    fn drop(self) {
        match self {
            Action::Skip => {}
            Action::Stop => {}
            Action::Assign(_, _) => {}
            Action::Input(_) => {}
            Action::Output(_, _) => {}
            Action::Call(_, _) => {}
        }
    }
}

/// A part of a message.
pub enum Part {
    /// A value of the type, or an array of the sizes; at most four sizes.
    Single(Vec<Expr>, Prim),
    /// The type of the count, and the type of the components that it counts.
    Counted(Prim, Prim),
}

impl Drop for Part {
    fn drop(self) {
        match self {
            Part::Single(_, _) => {}
            Part::Counted(_, _) => {}
        }
    }
}

/// What a channel carries.
pub enum Carried {
    /// Messages of one part.
    Part(Part),
    /// Messages of the protocol of this name.
    Named(Letters),
}

impl Drop for Carried {
    fn drop(self) {
        match self {
            Carried::Part(_) => {}
            Carried::Named(_) => {}
        }
    }
}

/// What a declaration declares its names as.
pub enum Sort {
    /// Variables of the type.
    Data(Prim),
    /// Channels.
    Channel(Carried),
}

impl Drop for Sort {
    fn drop(self) {
        match self {
            Sort::Data(_) => {}
            Sort::Channel(_) => {}
        }
    }
}

/// A size in the type of a formal or of a named value.
pub enum Size {
    /// Any size: `[]`.
    Open,
    /// This size.
    Given(Expr),
}

impl Drop for Size {
    fn drop(self) {
        match self {
            Size::Open => {}
            Size::Given(_) => {}
        }
    }
}

/// The type of a named value or of a formal: its sizes, at most one, and the type of its components.
pub struct ValueType {
    /// The sizes, in order.
    pub sizes: Vec<Size>,
    /// The type.
    pub of: Prim,
}

impl Drop for ValueType {
    fn drop(self) {
        let ValueType { sizes: _, of: _ } = self;
    }
}

/// What a formal stands for.
pub enum Spec {
    /// A value, by `VAL`.
    Value(ValueType),
    /// A variable.
    Variable(ValueType),
    /// A channel, or an array of the sizes, and what it carries.
    Channel(Vec<Size>, Carried),
}

impl Drop for Spec {
    fn drop(self) {
        match self {
            Spec::Value(_) => {}
            Spec::Variable(_) => {}
            Spec::Channel(_, _) => {}
        }
    }
}

/// A formal that isn't the first.
pub struct Formal {
    /// The spec, where it isn't that of the formal before it.
    pub spec: Option<Spec>,
    /// The name.
    pub name: Letters,
}

impl Drop for Formal {
    fn drop(self) {
        let Formal { spec: _, name: _ } = self;
    }
}

/// The formals of a procedure that has some.
pub struct Formals {
    /// The spec of the first.
    pub spec: Spec,
    /// The name of the first.
    pub name: Letters,
    /// The others.
    pub others: Vec<Formal>,
}

impl Drop for Formals {
    fn drop(self) {
        let Formals {
            spec: _,
            name: _,
            others: _,
        } = self;
    }
}
