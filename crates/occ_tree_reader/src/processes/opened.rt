//! What is left of a process and of a declaration once their first lines are read, and what that is
//! put into.

ghost use Rattle.std.specs.Prelude.{◌≡◌, IfOk};
ghost use Rattle.occ_tree_grammar.specs.Fronts.{each_as};
ghost use Rattle.occ_tree_grammar.specs.Lines.HeadViews.{process_head_of};
ghost use Rattle.occ_tree_grammar.specs.Processes.Views.{decl_of, process_of};
ghost use Rattle.occ_tree_reader.specs.Opened.{around, in_order, opened_head};

use occ_held::letters::Letters;
use occ_tree_grammar::lines::head::ProcessHead;
use occ_tree_grammar::tree::expr::Expr;
use occ_tree_grammar::tree::line::{Action, Formals, Replicator, Var};
use occ_tree_grammar::tree::process::{Decl, Process, Stmt};
use std::alloc::{AllocError, Global};

/// The line of a process, by what has to stand under it.
#[derive(Drop)]
pub enum Opened {
    /// Nothing: a process in one line.
    Action(Box<Action>),
    /// One process.
    Process(Around),
    /// Processes.
    Processes(Order),
    /// One choice of an `IF` with a replicator.
    Choice(Box<Replicator>),
    /// The choices of an `IF`.
    Choices,
    /// The options of a `CASE` with this value.
    Options(Box<Expr>),
    /// One arm of an `ALT` with a replicator, by priority where the truth value says so.
    Arm(bool, Box<Replicator>),
    /// The arms of an `ALT`, by priority where the truth value says so.
    Arms(bool),
    /// The variants of an input from the channel.
    Variants(Var),
}

/// What one process is put into.
pub enum Around {
    /// `SEQ` with a replicator.
    Seq(Box<Replicator>),
    /// `PAR` with a replicator.
    Par(Box<Replicator>),
    /// `WHILE` and the condition.
    While(Box<Expr>),
}

impl Drop for Around {
    fn drop(self) {
        match self {
            Around::Seq(_) => {}
            Around::Par(_) => {}
            Around::While(_) => {}
        }
    }
}

/// What processes are put into.
#[derive(Clone, Copy)]
pub enum Order {
    /// `SEQ`
    Seq,
    /// `PAR`
    Par,
}

/// A declaration whose first lines are read.
#[derive(Drop)]
pub enum OpenedDecl {
    /// The declaration: no process stands in it.
    Whole(Decl),
    /// The first line of a procedure, before its body: the line, the name and the formals.
    Proc(u32, Letters, Option<Box<Formals>>),
}

impl Around {
    /// The process with this body.
    pub fn with_body(
        self,
        alloc: Global,
        declarations: Vec<Decl>,
        line: u32,
        body: Process,
    ) -> Result<Process, AllocError>
        ensures { IfOk result (λ p. process_of p
            ≡ around self (each_as decl_of declarations) line (process_of body)) }
    {
        let body = Box::new(alloc, body)?;
        match self {
            Around::Seq(index) => Ok(Process::Declared(
                declarations,
                line,
                Stmt::SeqFor(index, body),
            )),
            Around::Par(index) => Ok(Process::Declared(
                declarations,
                line,
                Stmt::ParFor(index, body),
            )),
            Around::While(condition) => Ok(Process::Declared(
                declarations,
                line,
                Stmt::While(condition, body),
            )),
        }
    }
}

impl Order {
    /// The process that does these.
    pub fn with_processes(
        self,
        declarations: Vec<Decl>,
        line: u32,
        processes: Vec<Process>,
    ) -> Process
        ensures { process_of result ≡ in_order
            self (each_as decl_of declarations) line (each_as process_of processes) }
    {
        match self {
            Order::Seq => Process::Declared(declarations, line, Stmt::Seq(processes)),
            Order::Par => Process::Declared(declarations, line, Stmt::Par(processes)),
        }
    }
}

/// The line of a process, by what has to stand under it.
pub fn process_opened(head: ProcessHead) -> Opened
    ensures { opened_head result ≡ process_head_of head }
{
    match head {
        ProcessHead::Action(action) => Opened::Action(action),
        ProcessHead::Variants(channel) => Opened::Variants(channel),
        ProcessHead::Seq(None) => Opened::Processes(Order::Seq),
        ProcessHead::Seq(Some(index)) => Opened::Process(Around::Seq(index)),
        ProcessHead::Par(None) => Opened::Processes(Order::Par),
        ProcessHead::Par(Some(index)) => Opened::Process(Around::Par(index)),
        ProcessHead::Alt(pri, None) => Opened::Arms(pri),
        ProcessHead::Alt(pri, Some(index)) => Opened::Arm(pri, index),
        ProcessHead::If(None) => Opened::Choices,
        ProcessHead::If(Some(index)) => Opened::Choice(index),
        ProcessHead::Case(value) => Opened::Options(value),
        ProcessHead::While(condition) => Opened::Process(Around::While(condition)),
    }
}
