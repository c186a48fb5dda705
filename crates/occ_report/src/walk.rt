//! The stops of a process, as the tree has them, in the order of its code.

use crate::calls::Calls;
use crate::marks::{Branches, Mark, has_tag, literal};
use crate::parts::{Left, Part};
use crate::scope::{Around, Procedure, Procedures};
use crate::stop::Kind;
use occ_tree_grammar::tree::expr::Expr;
use occ_tree_grammar::tree::line::{Action, Guard, Input};
use occ_tree_grammar::tree::process::{Arm, Choice, Decl, Item, Process, Selection, Stmt, Variant};
use std::alloc::{AllocError, Global};

/// A walk through the tree.
#[derive(Drop)]
pub(crate) struct Walk<'t> {
    procedures: Procedures<'t>,
    /// What is left of the process, the last part first.
    left: Vec<Left<'t>>,
    /// The stops of the process that were found.
    marks: Vec<Mark<'t>>,
    /// The calls of the process.
    pub calls: Calls,
    /// How many parts may still be gone through, of this process and of others.
    parts: u32,
    /// How many PROCs may still be declared and looked at.
    looks: u32,
    /// How many parts of the process are done, as its code has them.
    done: u32,
    /// Whether more was evaluated behind the last one that is done.
    begun: bool,
    /// Whether the way was lost.
    lost: bool,
}

impl<'t> Walk<'t> {
    /// A walk of so many parts and so many looks.
    pub fn new(alloc: Global, parts: u32, looks: u32) -> Walk<'t> {
        Walk {
            procedures: Procedures::new(alloc),
            left: Vec::new(alloc),
            marks: Vec::new(alloc),
            calls: Calls::new(alloc),
            parts,
            looks,
            done: 0,
            begun: false,
            lost: false,
        }
    }

    /// The stops of the process that was gone through last.
    pub fn marks(&self) -> &[Mark<'t>] {
        self.marks.as_slice()
    }

    /// How many parts of it are done, as its code has them.
    pub fn done(&self) -> u32 {
        self.done
    }

    /// One part is done.
    fn do_part(&mut self) {
        self.done = self.done.saturating_add(1);
        self.begun = false;
    }

    /// The body of this call is gone through: what is evaluated in it comes before the last part that is done, or else behind that.
    fn leave(&mut self, call: u32) {
        let behind = if self.begun {
            self.done
        } else {
            self.done.saturating_sub(1)
        };
        self.calls.leave(call, behind);
    }

    /// Goes through a process, and answers whether all of it was.
    pub fn go_through(
        &mut self,
        process: &'t Process,
        around: Around<'t>,
    ) -> Result<bool, AllocError> {
        self.left.clear();
        self.marks.clear();
        self.done = 0;
        self.begun = false;
        self.lost = false;
        self.later(Part::One(process), around)?;
        let mut parts = self.parts;
        let mut done = false;
        'parts: while parts > 0 {
            let Some(next) = self.left.pop() else {
                done = !self.lost;
                break;
            };
            parts -= 1;
            self.part(next.part, next.around)?;
        }
        self.parts = parts;
        Ok(done)
    }

    /// Keeps the PARs that have branches, of which there are so many: where there are fewer of them than PARs, none has that
    /// may have none.
    pub fn keep_begun(&mut self, forks: usize) {
        let pars = self
            .marks
            .iter()
            .filter(|mark| matches!(mark.kind, Kind::Par))
            .count();
        if forks < pars {
            self.marks
                .retain(|mark| !matches!(mark.branches, Branches::Maybe(_)));
        }
    }

    /// A part to be gone through before all that are left.
    fn later(&mut self, part: Part<'t>, around: Around<'t>) -> Result<(), AllocError> {
        self.left.push(Left { part, around })?;
        Ok(())
    }

    /// Two parts to be gone through before all that are left.
    fn in_turn(
        &mut self,
        first: Part<'t>,
        second: Part<'t>,
        around: Around<'t>,
    ) -> Result<(), AllocError> {
        self.later(second, around)?;
        self.later(first, around)
    }

    /// Notes a stop, or where an arm is opened.
    fn mark(
        &mut self,
        line: u32,
        kind: Kind,
        branches: Branches<'t>,
        around: Around<'t>,
    ) -> Result<(), AllocError> {
        if !matches!(kind, Kind::Arm) {
            self.do_part();
        }
        self.marks.push(Mark {
            line,
            kind,
            branches,
            around,
        })?;
        Ok(())
    }

    /// Goes through a part.
    fn part(&mut self, part: Part<'t>, around: Around<'t>) -> Result<(), AllocError> {
        match part {
            Part::One(process) => self.process(process, around),
            Part::All(processes) => self.processes(processes, around),
            Part::Arms(arms) => self.arms(arms, around),
            Part::Choices(choices) => self.choices(choices, around),
            Part::Options(options) => self.options(options, around),
            Part::Else(line, options) => self.otherwise(line, options, around),
            Part::Variants(variants) => self.variants(variants, around),
            Part::Stop(line, kind) => self.mark(line, kind, Branches::None, around),
            Part::Return(call) => {
                self.leave(call);
                Ok(())
            }
        }
    }

    /// What stands round a process behind these declarations.
    fn inside(
        &mut self,
        declarations: &'t [Decl],
        around: Around<'t>,
    ) -> Result<Around<'t>, AllocError> {
        let mut scope = around.scope;
        for declaration in declarations {
            if let Decl::Item(item) = declaration {
                self.begun = true;
                scope = self.declared(item, scope)?;
            }
        }
        Ok(Around {
            scope,
            name: around.name,
            call: around.call,
        })
    }

    /// The scope behind an item.
    pub fn declared(&mut self, item: &'t Item, scope: usize) -> Result<usize, AllocError> {
        match item {
            Item::Proc(first, name, _, body, last) => self.declared_procedure(Procedure {
                name: name.as_slice(),
                body,
                outer: scope,
                first: *first,
                last: *last,
            }),
            Item::Value(_, _, _, _) => Ok(scope),
            Item::Protocol(_) => Ok(scope),
        }
    }

    fn declared_procedure(&mut self, procedure: Procedure<'t>) -> Result<usize, AllocError> {
        if self.looks == 0 {
            self.lost = true;
            return Ok(procedure.outer);
        }
        self.looks -= 1;
        self.procedures.declare(procedure)
    }

    fn process(&mut self, process: &'t Process, around: Around<'t>) -> Result<(), AllocError> {
        let Process::Declared(declarations, line, statement) = process;
        let inside = self.inside(declarations, around)?;
        self.statement(*line, statement, inside)
    }

    fn processes(
        &mut self,
        processes: &'t [Process],
        around: Around<'t>,
    ) -> Result<(), AllocError> {
        match processes.split_first() {
            Some((first, others)) => self.in_turn(Part::One(first), Part::All(others), around),
            None => Ok(()),
        }
    }

    fn statement(
        &mut self,
        line: u32,
        statement: &'t Stmt,
        around: Around<'t>,
    ) -> Result<(), AllocError> {
        match statement {
            Stmt::Action(action) => self.action(line, action, around),
            Stmt::Seq(processes) => self.later(Part::All(processes), around),
            Stmt::SeqFor(_, body) => {
                self.in_turn(Part::One(body), Part::Stop(line, Kind::Loop), around)
            }
            Stmt::Par(processes) => self.beside(line, processes, around),
            Stmt::ParFor(replicator, body) => self.copies(line, &replicator.count, body, around),
            Stmt::Alt(_, arms) => {
                self.in_turn(Part::Arms(arms), Part::Stop(line, Kind::Alt), around)
            }
            Stmt::AltFor(_, _, arm) => {
                let arms = std::slice::from_ref(&**arm);
                self.in_turn(Part::Arms(arms), Part::Stop(line, Kind::Alt), around)
            }
            Stmt::If(choices) => {
                self.in_turn(Part::Choices(choices), Part::Stop(line, Kind::If), around)
            }
            Stmt::IfFor(_, choice) => {
                let choices = std::slice::from_ref(&**choice);
                self.in_turn(Part::Choices(choices), Part::Stop(line, Kind::If), around)
            }
            Stmt::Case(_, options) => {
                self.begun = true;
                self.in_turn(Part::Options(options), Part::Else(line, options), around)
            }
            Stmt::While(_, body) => {
                self.in_turn(Part::One(body), Part::Stop(line, Kind::Loop), around)
            }
            Stmt::Variants(_, variants) => {
                self.mark(line, Kind::Input, Branches::None, around)?;
                self.tagged(line, Part::Variants(variants), around)
            }
        }
    }

    /// The branches of a PAR, where it has any.
    fn beside(
        &mut self,
        line: u32,
        processes: &'t [Process],
        around: Around<'t>,
    ) -> Result<(), AllocError> {
        if processes.is_empty() {
            return Ok(());
        }
        self.mark(line, Kind::Par, Branches::Each(processes), around)
    }

    /// The branches of a replicated PAR, where it may have any.
    fn copies(
        &mut self,
        line: u32,
        count: &Expr,
        body: &'t Process,
        around: Around<'t>,
    ) -> Result<(), AllocError> {
        match literal(count) {
            Some(0) => Ok(()),
            Some(_) => self.mark(line, Kind::Par, Branches::Copies(body), around),
            None => self.mark(line, Kind::Par, Branches::Maybe(body), around),
        }
    }

    /// What is done for the tags of an input in this line.
    fn tagged(&mut self, line: u32, part: Part<'t>, around: Around<'t>) -> Result<(), AllocError> {
        self.in_turn(part, Part::Stop(line, Kind::Variants), around)
    }

    fn action(
        &mut self,
        line: u32,
        action: &'t Action,
        around: Around<'t>,
    ) -> Result<(), AllocError> {
        match action {
            Action::Skip => Ok(()),
            Action::Stop => self.mark(line, Kind::Stop, Branches::None, around),
            Action::Assign(_, _) => {
                self.do_part();
                Ok(())
            }
            Action::Input(input) => self.input(line, input, around),
            Action::Output(_, _) => self.mark(line, Kind::Output, Branches::None, around),
            Action::Call(name, _) => self.call(line, name.as_slice(), around),
        }
    }

    fn input(&mut self, line: u32, input: &'t Input, around: Around<'t>) -> Result<(), AllocError> {
        self.mark(line, Kind::Input, Branches::None, around)?;
        self.do_part();
        if has_tag(input) {
            self.mark(line, Kind::Variants, Branches::None, around)?;
        }
        Ok(())
    }

    /// The body of the PROC of this name, which is called in this line.
    fn call(&mut self, line: u32, name: &'t [u8], around: Around<'t>) -> Result<(), AllocError> {
        match self.procedures.find(name, around.scope, &mut self.looks) {
            Some(procedure) => {
                let call = self.calls.enter(line, procedure, around.call, self.done)?;
                self.begun = true;
                let around = Around {
                    scope: procedure.outer,
                    name: procedure.name,
                    call,
                };
                self.in_turn(Part::One(procedure.body), Part::Return(call), around)
            }
            None => {
                self.lost = true;
                Ok(())
            }
        }
    }

    fn arms(&mut self, arms: &'t [Arm], around: Around<'t>) -> Result<(), AllocError> {
        match arms.split_first() {
            Some((first, others)) => {
                self.later(Part::Arms(others), around)?;
                self.arm(first, around)
            }
            None => Ok(()),
        }
    }

    fn arm(&mut self, arm: &'t Arm, around: Around<'t>) -> Result<(), AllocError> {
        match arm {
            Arm::Guarded(declarations, line, guard, body) => {
                let inside = self.inside(declarations, around)?;
                self.guarded(*line, guard, body, inside)
            }
            Arm::OnVariant(declarations, line, _, variants) => {
                let inside = self.inside(declarations, around)?;
                self.later(Part::Stop(*line, Kind::Arm), inside)?;
                self.tagged(*line, Part::Variants(variants), inside)
            }
            Arm::InnerAlt(declarations, _, _, arms) => {
                let inside = self.inside(declarations, around)?;
                self.later(Part::Arms(arms), inside)
            }
            Arm::InnerAltFor(declarations, _, _, _, arm) => {
                let inside = self.inside(declarations, around)?;
                self.later(Part::Arms(std::slice::from_ref(&**arm)), inside)
            }
        }
    }

    /// The process of an arm, behind which the code has what opens the arm.
    fn guarded(
        &mut self,
        line: u32,
        guard: &'t Guard,
        body: &'t Process,
        around: Around<'t>,
    ) -> Result<(), AllocError> {
        match guard {
            Guard::Input(_, input) => {
                self.do_part();
                self.later(Part::Stop(line, Kind::Arm), around)?;
                if has_tag(input) {
                    self.tagged(line, Part::One(body), around)
                } else {
                    self.later(Part::One(body), around)
                }
            }
            Guard::Skip(_) => self.later(Part::One(body), around),
        }
    }

    fn choices(&mut self, choices: &'t [Choice], around: Around<'t>) -> Result<(), AllocError> {
        match choices.split_first() {
            Some((first, others)) => {
                self.later(Part::Choices(others), around)?;
                self.choice(first, around)
            }
            None => Ok(()),
        }
    }

    fn choice(&mut self, choice: &'t Choice, around: Around<'t>) -> Result<(), AllocError> {
        match choice {
            Choice::When(declarations, _, _, body) => {
                let inside = self.inside(declarations, around)?;
                self.later(Part::One(body), inside)
            }
            Choice::InnerIf(declarations, _, choices) => {
                let inside = self.inside(declarations, around)?;
                self.later(Part::Choices(choices), inside)
            }
            Choice::InnerIfFor(declarations, _, _, choice) => {
                let inside = self.inside(declarations, around)?;
                self.later(Part::Choices(std::slice::from_ref(&**choice)), inside)
            }
        }
    }

    fn options(&mut self, options: &'t [Selection], around: Around<'t>) -> Result<(), AllocError> {
        match options.split_first() {
            Some((first, others)) => {
                self.later(Part::Options(others), around)?;
                self.option(first, around)
            }
            None => Ok(()),
        }
    }

    fn option(&mut self, option: &'t Selection, around: Around<'t>) -> Result<(), AllocError> {
        match option {
            Selection::Values(declarations, _, _, body) => {
                let inside = self.inside(declarations, around)?;
                self.later(Part::One(body), inside)
            }
            Selection::Else(_, _, _) => Ok(()),
        }
    }

    /// The process of ELSE, or the stop where there is none.
    fn otherwise(
        &mut self,
        line: u32,
        options: &'t [Selection],
        around: Around<'t>,
    ) -> Result<(), AllocError> {
        for option in options {
            if let Selection::Else(declarations, _, body) = option {
                let inside = self.inside(declarations, around)?;
                return self.later(Part::One(body), inside);
            }
        }
        self.mark(line, Kind::Case, Branches::None, around)
    }

    fn variants(&mut self, variants: &'t [Variant], around: Around<'t>) -> Result<(), AllocError> {
        match variants.split_first() {
            Some((first, others)) => {
                self.later(Part::Variants(others), around)?;
                self.variant(first, around)
            }
            None => Ok(()),
        }
    }

    fn variant(&mut self, variant: &'t Variant, around: Around<'t>) -> Result<(), AllocError> {
        let Variant::Tagged(declarations, _, _, _, body) = variant;
        let inside = self.inside(declarations, around)?;
        self.do_part();
        self.later(Part::One(body), inside)
    }
}
