//! What ties a turn that is out to the network under the lock: tokens, which have no bytes.
ghost use Rattle.std.specs.Prelude.{◌≡◌, [], true, IfOk};
ghost use Rattle.crossbeam_utils.specs.Seq.{cell_view};
ghost use Rattle.occ_run.specs.Tokens.{AreOthers, Checked, IsKeeper, holder, keeper, keeper_with, opening, shown_beside, teller};

use atomic_table::{Join, Split};
use crossbeam_utils::atomic::seq_cell::{Pass, RuledSeqCell};
use crossbeam_utils::rule::{Outcome, Protocol};
use occ_machine::Task;
use std::alloc::{AllocError, Global};
use std::collections::LinkedList;
use std::marker::{Brand, PhantomData};
use std::sync::Wait;

/// What a token knows. No value of it is made.
pub struct Known {
    /// Whether it is the one that lies under the lock, and then, which turns are out, and whether the run is over.
    pub keeps: bool,
    pub out: LinkedList<Task>,
    pub over: bool,
    /// The turn that its worker has.
    pub has: Option<Task>,
    /// Whether its thread has seen the end of the run.
    pub ended: bool,
}

/// The rule of the tokens of a run.
pub struct Law;

impl Protocol<[u64; 0], Known> for Law {
    ghost use Rattle.occ_run.specs.Tokens.{KeptTokens, opening};

    ghost holds = { KeptTokens };

    ghost first = { opening };
}

/// The tokens of one run.
pub type Tokens = RuledSeqCell<[u64; 0], Known, Law, 0>;

/// A token: of a turn that is out, of the end, or of all turns that are out.
pub type Token = Pass<[u64; 0], Known>;

/// Names a task.
pub trait Named {
    ghost use Rattle.occ_machine.specs.declared.task.Task.{Task};

    ghost task: { Task };
}

impl Named for Brand {
    ghost use Rattle.occ_run.specs.Tokens.{no_task};

    ghost task = { no_task };
}

/// A turn goes out.
struct Goes<O>(PhantomData<O>);

impl<O: Named> Split<Known> for Goes<O> {
    ghost use Rattle.occ_run.specs.Tokens.{holder, with_turn};

    ghost left = { λ v. with_turn O.task v };

    ghost right = { λ v. holder O.task };
}

/// The run is over.
struct Ends;

impl Split<Known> for Ends {
    ghost use Rattle.occ_run.specs.Tokens.{teller, at_end};

    ghost left = { at_end };

    ghost right = { λ v. teller };
}

/// A token comes back.
struct Returns;

impl Join<Known> for Returns {
    ghost use Rattle.occ_run.specs.Tokens.{shown_beside, nobody};

    ghost both = { shown_beside };

    ghost spent = { nobody };
}

/// What it says is compared.
struct Checks;

impl Outcome<[u64; 0], Known> for Checks {
    ghost use Rattle.occ_run.specs.Tokens.{Checked};

    ghost then = { Checked };
}

/// The tokens of a run, and the keeper's.
pub fn new_tokens(alloc: Global) -> Result<(Tokens, Token), AllocError>
    ensures { IfOk result (λ r. (r.1.table_id ≡ r.0.table.shared.table_id)
        × (cell_view r.1 ≡ opening)) }
{
    Tokens::ruled(alloc, [])
}

fn go_out_as<O: Named>(tokens: &Tokens, all: &mut Token, task: &Task) -> Token
    requires named { task.now ≡ O.task }
    requires own { all.old.table_id ≡ tokens.now.table.shared.table_id }
    requires keeps { IsKeeper (cell_view all.old) }
    requires other { AreOthers task.now.number (cell_view all.old).out }
    ensures same { all.new.table_id ≡ all.old.table_id }
    ensures kept { cell_view all.new ≡ keeper_with task.now (cell_view all.old) }
    ensures given { (result.table_id ≡ all.old.table_id) × (result.me.1 ≡ [])
        × (cell_view result ≡ holder task.now) }
{
    let _task = task;
    tokens.split_pass::<Goes<O>>(all)
}

/// A turn goes out with a token of its own, where no turn of its process is out.
pub fn go_out(tokens: &Tokens, all: &mut Token, task: &Task) -> Token
    requires own { all.old.table_id ≡ tokens.now.table.shared.table_id }
    requires keeps { IsKeeper (cell_view all.old) }
    requires other { AreOthers task.now.number (cell_view all.old).out }
    ensures same { all.new.table_id ≡ all.old.table_id }
    ensures kept { cell_view all.new ≡ keeper_with task.now (cell_view all.old) }
    ensures given { (result.table_id ≡ all.old.table_id) × (result.me.1 ≡ [])
        × (cell_view result ≡ holder task.now) }
{
    go_out_as::<Brand>(tokens, all, task)
}

/// The run is over, which a new token says.
pub fn end(tokens: &Tokens, all: &mut Token) -> Token
    requires own { all.old.table_id ≡ tokens.now.table.shared.table_id }
    requires keeps { IsKeeper (cell_view all.old) }
    ensures kept { (all.new.table_id ≡ all.old.table_id)
        × (cell_view all.new ≡ keeper (cell_view all.old).out true) }
    ensures given { (result.table_id ≡ all.old.table_id) × (result.me.1 ≡ [])
        × (cell_view result ≡ teller) }
{
    tokens.split_pass::<Ends>(all)
}

/// A token comes back. What it says is so.
pub fn come_back<R: Wait>(rt: &R, tokens: &Tokens, all: &mut Token, token: Token)
    requires own { all.old.table_id ≡ tokens.now.table.shared.table_id }
    requires other { (token.table_id ≡ all.old.table_id) × (token.me.1 ≡ []) }
    requires keeps { IsKeeper (cell_view all.old) }
    ensures kept { all.new.table_id ≡ all.old.table_id }
    ensures checked { Checked (shown_beside (cell_view all.old) (cell_view token)) [] []
        (cell_view all.new) }
{
    tokens.join_pass::<Returns>(all, token);
    tokens.load_as::<Checks, R>(rt, all);
}
