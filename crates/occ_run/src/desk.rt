//! What lies under the lock: how far the workers have come, beside the token that knows which turns are out. So a turn that comes
//! back is the network's own.
ghost use Rattle.std.specs.Prelude.{◌≡◌, IfOk, IfSome, None};
ghost use Rattle.crossbeam_utils.specs.Seq.{cell_view};
ghost use Rattle.occ_net.specs.Networks.{fresh};
ghost use Rattle.occ_run.specs.Held.{IsConcluded};
ghost use Rattle.occ_run.specs.Steps.{IsWake, first_stop};
ghost use Rattle.occ_board.specs.Editions.{blank, reached};
ghost use Rattle.occ_run.specs.Telling.{IsTake};
ghost use Rattle.occ_run.specs.Tokens.{opening, teller};
ghost use Rattle.occ_run.specs.declared.progress.Stop.TheVariants as stop;

use crate::gate::Gate;
use crate::progress::{Done, Next, Progress, Wake};
use crate::stretch::take_turns;
use crate::taking::all_of;
use crate::tokens::{Token, Tokens, come_back, end, go_out};
use occ_board::{Front, Head};
use occ_machine::Task;
use occ_net::Lease;
use occ_net_tables::{Mark, News};
use occ_proc::Scratch;
use std::alloc::{AllocError, Global};
use std::marker::{Brand, Model, PhantomData};
use std::sync::Wait;

/// Which run it is. A function that is generic over it has one run; each call of such a function names another, by `Brand`.
pub trait OneRun {
    ghost use Rattle.std.specs.Prelude.{List, ℕ};
    ghost use Rattle.atomic_table.specs.Seated.{TableId};
    ghost use Rattle.logbook.specs.Pages.{Book};
    ghost use Rattle.occ_machine.specs.Compiled.{Program};

    ghost program: { Program };

    ghost keyboard: { List ℕ };

    ghost limit: { ℕ };

    ghost tokens: { TableId };

    ghost takings: { Book };
}

impl OneRun for Brand {
    ghost use Rattle.std.specs.Prelude.{[]};
    ghost use Rattle.occ_run.specs.Held.{no_program, no_tokens};

    ghost program = { no_program };

    ghost keyboard = { [] };

    ghost limit = { 0 };

    ghost tokens = { no_tokens };

    ghost takings = { record { number = 0; log_name = 0; cells_name = 0 } };
}

/// A token of a run that a thread has. Contracts see what it knows.
#[derive(Drop)]
pub(crate) struct Ticket<U: OneRun> {
    token: Token,
    run: PhantomData<U>,
}

impl<U: OneRun> Model for Ticket<U> {
    ghost use Rattle.std.specs.Prelude.{◌≡◌, []};
    ghost use Rattle.crossbeam_utils.specs.Seq.{cell_view};
    ghost use Rattle.occ_run.specs.declared.tokens.Known.{Known};

    ghost Value = { Known };

    ghost view = { λ t. cell_view t.token };

    ghost invariant = { λ t. (t.token.table_id ≡ U.tokens) × (t.token.me.1 ≡ []) };
}

/// A turn that is out, and how many may be taken in a row.
#[derive(Drop)]
pub(crate) struct Turn<U: OneRun> {
    lease: Lease,
    most: u32,
    ticket: Ticket<U>,
}

impl<U: OneRun> Model for Turn<U> {
    ghost use Rattle.occ_net.specs.declared.leasing.Lease.{Lease};
    ghost use Rattle.occ_run.specs.Held.{IsTurnOut};

    ghost Value = { Lease };

    ghost view = { λ t. t.lease };

    ghost invariant = { λ t. IsTurnOut U.program t.lease t.ticket };
}

/// Turns that were taken in a row, or refused, and come back. Contracts see what their token knows.
#[derive(Drop)]
pub(crate) struct Ran<U: OneRun> {
    done: Done,
    ticket: Ticket<U>,
}

impl<U: OneRun> Model for Ran<U> {
    ghost use Rattle.occ_run.specs.declared.tokens.Known.{Known};
    ghost use Rattle.occ_run.specs.Held.{IsTurnOf};

    ghost Value = { Known };

    ghost view = { λ r. r.ticket };

    ghost invariant = { λ r. IsTurnOf U.program r.done r.ticket };
}

/// What a worker does next.
#[derive(Drop)]
pub(crate) enum Step<U: OneRun> {
    /// Takes this turn.
    Take(Turn<U>),
    /// Rests until it is woken.
    Rest,
    /// Leaves.
    Leave,
}

/// What lies under the lock. Contracts see how far the workers have come.
#[derive(Drop)]
pub(crate) struct Desk<U: OneRun> {
    progress: Progress,
    keeper: Token,
    /// How much of the trace was taken.
    head: Head,
    told: Front,
    run: PhantomData<U>,
}

impl<U: OneRun> Model for Desk<U> {
    ghost use Rattle.std.specs.Prelude.{◌≡◌};
    ghost use Rattle.crossbeam_utils.specs.Seq.{cell_view};
    ghost use Rattle.occ_run.specs.declared.progress.Progress.{Progress};
    ghost use Rattle.occ_run.specs.Held.{IsHeld};
    ghost use Rattle.occ_run.specs.Telling.{IsBehind};

    ghost Value = { Progress };

    ghost view = { λ d. d.progress };

    ghost invariant = { λ d. (d.keeper.table_id ≡ U.tokens) × IsHeld U.program U.keyboard U.limit d.progress (cell_view d.keeper) × IsBehind U.takings U.program d.progress.network d.head d.told };
}

impl<U: OneRun> Turn<U> {
    /// Takes the turn by the gate, and those behind it.
    pub fn take<G: Gate>(self, alloc: Global, gate: &G, scratch: &mut Scratch) -> Ran<U> {
        let Turn {
            lease,
            most,
            ticket,
        } = self;
        let done = take_turns(alloc, gate, scratch, lease, most);
        Ran { done, ticket }
    }
}

impl<U: OneRun> Desk<U> {
    /// The start of a run.
    pub fn new(progress: Progress, keeper: Token, head: Head, told: Front) -> Desk<U>
        requires network { progress.network ≡ fresh U.program U.keyboard }
        requires limit { progress.limit ≡ U.limit }
        requires stop { progress.stop ≡ None }
        requires opening_keeper { (keeper.table_id ≡ U.tokens) × (cell_view keeper ≡ opening) }
        requires takings { (head ≡ U.takings) × (told ≡ reached U.takings blank) }
        ensures { result ≡ progress }
    {
        Desk {
            progress,
            keeper,
            head,
            told,
            run: PhantomData,
        }
    }

    /// How far the workers have come.
    pub fn progress(&self) -> &Progress
        ensures { result.now ≡ self.now }
    {
        &self.progress
    }

    /// Takes the trace: copies what it has behind the mark into `news`, and puts the mark behind all of it. What was taken before
    /// begins it. It is refused as if memory had run out where another takes too, as none does.
    pub fn take(
        &mut self,
        mine: &Front,
        mark: &mut Mark,
        news: &mut News,
    ) -> Result<Front, AllocError>
        requires { mine.now.book ≡ U.takings }
        ensures same { self.new ≡ self.old }
        ensures takes { IfOk result
            (λ f. IsTake U.program U.keyboard U.limit mine.now mark.old f mark.new news.new) }
    {
        self.progress.network.replayed();
        if mine.goes_past(&self.told) {
            return Err(AllocError);
        }
        let trace = self.progress.network.trace();
        let next = all_of::<U>(&self.head, &self.told, trace).ok_or(AllocError)?;
        trace.copy_behind(mark, news)?;
        let _count = trace.len();
        *mark = trace.mark();
        self.told = next.again();
        Ok(next)
    }

    /// What a worker does next. A turn that it takes is out.
    pub fn next(&mut self, alloc: Global, tokens: &Tokens) -> Step<U>
        requires { tokens.now.table.shared.table_id ≡ U.tokens }
    {
        self.progress.network.replayed();
        match self.progress.next(alloc) {
            Next::Run(lease, most) => {
                let token = go_out(tokens, &mut self.keeper, &lease.task);
                let ticket = Ticket {
                    token,
                    run: PhantomData,
                };
                Step::Take(Turn {
                    lease,
                    most,
                    ticket,
                })
            }
            Next::Rest => Step::Rest,
            Next::Leave => Step::Leave,
        }
    }

    /// Takes in turns that come back, or gives their process back. The task that the network had, where they were settled, is
    /// handed out.
    pub fn take_in<R: Wait>(
        &mut self,
        rt: &R,
        alloc: Global,
        tokens: &Tokens,
        ran: Ran<U>,
    ) -> Option<Task>
        requires { tokens.now.table.shared.table_id ≡ U.tokens }
    {
        let Ran { done, ticket } = ran;
        let Ticket { token, run: _ } = ticket;
        come_back(rt, tokens, &mut self.keeper, token);
        self.progress.network.replayed();
        self.progress.take_in(alloc, done)
    }

    /// Which workers are to be woken now; they count as woken.
    pub fn wake(&mut self) -> Wake
        ensures { IsWake self.old self.new result }
    {
        self.progress.wake()
    }

    /// Stops the run, since a thread was refused.
    pub fn refuse_thread(&mut self)
        ensures { self.new.stop ≡ first_stop self.old.stop stop.Spawn }
    {
        self.progress.refuse_thread();
    }

    /// Stops the run, since a growth was refused beside it.
    pub fn refuse_growth(&mut self)
        ensures { self.new.stop ≡ first_stop self.old.stop stop.Memory }
    {
        self.progress.refuse_growth();
    }

    /// A word that the run is over, where it is.
    pub fn ended(&mut self, tokens: &Tokens) -> Option<Ticket<U>>
        requires { tokens.now.table.shared.table_id ≡ U.tokens }
        ensures { IfSome result (λ ticket. ticket ≡ teller) }
    {
        match self.progress.next_pick() {
            Some(_) => None,
            None => {
                let token = end(tokens, &mut self.keeper);
                Some(Ticket {
                    token,
                    run: PhantomData,
                })
            }
        }
    }

    /// How far the workers came, where one has a word that the run is over.
    pub fn conclude<R: Wait>(self, rt: &R, tokens: &Tokens, ended: Ticket<U>) -> Progress
        requires tokens { tokens.now.table.shared.table_id ≡ U.tokens }
        requires ended { ended ≡ teller }
        ensures same { result ≡ self }
        ensures over { IsConcluded U.program U.keyboard U.limit result }
    {
        let Desk {
            progress,
            mut keeper,
            head: _head,
            told: _told,
            run: _,
        } = self;
        let Ticket { token, run: _ } = ended;
        come_back(rt, tokens, &mut keeper, token);
        progress
    }
}
