//! Laws of the definitions. Each function's contract is the law; its body does nothing.

ghost use Rattle.occ_term.specs.Priority.{PriorityTakesFirst};
ghost use Rattle.occ_machine.specs.declared.task.Arm.{Arm};
ghost use Rattle.occ_net_replay.specs.Converse.{EndedRunsAreReplays, RunsAreAsShort, RunsAreReplays};
ghost use Rattle.occ_net_replay.specs.StepConverse.{EndedStepRunsAreRuns, StepRunsAreRuns};
ghost use Rattle.occ_net_replay.specs.Choosing.{ChoicesTakeReadyArms, OffersReachChoices};
ghost use Rattle.occ_net_replay.specs.Examples.{ChoiceRows, ClosedRows, EndingRows, ForkRows, LateOfferRows, ListenRows, MeetingRows, NotedRows, FirstWithPriority, SkipRows, StopRows, TurnRows};
ghost use Rattle.occ_net_replay.specs.Following.{NotedNeverEnd, OneNeverForks, ReadyTasksStop, ReplaysAreRuns};
ghost use Rattle.occ_net_replay.specs.MomentExamples.{EitherArmRows, MissingRows, OtherArmRows, OtherStopRows, OtherStoreRows, SameStopRows, UnquietRows};
ghost use Rattle.occ_net_replay.specs.Moments.{OneRunForAll, ReadyGoOn, ReplaysAreOneRun};
ghost use Rattle.occ_net_replay.specs.OneReplay.{OneReplay};
ghost use Rattle.occ_net_replay.specs.Sharing.{ReplaysShareStore};
ghost use Rattle.occ_net_replay.specs.Waiting.{MainTurnsAlone, TurnsAreFew, TurnsForkAlone, TurnsListenAlone, TurnsAreApart, TurnsHearNoScreen, TurnsNeverTake, TurnsOfferAlone};

/// A replay of the code of a lawful program is a run of the program.
pub fn replays_are_runs()
    ensures { ReplaysAreRuns }
{}

/// A replay that has noted a fault never comes to its end.
pub fn noted_never_end()
    ensures { NotedNeverEnd }
{}

/// In a replay each task that may take a turn has one.
pub fn ready_tasks_stop()
    ensures { ReadyTasksStop }
{}

/// A turn of the one process of a program never ends at a fork.
pub fn one_never_forks()
    ensures { OneNeverForks }
{}

/// What happens in small networks: who takes a turn, what meets, which arm is taken, forks, joins,
/// faults and endings.
pub fn small_networks()
    ensures turns { TurnRows }
    ensures meetings { MeetingRows }
    ensures choices { ChoiceRows }
    ensures priority { FirstWithPriority }
    ensures forks { ForkRows }
    ensures noted { NotedRows }
    ensures endings { EndingRows }
    ensures stops { StopRows }
{}

/// Which arm is taken in small networks: where arms are closed, where there is SKIP, where an offer or
/// a byte comes to a process that waits; and on which channels that one waits.
pub fn small_choices()
    ensures closed { ClosedRows }
    ensures skip { SkipRows }
    ensures late { LateOfferRows }
    ensures listening { ListenRows }
{}

/// Stops that are alike and stops that are not, networks in which something is possible that needs no
/// turn, a store that is not the replay's, and an arm that is not the one of the code.
pub fn small_moments()
    ensures same { SameStopRows }
    ensures other { OtherStopRows }
    ensures missing { MissingRows }
    ensures unquiet { UnquietRows }
    ensures store { OtherStoreRows }
    ensures either { EitherArmRows }
    ensures arm { OtherArmRows }
{}

/// A process that comes to a choice takes a ready arm at once, by the number of its turn.
pub fn choices_take_ready_arms()
    ensures { ChoicesTakeReadyArms }
{}

/// An offer that reaches a process which waits at a choice is taken by an arm on its channel, by the
/// number of the turn of the one that offers.
pub fn offers_reach_choices()
    ensures { OffersReachChoices }
{}

/// In a replay each task can count one turn more.
pub fn turns_are_few()
    ensures { TurnsAreFew }
{}

/// No two processes offer on one channel.
pub fn turns_offer_alone()
    ensures { TurnsOfferAlone }
{}

/// No two processes wait for a message on one channel, by an input or by an arm.
pub fn turns_listen_alone()
    ensures { TurnsListenAlone }
{}

/// No turn ends with a message taken.
pub fn turns_never_take()
    ensures { TurnsNeverTake }
{}

/// The branches of a fork are nobody's but its own.
pub fn turns_fork_alone()
    ensures { TurnsForkAlone }
{}

/// The processes of a replay share the store of the run that follows it.
pub fn replays_share_store()
    ensures { ReplaysShareStore }
{}

/// With priority a choosing process takes its first ready arm, whatever the pick.
pub fn priority_takes_first()
    ensures { PriorityTakesFirst (λ (a : Arm). a.chan) }
{}

/// The same choices have one replay.
pub fn one_replay()
    ensures { OneReplay }
{}

/// One run of the source goes with a replay from its start on, turn by turn, with its communications, its
/// faults and its ending. At every moment each process is at the same stop, the frames share the one store,
/// and nothing is possible that needs no turn.
pub fn replays_are_one_run()
    ensures { ReplaysAreOneRun }
{}

/// The replays of a program have a run each, and that of one choice more is that of the others with one
/// turn more.
pub fn one_run_for_all()
    ensures { OneRunForAll }
{}

/// Each run of the program is that of some choices: their replay has its turns, its communications, its
/// faults and its ending, and comes to its very system.
pub fn runs_are_replays()
    ensures { RunsAreReplays }
{}

/// Where a run has come to an ending, some list of choices comes to it too, with the run's communications.
pub fn ended_runs_are_replays()
    ensures { EndedRunsAreReplays }
{}

/// Where no replay has more turns than so many, no run of the program has.
pub fn runs_are_as_short()
    ensures { RunsAreAsShort }
{}

/// A process that a choice may select goes on in the run.
pub fn ready_go_on()
    ensures { ReadyGoOn }
{}

/// The next turns of two processes end on different channels.
pub fn turns_are_apart()
    ensures { TurnsAreApart }
{}

/// No turn ends at an input from the screen's channel or from the error channel.
pub fn turns_hear_no_screen()
    ensures { TurnsHearNoScreen }
{}

/// Where the main process may take a turn, nobody else may.
pub fn main_turns_alone()
    ensures { MainTurnsAlone }
{}

/// In whatever order its steps are taken, a program has the communications of some run by turns, and so of
/// the replay of some choices.
pub fn step_runs_are_runs()
    ensures { StepRunsAreRuns }
{}

/// Where a program has come to an ending, in whatever order its steps were taken, some run by turns and the
/// replay of some choices have come to it, with the same communications.
pub fn ended_step_runs_are_runs()
    ensures { EndedStepRunsAreRuns }
{}
