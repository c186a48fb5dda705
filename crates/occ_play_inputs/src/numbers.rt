//! The numbers that the words of the command line give.
ghost use Rattle.std.specs.Prelude.{◌≤◌, IfOk, IsTrue};
ghost use Rattle.std.specs.Option.{ForSome};
ghost use Rattle.occ_choices.specs.Crews.{IsCrew};
ghost use Rattle.occ_play_inputs.specs.Numbers.{AreNumbers, IsNumber};

use crate::words::{
    DEFAULT_ARROWS, DEFAULT_LIMIT, DEFAULT_MEMORY, DEFAULT_STATES, DEFAULT_TRIES, MOST_MEMORY,
    MOST_SEED, MOST_STATES, MOST_TRIES, MOST_TURNS, Numbers,
};
use clap::ArgMatches;
use occ_choices::is_crew;
use occ_code::MOST_QUANTUM;

/// The numbers that the words give, each of them where they do.
#[derive(Clone, Copy)]
struct Given {
    limit: Option<u32>,
    quantum: Option<u32>,
    workers: Option<u32>,
    states: Option<u32>,
    memory: Option<u32>,
    seed: Option<u32>,
    tries: Option<u32>,
    arrows: Option<u32>,
}

/// The numbers of these words, or what is told where one of them is past its range.
pub(crate) fn numbers_of(matches: &ArgMatches<'_>) -> Result<Numbers, &'static str> {
    numbers_in(Given {
        limit: matches.get_one::<u32>("limit"),
        quantum: matches.get_one::<u32>("quantum"),
        workers: matches.get_one::<u32>("workers"),
        states: matches.get_one::<u32>("states"),
        memory: matches.get_one::<u32>("memory"),
        seed: matches.get_one::<u32>("seed"),
        tries: matches.get_one::<u32>("tries"),
        arrows: matches.get_one::<u32>("arrows"),
    })
}

/// Each number that is given, and for the others what stands for them; or what is told where one of them is past its range.
fn numbers_in(given: Given) -> Result<Numbers, &'static str>
    ensures { IfOk result (AreNumbers given) }
{
    let Given {
        limit,
        quantum,
        workers,
        states,
        memory,
        seed,
        tries,
        arrows,
    } = given;
    let limit = number_in(
        limit,
        DEFAULT_LIMIT,
        0,
        MOST_TURNS,
        "the limit is 0 to 10000000 turns",
    )?;
    let quantum = number_in(quantum, 1, 1, MOST_QUANTUM, "the quantum is 1 to 65536")?;
    let states = number_in(
        states,
        DEFAULT_STATES,
        1,
        MOST_STATES,
        "the states are 1 to 10000000",
    )?;
    let memory = number_in(
        memory,
        DEFAULT_MEMORY,
        1,
        MOST_MEMORY,
        "the memory is 1 to 1000000 MB",
    )?;
    let tries = number_in(
        tries,
        DEFAULT_TRIES,
        1,
        MOST_TRIES,
        "the tries are 1 to 1000000",
    )?;
    if !are_workers(workers) {
        return Err("the number of workers is 1 to 64");
    }
    if !is_seed(seed) {
        return Err("the seed is 0 to 1000000000");
    }
    let arrows = arrows.unwrap_or(DEFAULT_ARROWS);
    Ok(Numbers {
        limit,
        quantum,
        workers,
        states,
        memory,
        seed,
        tries,
        arrows,
    })
}

/// This number, or the default where none is given, if it is none below the least and none above the most; else what is told then.
fn number_in(
    given: Option<u32>,
    default: u32,
    least: u32,
    most: u32,
    told: &'static str,
) -> Result<u32, &'static str>
    ensures { IfOk result (IsNumber given default least most) }
{
    let number = given.unwrap_or(default);
    if number < least || number > most {
        Err(told)
    } else {
        Ok(number)
    }
}

/// Whether there may be so many workers; none are the program's own thread.
fn are_workers(given: Option<u32>) -> bool
    ensures { IsTrue result → ForSome given IsCrew }
{
    match given {
        Some(workers) => is_crew(workers),
        None => true,
    }
}

/// Whether choices may be made from this number, where one is given.
fn is_seed(given: Option<u32>) -> bool
    ensures { IsTrue result → ForSome given (λ n. n ≤ 1000000000) }
{
    match given {
        Some(seed) => seed <= MOST_SEED,
        None => true,
    }
}
