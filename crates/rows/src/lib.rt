//! Tests of what only a caller of the libraries sees: the folder `tests` has what a built program shows.
#![tactic(auto)]

#[cfg(test)]
mod board;
#[cfg(test)]
mod compared;
#[cfg(test)]
mod growths;
#[cfg(test)]
mod heads;
#[cfg(test)]
mod inputs;
#[cfg(test)]
mod known;
#[cfg(test)]
mod laws;
#[cfg(test)]
mod live;
#[cfg(test)]
mod plans;
#[cfg(test)]
mod refused;
#[cfg(test)]
mod settled;
#[cfg(test)]
mod sources;
#[cfg(test)]
mod threads;
#[cfg(test)]
mod told;
#[cfg(test)]
mod turned;
#[cfg(test)]
mod writers;
