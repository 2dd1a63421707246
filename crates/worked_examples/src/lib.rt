//! Worked examples of the calls of `sweep_core` and the libraries below it, as tests: what only a
//! call can show, such as devices that fail, what a call returns beside its text, and refused
//! memory. Those of the commands are in `worked_runs`; what a user can type is a case of
//! `tests/cases`. It has no code of its own.
#![tactic(auto)]

#[cfg(test)]
mod caches;
#[cfg(test)]
mod devices;
#[cfg(test)]
mod memory;
#[cfg(test)]
mod policies;
#[cfg(test)]
mod profiles;
#[cfg(test)]
mod reader;
#[cfg(test)]
mod rows;
#[cfg(test)]
mod samples;
#[cfg(test)]
mod sweeps;
#[cfg(test)]
mod systems;
#[cfg(test)]
mod texts;
