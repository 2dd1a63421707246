//! Worked examples of the commands and of their arguments, as tests: what only a call can show,
//! such as devices that fail, and refused memory. What a user can type is a case of `tests/cases`.
//! It has no code of its own.
#![tactic(auto)]

#[cfg(test)]
mod logs;
#[cfg(test)]
mod parsing;
#[cfg(test)]
mod runs;
#[cfg(test)]
mod samples;
