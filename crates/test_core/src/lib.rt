//! Tests of the core: worked schedules, invalid calls, and a run whose core comes to its limits; of journals: as text, of cores that keep
//! one, played again, of runs on threads, and of workers' turns in every order; and of audits, of journals too.
#![tactic(auto)]

#[cfg(test)]
mod audits;
#[cfg(test)]
mod calls;
#[cfg(test)]
mod invalid_calls;
#[cfg(test)]
mod journal_answers;
#[cfg(test)]
mod journal_scripts;
#[cfg(test)]
mod journals;
#[cfg(test)]
mod limits;
#[cfg(test)]
mod marks;
#[cfg(test)]
mod plays;
#[cfg(test)]
mod refusals;
#[cfg(test)]
mod rows_seen;
#[cfg(test)]
mod runs;
#[cfg(test)]
mod schedules;
#[cfg(test)]
mod scripts;
#[cfg(test)]
mod turns;
#[cfg(test)]
mod words;
