//! Tests of sessions. All that a session is told stands in tables, and one loop carries it out, by helpers that promise
//! nothing.
#![tactic(auto)]

#[cfg(test)]
mod acts;
#[cfg(test)]
mod back_and_forth;
#[cfg(test)]
mod commands;
#[cfg(test)]
mod held;
#[cfg(test)]
mod quiet;
#[cfg(test)]
mod sessions;
#[cfg(test)]
mod whole_runs;
