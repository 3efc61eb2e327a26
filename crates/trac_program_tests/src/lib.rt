//! Tests of what the programs are made of, as far as a script cannot see it. They test runs, sessions of the debugger
//! and walks for a person, over readers and writers that fail and with too little memory. The library itself is empty.
//! In `tests/data` stands what whole programs, sessions and walks print, in `tests/test_endings.py` how the program
//! ends and what lines it understands.
#![tactic(auto)]

#[cfg(test)]
mod faults;
#[cfg(test)]
mod logs;
#[cfg(test)]
mod programs;
#[cfg(test)]
mod requests;
