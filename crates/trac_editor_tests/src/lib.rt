//! Tests of what an editor speaks with: frames of messages that are cut, lie, or meet faults, and a text that is edited
//! as the editor's own. The library itself is empty.
#![tactic(auto)]

#[cfg(test)]
mod edits;
#[cfg(test)]
mod messages;
