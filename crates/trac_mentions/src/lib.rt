//! What a run of a program tells of its forms: where the file names them, and what they are in the end.
#![tactic(auto)]

use std::alloc::Global;

/// What a call does with the form that it names.
#[derive(Clone, Copy, Debug, PartialEq, Eq)]
pub enum Role {
    /// It defines the form.
    Defines,
    /// It cuts texts out of the form, which leaves gaps.
    Cuts,
    /// It reads the form, or forgets it.
    Uses,
}

/// A name of a form in a call that was performed.
#[derive(Drop)]
pub struct Mention {
    /// The name.
    pub name: Vec<u8>,
    /// What the call does with the form.
    pub role: Role,
    /// The byte of the file from which the name's first byte comes. If a call made that, the name of the call begins
    /// there.
    pub place: usize,
    /// Whether the whole name stands there.
    pub is_written: bool,
    /// The texts that the call cuts out of the form; none, if it does something else.
    pub words: Vec<Vec<u8>>,
}

/// A form at the end of a run.
#[derive(Drop)]
pub struct KnownForm {
    /// Its name.
    pub name: Vec<u8>,
    /// The front of its text; a gap of number 1 is shown as `<1>`.
    pub text: Vec<u8>,
    /// Whether there is more of the text.
    pub is_cut: bool,
    /// The highest number of its gaps; 0 if it has none.
    pub gaps: u64,
}

/// What a run tells.
#[derive(Drop)]
pub struct Mentions {
    /// The names in calls, each once for each place and role, in the order in which they were met.
    pub mentions: Vec<Mention>,
    /// The forms that there were in the end.
    pub forms: Vec<KnownForm>,
    /// Whether some names may be missing, since they were too many, or too far to follow.
    pub is_cut: bool,
}

impl Mentions {
    /// Nothing is told. It takes no memory.
    pub fn none(alloc: Global) -> Self {
        Mentions {
            mentions: Vec::new(alloc),
            forms: Vec::new(alloc),
            is_cut: false,
        }
    }

    /// The form of this name.
    pub fn form(&self, name: &[u8]) -> Option<&KnownForm> {
        self.forms.iter().find(|form| form.name.as_slice() == name)
    }

    /// The names of the file at this place of it, or that end there: the first of them.
    pub fn mention_at(&self, place: usize) -> Option<&Mention> {
        self.mentions.iter().find(|mention| {
            let end = mention.place.saturating_add(mention.name.len());
            mention.is_written && mention.place <= place && place <= end
        })
    }
}
