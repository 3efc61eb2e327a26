//! What is remembered of the doubts that were met, so that each is told once for each place.

use std::alloc::{AllocError, Allocator};
use std::collections::BTreeSet;
use std::hash::{FoldHasher, Hasher};
use trac_rules::doubt::Doubt;

// So many meetings are told apart; later ones are taken for some that were before.
const MEETING_LIMIT: usize = 1_000_000;

// So many places are told apart; later ones are taken for some that were before.
const KEPT_LIMIT: usize = 1_000_000;

// So many doubts of a kind are told without a place: more of them would hide the others.
const UNPLACED_LIMIT: usize = 10;

/// Which doubt is met, and where scanning stands then: how much is read, begun and left to scan. A loop mostly meets
/// its doubts where it met them before, and two doubts of a program seldom stand so.
#[derive(Clone, Copy, PartialEq, Eq, PartialOrd, Ord, Debug)]
pub struct Meeting {
    pub read: u64,
    pub depth: usize,
    pub rest: usize,
    pub kind: Kind,
    // a number of its words
    pub words: u64,
}

/// The kind of a doubt, and the number that it has beside.
#[derive(Clone, Copy, PartialEq, Eq, PartialOrd, Ord, Debug)]
pub struct Kind {
    kind: u8,
    detail: usize,
}

// A doubt of the byte of this number.
#[derive(Clone, Copy, PartialEq, Eq, PartialOrd, Ord, Debug)]
struct Place {
    number: u64,
    kind: Kind,
}

/// What was met, and told or counted.
#[derive(Drop)]
pub struct Memory<A: Allocator + Copy> {
    alloc: A,
    // where doubts were met
    met: BTreeSet<Meeting, A>,
    // the places of doubts, and the words of those that were told
    places: BTreeSet<Place, A>,
    told: Vec<Vec<u8, A>, A>,
    // the kinds of those that were told without a place
    unplaced: Vec<Kind, A>,
}

impl<A: Allocator + Copy> Memory<A> {
    /// Nothing was met. It takes no memory.
    pub fn new(alloc: A) -> Self {
        Memory {
            alloc,
            met: BTreeSet::new(alloc),
            places: BTreeSet::new(alloc),
            told: Vec::new(alloc),
            unplaced: Vec::new(alloc),
        }
    }

    /// Whether no doubt was met so before; from now on it was. The error is that memory was refused.
    pub fn is_new(&mut self, meeting: Meeting) -> Result<bool, AllocError> {
        if self.met.len() >= MEETING_LIMIT {
            return Ok(false);
        }
        match self.met.insert(meeting) {
            Ok(is_new) => Ok(is_new),
            Err(_) => Err(AllocError),
        }
    }

    /// Whether this doubt of the byte of this number is kept; or, if no number is known, whether it was told in these
    /// words or enough of its kind were told so. If no more places can be kept, each is taken for one that is.
    pub fn is_kept(&self, doubt: Doubt, number: Option<u64>, words: &[u8]) -> bool {
        match number {
            Some(number) => {
                self.places.len() >= KEPT_LIMIT || self.places.contains(&place_of(doubt, number))
            }
            None => self.is_said(kind_of(doubt), words),
        }
    }

    // Whether a doubt without a place was told in these words, or enough of its kind were told.
    fn is_said(&self, kind: Kind, words: &[u8]) -> bool {
        let mut count: usize = 0;
        for other in self.unplaced.iter() {
            count = count.saturating_add(usize::from(*other == kind));
        }
        count >= UNPLACED_LIMIT || self.told.iter().any(|told| told.as_slice() == words)
    }

    /// Keeps this doubt of the byte of this number. The error is that memory was refused, here and below.
    pub fn keep(&mut self, doubt: Doubt, number: u64) -> Result<(), AllocError> {
        match self.places.insert(place_of(doubt, number)) {
            Ok(_) => Ok(()),
            Err(_) => Err(AllocError),
        }
    }

    /// Keeps that this doubt is told without a place.
    pub fn keep_unplaced(&mut self, doubt: Doubt) -> Result<(), AllocError> {
        Ok(self.unplaced.push(kind_of(doubt))?)
    }

    /// Keeps that a doubt is told in these words.
    pub fn keep_words(&mut self, words: &[u8]) -> Result<(), AllocError> {
        let words = Vec::from_slice(self.alloc, words)?;
        Ok(self.told.push(words)?)
    }
}

// A doubt of the byte of this number, as places are told apart.
fn place_of(doubt: Doubt, number: u64) -> Place {
    Place {
        number,
        kind: kind_of(doubt),
    }
}

/// The kind of a doubt.
pub fn kind_of(doubt: Doubt) -> Kind {
    let (kind, detail) = match doubt {
        Doubt::NoPrimitive => (0, 0),
        Doubt::FormUncalled => (1, 0),
        Doubt::NoForm => (2, 0),
        Doubt::NoBlock => (3, 0),
        Doubt::Unused(k) => (4, k),
        Doubt::NoNumber(k) => (5, k),
        Doubt::NoResult => (6, 0),
        Doubt::Nowhere(k) => (7, k),
        Doubt::Unended(count) => (8, count),
        Doubt::Unclosed => (9, 0),
        Doubt::EndsNothing => (10, 0),
    };
    Kind { kind, detail }
}

/// A number of words, by which they are told apart: two of the same number are taken for the same words.
pub fn number_of(words: &[u8]) -> u64 {
    let mut hasher = FoldHasher::default();
    hasher.write(words);
    hasher.finish()
}
