//! The journal: a record for each step, packed.
ghost use Rattle.std.specs.Prelude.{◌≡◌, ◌+◌, ◌-◌, ◌<◌, ◌≤◌, ◌^◌, ◌++◌, ◌∷◌, [], length, replicate, MatchOption};
ghost use Rattle.std.specs.Prelude.{OnErr, OnOk};
ghost use Rattle.std.specs.List.{concat};
ghost use Rattle.std.specs.VecDeque.{deque_capacity, deque_len};
ghost use Rattle.trac_rules.specs.declared.limit.TheConstants.{JOURNAL_LIMIT};
ghost use Rattle.trac_rules.specs.Records.{Moved};
ghost use Rattle.trac_rules.specs.Weights.{meta_weight, undone_weight, weight};
ghost use Rattle.trac_journal.specs.Journaled.{HasPlaceForCall, HasPlaceForIdle};
ghost use Rattle.trac_journal.specs.Listed.{newest_in, nothing_listed, IsBrief};
ghost use Rattle.trac_journal.specs.Told.{sum_by, IsMovedFirst};
ghost use Rattle.trac_change.specs.Undone.{undone_in};
ghost use Rattle.trac_text.specs.Ruled.{said_by};

use crate::called::{Called, LentCall};
use crate::emptied::Emptied;
use crate::entry::{Entry, Kept};
use crate::keeper::Keeper;
use crate::lists::{Lists, weigh_brief};
use std::alloc::{AllocError, Allocator, Global};
use std::collections::VecDeque;
use std::marker::Model;
use std::mem;
use trac_change::Undone;
use trac_rules::refusal::Refusal;
use trac_text::{Args, Functions, Short};

/// What the steps of a machine destroyed, a record for each: seen as the list of the rules' records, the newest first,
/// and beside it how much room there is for more. Bytes that were moved one after another are kept as their number, and
/// their records take no memory. A journal holds at most 1,048,576 records.
#[derive(Drop)]
pub struct Journal<A: Allocator + Copy = Global> {
    // how many bytes were moved since the last entry, a step each
    pub(crate) moved: usize,
    // an entry for each record that is not of a moved byte
    pub(crate) entries: VecDeque<Entry, A>,
    // how many records there are in all
    pub(crate) len: usize,
    // what these records destroyed, but for what an entry holds
    pub(crate) lists: Lists<A>,
    // what they weigh together
    pub(crate) weight: u64,
}

impl<A: Allocator + Copy> Model for Journal<A> {
    ghost use Rattle.std.specs.Prelude.{◌-◌, reverse};
    ghost use Rattle.std.specs.VecDeque.{deque_capacity, deque_len};
    ghost use Rattle.trac_journal.specs.Codes.{journaled_code};
    ghost use Rattle.trac_journal.specs.Journaled.{unpacked, AreCounted, AreListed, Journaled};

    ghost Value = { Journaled };

    ghost coded = { journaled_code };

    ghost view = { λ j. record {
      records = unpacked j.moved (reverse j.entries.items) j.lists.listed;
      places = deque_capacity j.entries - deque_len j.entries;
      room = j.lists.room;
    } };

    ghost invariant = { λ j. AreListed (reverse j.entries.items) j.lists.listed
        × AreCounted (unpacked j.moved (reverse j.entries.items) j.lists.listed) j.len j.weight };
}

impl<A: Allocator + Copy> Journal<A> {
    /// A journal without a record. It takes no memory; `alloc` is kept for later.
    pub fn new(alloc: A) -> Self
        ensures { result.records ≡ [] }
    {
        Journal {
            entries: VecDeque::new(alloc),
            lists: Lists::new(alloc),
            moved: 0,
            len: 0,
            weight: 0,
        }
    }

    /// How many records there are.
    pub fn len(&self) -> usize
        ensures { result ≡ length self.now.records }
    {
        self.len
    }

    /// What the records weigh together. It takes the same time however many there are.
    pub fn weight(&self) -> u64
        ensures { result ≡ sum_by weight self.now.records }
    {
        self.weight
    }

    /// Keeps so many records more, the newest, each of a moved byte. They need no room.
    pub fn push_moved(&mut self, n: usize)
        requires { length self.old.records + n ≤ JOURNAL_LIMIT }
        ensures { self.new ≡ record self.old { records = replicate n Moved ++ self.old.records } }
    {
        self.moved += n;
        self.len += n;
    }

    // Keeps one record more that an entry holds.
    #[inline(always)]
    fn push_brief(&mut self, kept: Kept)
        requires not_full { length self.old.records < JOURNAL_LIMIT }
        requires place { 1 ≤ self.old.places }
        requires brief { IsBrief kept }
        ensures { self.new.records ≡ newest_in kept nothing_listed ∷ self.old.records }
    {
        self.entries.push_back_reserved(Entry {
            moved: self.moved as u32,
            kept,
        });
        self.moved = 0;
        self.len += 1;
        self.weight += weigh_brief(kept);
    }

    /// Takes out the records of the bytes that were moved last, up to `most` of them, and returns how many these are:
    /// fewer than `most` only if the newest record then is of another kind, or there is none.
    pub fn pop_moved(&mut self, most: usize) -> usize
        ensures taken { self.old.records ≡ replicate result Moved ++ self.new.records }
        ensures most { result ≤ most }
        ensures end { result < most → IsMovedFirst self.new.records → ⊥ }
    {
        let count = self.moved.min(most);
        self.moved -= count;
        self.len -= count;
        count
    }

    /// Forgets all records, and keeps the room for them.
    pub fn clear(&mut self)
        ensures { self.new.records ≡ [] }
    {
        self.entries.clear();
        self.lists.clear();
        self.moved = 0;
        self.len = 0;
        self.weight = 0;
    }
}

impl<A: Allocator + Copy> Keeper<A> for Journal<A> {
    ghost records = { λ j. j.records };

    ghost most = { JOURNAL_LIMIT };

    ghost places = { λ j. j.places };

    ghost has_room = { λ j texts. HasPlaceForCall (length (concat texts)) (length texts - 1) j };

    ghost has_idle_room = { λ j. HasPlaceForIdle j };

    fn reserve_short(&mut self) -> Result<(), Refusal> {
        reserve_entry(&mut self.entries)?;
        Ok(())
    }

    fn reserve_call(&mut self, arguments: &Args<'_>) -> Result<(), Refusal> {
        reserve_entry(&mut self.entries)?;
        self.lists
            .reserve_call(arguments.joined().len(), arguments.comma_count())
    }

    fn reserve_idle(&mut self) -> Result<(), Refusal> {
        reserve_entry(&mut self.entries)?;
        self.lists.reserve_idle()
    }

    #[inline(always)]
    fn push_moved_byte(&mut self) {
        self.push_moved(1);
    }

    #[inline(always)]
    fn push_short(&mut self, newest: Short) {
        match newest {
            Short::Moved => self.push_moved(1),
            Short::Comma => self.push_brief(Kept::Comma),
            Short::Begun => self.push_brief(Kept::Begun),
            Short::Quoted { inner, closed } => self.push_brief(Kept::Quoted {
                closed,
                inner: inner as u32,
            }),
            Short::Deleted(byte) => self.push_brief(Kept::Deleted(byte)),
        }
    }

    #[inline(always)]
    fn push_call(&mut self, called: Called, arguments: &Args<'_>, undone: &mut Undone<A>) {
        let undone = mem::replace(undone, Undone::Nothing);
        let bytes = arguments.joined().len();
        let weight = weigh_call(bytes + arguments.comma_count(), called.meta, &undone);
        let kept = self.lists.push_call(called, arguments, undone);
        self.entries.push_back_reserved(Entry {
            moved: self.moved as u32,
            kept,
        });
        self.moved = 0;
        self.len += 1;
        self.weight += weight;
    }

    fn push_idle(&mut self, base: &mut Vec<u8, A>, frames: &mut Functions<A>) {
        let alloc = *base.allocator();
        let emptied = Emptied {
            base: mem::replace(base, Vec::new(alloc)),
            frames: mem::replace(frames, Vec::new(alloc)),
        };
        let weight = emptied.weight() as u64;
        self.lists.push_idle(emptied);
        self.entries.push_back_reserved(Entry {
            moved: self.moved as u32,
            kept: Kept::Idle,
        });
        self.moved = 0;
        self.len += 1;
        self.weight += weight;
    }

    #[inline(always)]
    fn pop_short(&mut self) -> Option<Short> {
        if self.moved > 0 {
            self.moved -= 1;
            self.len -= 1;
            return Some(Short::Moved);
        }
        let entry = *self.entries.back()?;
        let short = short_in(entry.kept)?;
        self.entries.pop_back();
        self.moved = entry.moved as usize;
        self.len -= 1;
        self.weight -= weigh_brief(entry.kept);
        Some(short)
    }

    #[inline(always)]
    fn newest_call(&self) -> Option<LentCall<'_>> {
        if self.moved > 0 {
            return None;
        }
        match self.entries.back()?.kept {
            Kept::Call | Kept::Pointed(_) | Kept::Changed => Some(self.lists.newest_call()),
            Kept::Comma | Kept::Begun | Kept::Quoted { .. } | Kept::Deleted(_) | Kept::Idle => None,
        }
    }

    #[inline(always)]
    fn pop_call(&mut self) -> Undone<A> {
        let Some(entry) = self.entries.pop_back() else {
            unreachable!()
        };
        let undone = self.lists.pop_undone(entry.kept);
        let weight = self.lists.pop_call();
        self.moved = entry.moved as usize;
        self.len -= 1;
        self.weight -= weight + undone.weight() as u64;
        undone
    }

    fn pop_idle(&mut self) -> Option<Emptied<A>> {
        if self.moved > 0 {
            return None;
        }
        let entry = *self.entries.back()?;
        let Kept::Idle = entry.kept else {
            return None;
        };
        let emptied = self.lists.pop_emptied();
        self.entries.pop_back();
        self.moved = entry.moved as usize;
        self.len -= 1;
        self.weight -= emptied.weight() as u64;
        Some(emptied)
    }
}

// The short record that an entry holds; none if it holds less than all of a record.
#[inline(always)]
fn short_in(kept: Kept) -> Option<Short>
    ensures { MatchOption result (IsBrief kept → ⊥)
        (λ short. IsBrief kept × (said_by short ≡ newest_in kept nothing_listed)) }
{
    match kept {
        Kept::Comma => Some(Short::Comma),
        Kept::Begun => Some(Short::Begun),
        Kept::Quoted { closed, inner } => Some(Short::Quoted {
            inner: inner as usize,
            closed,
        }),
        Kept::Deleted(byte) => Some(Short::Deleted(byte)),
        Kept::Call | Kept::Pointed(_) | Kept::Changed | Kept::Idle => None,
    }
}

/// What the record of a call weighs. The call's arguments have so many bytes and commas together. It set the meta
/// character if there is one here, and destroyed this of forms and blocks. The sum has to fit a `u64`.
#[inline(always)]
pub fn weigh_call<A: Allocator + Copy>(len: usize, meta: Option<u8>, undone: &Undone<A>) -> u64
    requires { len + meta_weight meta + undone_weight (undone_in undone.now) < 2 ^ 64 }
    ensures { result ≡ len + meta_weight meta + undone_weight (undone_in undone.now) }
{
    let kept = len + undone.weight();
    match meta {
        Some(_byte) => kept as u64 + 1,
        None => kept as u64,
    }
}

// Makes a place for one more entry. Most often there is one, and then nothing is called.
#[inline(always)]
fn reserve_entry<A: Allocator>(entries: &mut VecDeque<Entry, A>) -> Result<(), AllocError>
    ensures items { entries.new.items ≡ entries.old.items }
    ensures ok { OnOk result (deque_len entries.new + 1 ≤ deque_capacity entries.new) }
    ensures full { OnErr result (deque_capacity entries.old ≡ deque_len entries.old) }
{
    if entries.len() < entries.capacity() {
        return Ok(());
    }
    entries.reserve(1)
}
