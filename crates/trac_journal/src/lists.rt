//! The lists of a journal, in which its records stand one after another.
ghost use Rattle.std.specs.Prelude.{◌≡◌, ◌+◌, ◌-◌, ◌<◌, ◌≤◌, ◌^◌, ◌++◌, List, [], ◌∷◌, length, drop, map, reverse};
ghost use Rattle.std.specs.Prelude.{IsOkUnless, OnOk};
ghost use Rattle.std.specs.List.{concat};
ghost use Rattle.std.specs.VecDeque.{deque_capacity, deque_len};
ghost use Rattle.trac_rules.specs.Records.{Called as CallOf, Idle};
ghost use Rattle.trac_rules.specs.Undone as rules;
ghost use Rattle.trac_rules.specs.Weights.{meta_weight, undone_weight, weight};
ghost use Rattle.trac_journal.specs.Dropped.{printed_at, without_oldest, EndsWithCall, IsGone, IsGoneCall};
ghost use Rattle.trac_journal.specs.Dropped.{IsOldest};
ghost use Rattle.trac_journal.specs.Journaled.{HasRoom};
ghost use Rattle.trac_journal.specs.Listed.{call_of, called_in, idle_of, newest_in, newest_undone};
ghost use Rattle.trac_journal.specs.Listed.{nothing_listed, older_undone, without_call, AreSmall, HasCall, HasMore};
ghost use Rattle.trac_journal.specs.Listed.{Holds, IsBrief, IsKept, Listed};
ghost use Rattle.trac_text.specs.Pieces.{all_texts, frames_in};
ghost use Rattle.trac_journal.specs.Told.{record_with};
ghost use Rattle.trac_journal.specs.Emptied.{texts_in};
ghost use Rattle.trac_change.specs.Undone.{undone_in};

use crate::called::{Called, LentCall};
use crate::emptied::Emptied;
use crate::entry::{CallEntry, Kept};
use std::alloc::{Allocator, Global};
use std::collections::VecDeque;
use std::marker::Model;
use trac_change::Undone;
use trac_gap::SlidingBuf;
use trac_rules::refusal::Refusal;
use trac_text::{Args, PiecesRef};

/// What the records of a journal destroyed, but for what an entry holds: the calls with their arguments one after
/// another, what was destroyed of forms and blocks, and what idle steps emptied, each in a list of its own. It is seen
/// as these lists, and beside them how much room they have.
#[derive(Drop)]
pub struct Lists<A: Allocator + Copy = Global> {
    calls: VecDeque<CallEntry, A>,
    // the bytes of the arguments of all calls
    bytes: SlidingBuf<u8, A>,
    // how long each argument is that a `,` ended
    commas: SlidingBuf<u32, A>,
    undone: VecDeque<Undone<A>, A>,
    emptied: VecDeque<Emptied<A>, A>,
}

/// What is to be known of a record that is dropped: what it weighs, and how many bytes its step read and printed.
#[derive(Clone, Copy)]
pub struct Gone {
    pub(crate) weight: u64,
    pub(crate) read: usize,
    pub(crate) printed: usize,
}

impl<A: Allocator + Copy> Model for Lists<A> {
    ghost use Rattle.std.specs.Prelude.{◌-◌, length};
    ghost use Rattle.std.specs.VecDeque.{deque_capacity, deque_len};
    ghost use Rattle.trac_journal.specs.Codes.{lists_code};
    ghost use Rattle.trac_journal.specs.Journaled.{Lists};
    ghost use Rattle.trac_journal.specs.Listed.{listed_by};

    ghost Value = { Lists };

    ghost coded = { lists_code };

    ghost view = { λ l. record {
      listed = listed_by l.calls.items l.bytes.items l.commas.items l.undone.items l.emptied.items;
      room = record {
        calls = deque_capacity l.calls - deque_len l.calls;
        bytes = l.bytes.capacity - length l.bytes.items;
        commas = l.commas.capacity - length l.commas.items;
        undone = deque_capacity l.undone - deque_len l.undone;
        emptied = deque_capacity l.emptied - deque_len l.emptied;
      };
    } };
}

impl<A: Allocator + Copy> Lists<A> {
    // Lists that hold nothing, which takes no memory.
    pub(crate) fn new(alloc: A) -> Self
        ensures { result.listed ≡ nothing_listed }
    {
        Lists {
            calls: VecDeque::new(alloc),
            bytes: SlidingBuf::new(alloc),
            commas: SlidingBuf::new(alloc),
            undone: VecDeque::new(alloc),
            emptied: VecDeque::new(alloc),
        }
    }

    // Makes room for a call whose arguments have so many bytes, and so many commas between them.
    pub(crate) fn reserve_call(&mut self, bytes: usize, commas: usize) -> Result<(), Refusal>
        ensures ok { OnOk result (HasRoom bytes commas self.new.room) }
        ensures same { self.new.listed ≡ self.old.listed }
        ensures err { IsOkUnless result Refusal.Memory }
    {
        self.calls.reserve(1)?;
        self.bytes.reserve(bytes)?;
        self.commas.reserve(commas)?;
        self.undone.reserve(1)?;
        Ok(())
    }

    // Makes room for what one idle step empties.
    pub(crate) fn reserve_idle(&mut self) -> Result<(), Refusal>
        ensures ok { OnOk result (1 ≤ self.new.room.emptied) }
        ensures same { self.new.listed ≡ self.old.listed }
        ensures err { IsOkUnless result Refusal.Memory }
    {
        self.emptied.reserve(1)?;
        Ok(())
    }

    // Puts a call with its arguments, and what it destroyed of forms and blocks, after all others, and returns what an
    // entry is to keep. There has to be room.
    #[inline(always)]
    pub(crate) fn push_call(
        &mut self,
        called: Called,
        arguments: &Args<'_>,
        undone: Undone<A>,
    ) -> Kept
        requires small { AreSmall called (length (concat arguments.now)) (length arguments.now) }
        requires room { HasRoom (length (concat arguments.now)) (length arguments.now - 1) self.old.room }
        ensures { HasMore result (CallOf (record_with called arguments.now (undone_in undone))) self.old.listed
            self.new.listed }
    {
        // The contract of `len` says that there are no more items than places.
        let _bytes = self.bytes.len();
        let _commas = self.commas.len();
        let joined = arguments.joined();
        self.calls
            .push_back_reserved(call_by(called, joined.len(), arguments.comma_count()));
        self.bytes.put(joined);
        arguments.put_lengths(&mut self.commas);
        keep_undone(undone, &mut self.undone)
    }

    // Puts what an idle step emptied after all others. There has to be room.
    pub(crate) fn push_idle(&mut self, emptied: Emptied<A>)
        requires { 1 ≤ self.old.room.emptied }
        ensures { HasMore Kept.Idle (Idle emptied.base.items (frames_in emptied.frames.items)) self.old.listed
            self.new.listed }
    {
        self.emptied.push_back_reserved(emptied);
    }

    // The newest call.
    #[inline(always)]
    pub(crate) fn newest_call(&self) -> LentCall<'_>
        requires { HasCall self.now.listed.calls self.now.listed.bytes self.now.listed.commas }
        ensures { (undone : rules.Undone) →
            call_of self.now.listed.calls undone self.now.listed.bytes self.now.listed.commas
            ≡ CallOf (record_with result.called (all_texts result.arguments) undone) }
    {
        let Some(call) = self.calls.back() else {
            unreachable!()
        };
        let bytes = self.bytes.as_slice();
        let commas = self.commas.as_slice();
        let arguments = PiecesRef::new(
            bytes.split_at(bytes.len() - call.bytes as usize).1,
            commas.split_at(commas.len() - call.commas as usize).1,
        );
        let called = called_by(*call);
        LentCall { called, arguments }
    }

    // Takes out the newest call with its arguments, and returns what it weighs beside what it
    // destroyed of forms and blocks.
    #[inline(always)]
    pub(crate) fn pop_call(&mut self) -> u64
        requires { HasCall self.old.listed.calls self.old.listed.bytes self.old.listed.commas }
        ensures others { self.new.listed ≡ without_call self.old.listed.calls self.old.listed }
        ensures weighs { (undone : rules.Undone) → result + undone_weight undone
            ≡ weight (call_of self.old.listed.calls undone self.old.listed.bytes self.old.listed.commas) }
    {
        let Some(call) = self.calls.pop_back() else {
            unreachable!()
        };
        self.bytes.truncate(self.bytes.len() - call.bytes as usize);
        self.commas
            .truncate(self.commas.len() - call.commas as usize);
        weigh_texts(call)
    }

    // Takes out what the newest call destroyed of forms and blocks, of which its entry keeps this.
    #[inline(always)]
    pub(crate) fn pop_undone(&mut self, kept: Kept) -> Undone<A>
        requires { Holds kept self.old.listed }
        ensures others { self.new.listed
            ≡ record self.old.listed { undone = older_undone kept self.old.listed.undone } }
        ensures own { undone_in result ≡ newest_undone kept self.old.listed.undone }
    {
        match kept {
            Kept::Pointed(place) => Undone::Point(place as usize),
            Kept::Changed => {
                let Some(undone) = self.undone.pop_back() else {
                    unreachable!()
                };
                undone
            }
            Kept::Comma
            | Kept::Begun
            | Kept::Quoted { .. }
            | Kept::Deleted(_)
            | Kept::Call
            | Kept::Idle => Undone::Nothing,
        }
    }

    // Takes out what was emptied last.
    pub(crate) fn pop_emptied(&mut self) -> Emptied<A>
        requires { 1 ≤ length self.old.listed.emptied }
        ensures others { self.new.listed ≡ record self.old.listed { emptied = drop 1 self.old.listed.emptied } }
        ensures first { Idle (texts_in result).0 (texts_in result).1 ≡ idle_of self.old.listed.emptied }
    {
        let Some(emptied) = self.emptied.pop_back() else {
            unreachable!()
        };
        emptied
    }

    // Drops what the oldest record has in the lists, of which its entry keeps this, and returns
    // what is to be known of it.
    pub(crate) fn drop_oldest(&mut self, kept: Kept) -> Gone
        requires { (own : Listed) × ((others : Listed)
            × (IsOldest kept own others self.old.listed × (weight (newest_in kept own) < 2 ^ 64))) }
        ensures { (own others : Listed) → IsOldest kept own others self.old.listed →
            IsGone result (newest_in kept own) × (self.new.listed ≡ others) }
    {
        match kept {
            Kept::Comma | Kept::Begun | Kept::Quoted { .. } | Kept::Deleted(_) => {
                weighing(weigh_brief(kept))
            }
            Kept::Call | Kept::Pointed(_) => self.drop_call(),
            Kept::Changed => {
                let call = self.drop_call();
                let undone = self.drop_undone();
                let weight = call.weight + undone;
                Gone { weight, ..call }
            }
            Kept::Idle => {
                let Some(emptied) = self.emptied.pop_front() else {
                    unreachable!()
                };
                weighing(emptied.weight() as u64)
            }
        }
    }

    // Drops the oldest call, and returns what is to be known of it, what it destroyed of forms and blocks aside.
    fn drop_call(&mut self) -> Gone
        requires { (call : CallEntry) × ((calls : List CallEntry) × EndsWithCall call calls self.old.listed) }
        ensures { (call : CallEntry) (calls : List CallEntry) → EndsWithCall call calls self.old.listed →
            IsGoneCall result call × (self.new.listed ≡ without_oldest call calls self.old.listed) }
    {
        let Some(call) = self.calls.pop_front() else {
            unreachable!()
        };
        self.bytes.drop_front(call.bytes as usize);
        self.commas.drop_front(call.commas as usize);
        Gone {
            weight: weigh_texts(call),
            read: call.read as usize,
            printed: call.printed as usize,
        }
    }

    // Drops what was destroyed first of forms and blocks, and returns what it weighs.
    fn drop_undone(&mut self) -> u64
        requires { (first : rules.Undone) × ((newer : List rules.Undone)
            × ((self.old.listed.undone ≡ newer ++ first ∷ []) × (undone_weight first < 2 ^ 64))) }
        ensures { (first : rules.Undone) (newer : List rules.Undone) → self.old.listed.undone ≡ newer ++ first ∷ [] →
            (result ≡ undone_weight first) × (self.new.listed ≡ record self.old.listed { undone = newer }) }
    {
        let Some(undone) = self.undone.pop_front() else {
            unreachable!()
        };
        undone.weight() as u64
    }

    // How much the call printed that stands at this place, the oldest at 0; nothing past the last.
    pub(crate) fn printed_at(&self, at: usize) -> usize
        ensures { result ≡ printed_at (drop at (reverse self.now.listed.calls)) }
    {
        match self.calls.get(at) {
            Some(call) => call.printed as usize,
            None => 0,
        }
    }

    // Forgets all, and keeps the room for it.
    pub(crate) fn clear(&mut self)
        ensures { self.new.listed ≡ nothing_listed }
    {
        self.calls.clear();
        self.bytes.clear();
        self.commas.clear();
        self.undone.clear();
        self.emptied.clear();
    }
}

// What is to be known of a record that weighs so much, and whose step neither read nor printed.
fn weighing(weight: u64) -> Gone
    ensures weight { result.weight ≡ weight }
    ensures read { result.read ≡ 0 }
    ensures printed { result.printed ≡ 0 }
{
    Gone {
        weight,
        read: 0,
        printed: 0,
    }
}

// What an entry weighs that holds all of its record: one for a deleted byte.
pub(crate) fn weigh_brief(kept: Kept) -> u64
    requires { IsBrief kept }
    ensures { result ≡ weight (newest_in kept nothing_listed) }
{
    match kept {
        Kept::Deleted(_byte) => 1,
        _ => 0,
    }
}

// What is kept of a call whose arguments have so many bytes, and so many commas between them.
fn call_by(called: Called, bytes: usize, commas: usize) -> CallEntry
    requires { AreSmall called bytes commas }
    ensures called { called_in result ≡ called }
    ensures bytes { result.bytes ≡ bytes }
    ensures commas { result.commas ≡ commas }
{
    CallEntry {
        value: called.value as u32,
        printed: called.printed as u32,
        read: called.read as u32,
        bytes: bytes as u32,
        commas: commas as u32,
        kind: called.kind,
        scanned: called.scanned,
        trace: called.trace,
        meta: called.meta,
    }
}

// What a call says of which this is kept, beside its arguments, and what was destroyed of forms and blocks.
fn called_by(call: CallEntry) -> Called
    ensures { result ≡ called_in call }
{
    Called {
        kind: call.kind,
        value: call.value as usize,
        scanned: call.scanned,
        printed: call.printed as usize,
        read: call.read as usize,
        meta: call.meta,
        trace: call.trace,
    }
}

// What a call weighs beside what it destroyed of forms and blocks.
fn weigh_texts(call: CallEntry) -> u64
    ensures { result ≡ call.bytes + call.commas + meta_weight call.meta }
{
    let texts = u64::from(call.bytes) + u64::from(call.commas);
    match call.meta {
        Some(_byte) => texts + 1,
        None => texts,
    }
}

// What an entry is to keep of a call that destroyed this of forms and blocks. If the entry cannot hold it, it goes to
// the end of the list of these, which has to have a place.
fn keep_undone<A: Allocator + Copy>(undone: Undone<A>, list: &mut VecDeque<Undone<A>, A>) -> Kept
    requires { deque_len list.old < deque_capacity list.old }
    ensures { IsKept result (undone_in undone) (map undone_in (reverse list.old.items))
        (map undone_in (reverse list.new.items)) }
{
    match undone {
        Undone::Nothing => Kept::Call,
        Undone::Point(place) if place <= u32::MAX as usize => Kept::Pointed(place as u32),
        other => {
            list.push_back_reserved(other);
            Kept::Changed
        }
    }
}
