//! What a journal keeps of each record in an entry of its own.
use std::mem::size_of;
use trac_rules::kind::Kind;

/// A record, and how many bytes were moved between the entry before and its step, a step each.
#[derive(Clone, Copy)]
pub struct Entry {
    pub(crate) moved: u32,
    pub(crate) kept: Kept,
}

/// What an entry keeps of its record: all of it if a word holds it, and else in which lists it stands.
#[derive(Clone, Copy)]
pub enum Kept {
    Comma,
    Begun,
    // the smaller field first, so that both stand in one word with the tag
    Quoted { closed: bool, inner: u32 },
    Deleted(u8),
    // a call that destroyed nothing of forms and blocks
    Call,
    // a call that moved the pointer of a form, before which so many items stood
    Pointed(u32),
    // a call, and what it destroyed of forms and blocks stands in the list of these
    Changed,
    // what was emptied stands in the list of these
    Idle,
}

/// What a call has in the list of calls. Lengths count bytes.
#[derive(Clone, Copy)]
pub struct CallEntry {
    pub(crate) value: u32,
    pub(crate) printed: u32,
    pub(crate) read: u32,
    // how long its arguments are together
    pub(crate) bytes: u32,
    // how many of them a `,` ended
    pub(crate) commas: u32,
    pub(crate) kind: Kind,
    pub(crate) scanned: bool,
    pub(crate) trace: bool,
    pub(crate) meta: Option<u8>,
}

// each `,` and each begun function takes an entry, and each call both
const _: () = prove!(size_of::<Entry>() == 12);

const _: () = prove!(size_of::<CallEntry>() == 28);
