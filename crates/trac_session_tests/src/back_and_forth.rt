//! Sessions that go forwards and backwards.
use crate::acts::Act::{self, *};
use crate::acts::play;
use trac_rules::limit::JOURNAL_LIMIT;
use trac_rules::refusal::Refusal::{
    AtStart, Closed, Ended, JournalFull, NeedInput, NotMet, TooLong,
};

const ELEVEN_STEPS_AND_BACK: &[Act] = &[
    Feed(b"AB'"),
    Initial,
    Forward(11),
    Shows(b"^"),
    Pending(b"AB"),
    Position(3),
    Records(11),
    Back(1),
    Shows(b"#(ps,AB^)"),
    Pending(b""),
    Back(10),
    Initial,
    BackToStart(1, 0),
    Initial,
];

// A stray `)` ends the idle program's `ps`, which weighs 4: what is read after it goes to the base text. Each deleted
// byte weighs 1, and the base text 2, which the idle step empties, and which comes back from its record.
const THE_BASE_TEXT_COMES_BACK: &[Act] = &[
    Feed(b"a)b,c'"),
    ForwardRefused(99, 22, NeedInput),
    Shows(b"#(ps,#(rs^))"),
    Pending(b"a"),
    Records(22),
    Weighs(10),
    Back(8),
    Shows(b"bc^"),
    Pending(b"a"),
    Weighs(8),
    Back(14),
    Initial,
    Weighs(0),
    Forward(22),
    End,
    ForwardRefused(1, 0, Ended),
    BackToStart(99, 22),
    Initial,
];

// A `(` without a match protects all the rest.
const AN_UNMATCHED_OPENING: &[Act] = &[Feed(b"((a'"), Forward(9), Shows(b"#(ps,(a)^")];

// `rs` has read `AB`: it goes before the active text, and `ps` gathers its second argument. The same is read again
// after one step back, though the tape has grown.
const MORE_INPUT_IS_WAITED_FOR: &[Act] = &[
    Feed(b"AB"),
    ForwardRefused(8, 7, NeedInput),
    Feed(b"'"),
    Forward(1),
    Shows(b"#(ps,^AB)"),
    Position(3),
    Pending(b""),
    Back(1),
    Feed(b"C'"),
    Forward(1),
    Shows(b"#(ps,^AB)"),
    Position(3),
    Pending(b""),
];

// With the trace on, `rc` waits for a byte: its line is printed once, by the step that reads the byte.
const A_TRACED_CALL_WAITS_FOR_A_BYTE: &[Act] = &[
    Feed(b"#(tn)#(rc)'"),
    ForwardRefused(16, 15, NeedInput),
    Pending(b""),
    ForwardRefused(1, 0, NeedInput),
    Shows(b"#(ps,#(rc^))"),
    Pending(b""),
    Position(11),
    Feed(b"x"),
    Forward(1),
    Shows(b"#(ps,^x)"),
    Pending(b"#(rc)\n"),
    Position(12),
    Back(1),
    Pending(b""),
];

const NOTHING_AFTER_THE_END: &[Act] = &[
    Feed(b"A"),
    End,
    End,
    FeedRefused(b"B", Closed),
    Forward(8),
    Shows(b"#(ps,^A)"),
    Position(1),
];

// Until the called text is printed, the rules take 17, 15, 17 and 16 steps for the four texts, and one between any two,
// which loads the idle program again.
const FORMS_COME_AND_GO: &[Act] = &[
    Feed(b"#(ds,a,1)'#(dd,a)'#(ds,a,2)'#(cl,a)'"),
    Forward(68),
    Shows(b"^"),
    Pending(b"2"),
    Forms(1),
    Back(68),
    Initial,
];

// Whole runs: the steps until the input ends, and what they print.
const NO_INPUT: &[Act] = &[End, ForwardRefused(100, 7, Ended), Pending(b"")];

const ONE_TEXT: &[Act] = &[
    Feed(b"AB'"),
    End,
    ForwardRefused(100, 19, Ended),
    Pending(b"AB"),
];

const AN_UNMATCHED_OPENING_TO_THE_END: &[Act] = &[
    Feed(b"a(b"),
    End,
    ForwardRefused(100, 18, Ended),
    Pending(b""),
];

// `rs` weighs 2, and `ps` with its argument `AB` 5. What is gone back over is not weighed any more.
const A_TEXT_WEIGHS: &[Act] = &[
    Weighs(0),
    Feed(b"AB'"),
    Forward(7),
    Weighs(0),
    Forward(1),
    Weighs(2),
    Forward(3),
    Weighs(7),
    ForwardRefused(99, 8, NeedInput),
    Weighs(7),
    Back(9),
    Weighs(2),
    Commit(0, b""),
    Weighs(0),
];

// Each `rs` weighs 2 and each `ps` 3, `ds` 6, and `dd` 7 with the form that it deletes.
const A_DELETED_FORM_WEIGHS: &[Act] = &[
    Feed(b"#(ds,a,1)'#(dd,a)'"),
    Forward(8),
    Weighs(2),
    Forward(8),
    Weighs(8),
    Forward(1),
    Weighs(11),
    Forward(9),
    Weighs(13),
    Forward(6),
    Weighs(20),
    Forward(1),
    Weighs(23),
    ForwardRefused(99, 8, NeedInput),
    Weighs(23),
    Records(41),
    Back(10),
    Weighs(13),
    Forms(1),
];

// Whoever keeps steps keeps the first of their states as the start: what was printed until then is
// released, and what was read until then is dropped. After nine steps nothing is printed and three bytes
// are read, after eleven `AB` is printed.
const A_WINDOW_OF_TEN: &[Act] = &[
    Feed(b"AB'"),
    Forward(19),
    Commit(10, b""),
    Records(10),
    Pending(b"AB"),
    Position(0),
    BackToStart(99, 10),
    Active(b"B)"),
    Shows(b"#(ps,A^B)"),
    Position(0),
    Pending(b""),
];

const A_WINDOW_OF_EIGHT: &[Act] = &[
    Feed(b"AB'"),
    Forward(19),
    Pending(b"AB"),
    Commit(8, b"AB"),
    Records(8),
    Pending(b""),
    Position(0),
    BackToStart(9, 8),
    Shows(b"^"),
    Position(0),
    Pending(b""),
];

// The first state that stays is before `rs` reads, so the tape loses nothing, and it is read again.
const A_WINDOW_OF_TWELVE: &[Act] = &[
    Feed(b"AB'"),
    Forward(19),
    Commit(12, b""),
    Back(12),
    Position(0),
    Forward(1),
    Active(b"AB)"),
    Position(3),
];

// A window that is wider than the way back changes nothing.
const A_WINDOW_OF_ALL: &[Act] = &[
    Feed(b"AB'"),
    Forward(19),
    Commit(99, b""),
    Shows(b"#(ps,#(rs^))"),
    Pending(b"AB"),
    Position(3),
    Records(19),
    Weighs(7),
    BackToStart(99, 19),
    Initial,
];

// Of the records that stay `ps` with `AB` weighs 5. The second commit releases what the first one kept, and what was
// not read before is read after it.
const A_WINDOW_AFTER_A_WINDOW: &[Act] = &[
    Feed(b"AB'C'"),
    Forward(11),
    Commit(3, b""),
    Pending(b"AB"),
    Position(0),
    Records(3),
    Weighs(5),
    Forward(1),
    Records(4),
    PendingBefore(2, b""),
    PendingBefore(0, b"AB"),
    Commit(1, b"AB"),
    Records(1),
    Weighs(0),
    Pending(b""),
    BackToStart(2, 1),
    Shows(b"^"),
    Forward(9),
    Shows(b"#(ps,^C)"),
    Position(2),
    Commit(1, b""),
    Position(2),
    Back(1),
    Position(0),
    Shows(b"#(ps,#(rs^))"),
];

// With a commit after each step the journal never holds more than one record beside those that it keeps, and is never
// full. `AB` is printed by the eleventh step: five steps later the window has passed it.
const A_COMMIT_AFTER_EACH_STEP: &[Act] = &[
    Feed(b"AB'"),
    ForwardInWindow(15, 5),
    Pending(b"AB"),
    ForwardInWindow(1, 5),
    Pending(b""),
    ForwardInWindow(3, 5),
    Records(5),
    Position(0),
    ForwardRefused(1, 0, NeedInput),
    BackToStart(99, 5),
    Shows(b"#(p^s,#(rs))"),
    Pending(b""),
];

// Ten plain bytes after eight steps, over which walks of each length go: to the end of the run, to
// within it, and past it.
const A_RUN_OF_PLAIN_BYTES: &[Act] = &[
    Feed(b"ABCDEFGHIJ'"),
    Forward(12),
    Shows(b"#(ps,ABCD^EFGHIJ)"),
    Records(12),
    Forward(6),
    Shows(b"#(ps,ABCDEFGHIJ^)"),
    Forward(1),
    Pending(b"ABCDEFGHIJ"),
    Back(8),
    Shows(b"#(ps,ABC^DEFGHIJ)"),
    Pending(b""),
    Records(11),
    Forward(2),
    Shows(b"#(ps,ABCDE^FGHIJ)"),
    Back(13),
    Initial,
    Forward(19),
    BackToStart(20, 19),
    Initial,
];

// After nineteen steps and after seven the next one performs `rs`.
const BACK_TO_A_CALL: &[Act] = &[
    Feed(b"AB'"),
    End,
    ForwardRefused(20, 19, Ended),
    BackUntil(b"rs", 12),
    Shows(b"#(ps,#(rs^))"),
    BackToStart(99, 7),
    BackUntilRefused(b"rs", 0, AtStart),
    Forward(5),
    BackUntilRefused(b"zz", 5, NotMet),
    Initial,
];

const A_FULL_JOURNAL: &[Act] = &[
    Feed(b"AB'"),
    ForwardRefused(5, 4, JournalFull),
    Records(4),
    Commit(0, b""),
    Records(0),
    Forward(1),
    BackToStart(2, 1),
    Forward(0),
    Back(0),
];

// One text fills the tape. One that is a byte longer is refused and nothing of it is fed. So is a byte after the
// longest, and a value one byte longer than the texts may be.
const LIMITS_ARE_KEPT: &[Act] = &[
    LettersRefused(33_554_433, TooLong),
    UnreadLetters(0),
    FeedLetters(33_554_432),
    FeedRefused(b"a", TooLong),
    UnreadLetters(33_554_432),
    Feed(b""),
    End,
    ForwardRefused(8, 7, TooLong),
    Position(0),
    Shows(b"#(ps,#(rs^))"),
];

// A call that would give 4,096 times 4,097 bytes is refused, and nothing changes.
const A_VALUE_THAT_IS_TOO_LONG: &[Act] = &[
    Feed(b"#(ds,F,("),
    FeedLetters(4_096),
    Feed(b"))#(ss,F,a)#(cl,F,("),
    FeedLetters(4_097),
    Feed(b"))'"),
    ForwardUntil(TooLong),
    Active(b"))"),
    Forms(1),
    ForwardUntil(TooLong),
    Active(b"))"),
];

// How many records a journal may hold, and the acts on a session with that journal.
const WALKS: &[(usize, &[Act])] = &[
    (JOURNAL_LIMIT, ELEVEN_STEPS_AND_BACK),
    (JOURNAL_LIMIT, THE_BASE_TEXT_COMES_BACK),
    (JOURNAL_LIMIT, AN_UNMATCHED_OPENING),
    (JOURNAL_LIMIT, MORE_INPUT_IS_WAITED_FOR),
    (JOURNAL_LIMIT, A_TRACED_CALL_WAITS_FOR_A_BYTE),
    (JOURNAL_LIMIT, NOTHING_AFTER_THE_END),
    (JOURNAL_LIMIT, FORMS_COME_AND_GO),
    (JOURNAL_LIMIT, NO_INPUT),
    (JOURNAL_LIMIT, ONE_TEXT),
    (JOURNAL_LIMIT, AN_UNMATCHED_OPENING_TO_THE_END),
    (JOURNAL_LIMIT, A_TEXT_WEIGHS),
    (JOURNAL_LIMIT, A_DELETED_FORM_WEIGHS),
    (JOURNAL_LIMIT, A_WINDOW_OF_TEN),
    (JOURNAL_LIMIT, A_WINDOW_OF_EIGHT),
    (JOURNAL_LIMIT, A_WINDOW_OF_TWELVE),
    (JOURNAL_LIMIT, A_WINDOW_OF_ALL),
    (JOURNAL_LIMIT, A_WINDOW_AFTER_A_WINDOW),
    (6, A_COMMIT_AFTER_EACH_STEP),
    (JOURNAL_LIMIT, A_RUN_OF_PLAIN_BYTES),
    (JOURNAL_LIMIT, BACK_TO_A_CALL),
    (4, A_FULL_JOURNAL),
];

// The same for acts that take time.
const LONG_TEXTS: &[(usize, &[Act])] = &[
    (64, LIMITS_ARE_KEPT),
    (JOURNAL_LIMIT, A_VALUE_THAT_IS_TOO_LONG),
];

#[test]
fn forwards_and_backwards(rt: HostRuntime) {
    for (limit, acts) in WALKS.iter() {
        play(&rt, rt.alloc(), *limit, acts);
    }
}

#[test]
fn up_to_the_limits(rt: HostRuntime) {
    for (limit, acts) in LONG_TEXTS.iter() {
        play(&rt, rt.alloc(), *limit, acts);
    }
}
