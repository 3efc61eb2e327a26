//! Commits that keep a window of the last states: laws.
ghost use Rattle.std.specs.Prelude.{◌≡◌, ◌≢◌, ◌≤◌, ◌+◌, ◌++◌, ◌∷◌, [], codes, drop, length, min, replicate, Err, Ok};
ghost use Rattle.std.specs.Prelude.{Some, ℕ};
ghost use Rattle.std.specs.List.{flat_map};
ghost use Rattle.trac_rules.specs.Fronts.{IsFrontOf};
ghost use Rattle.trac_rules.specs.Records.{Record, state_before};
ghost use Rattle.trac_rules.specs.Rows.{after_nineteen, begun, replies_to, texts_of};
ghost use Rattle.trac_rules.specs.Session.{Back, Commit, Feed, PlainSession, Step, answer, committed, done, first_kept};
ghost use Rattle.trac_rules.specs.Session.{first_of, new_session, over, released, settled};
ghost use Rattle.trac_rules.specs.State.{State, Tape};
ghost use Rattle.trac_rules.specs.Stepping.{step};
ghost use Rattle.trac_rules.specs.Weights.{loss, step_weight};
ghost use Rattle.trac_rules.specs.declared.refusal.Refusal.{Refusal};
ghost use Rattle.trac_rules.specs.declared.kind.Kind.TheVariants.{Active};
ghost use Rattle.trac_rules.specs.declared.refusal.Refusal.TheVariants.{AtStart, TooLong};
ghost use Rattle.trac_rules.specs.declared.reply.Reply.TheVariants.{Done, Refused};
ghost use Rattle.trac_rules.specs.declared.width.Width.{Width};
ghost use Rattle.trac_rules.specs.declared.width.Width.TheVariants.{W128};

/// Steps only read on and print more: so each state that a commit keeps has read no less than the first of them, and
/// its output begins with that one's.
pub fn steps_print_more()
    ensures onward { (width : Width) (tape : Tape) (s t : State) → step (over width tape) s ≡ Ok t →
        s.position ≤ t.position }
    ensures more { (width : Width) (tape : Tape) (s t : State) → step (over width tape) s ≡ Ok t →
        IsFrontOf s.output t.output }
{}

/// After a commit the last state stays, and as many before it as are to be kept, or all if there are fewer. The first
/// of them has no output and stands at the start of the tape. With none to be kept before it, the last state alone
/// stays. If all stay, and the first one had no output and stood at the start already, nothing changes. If a commit
/// that keeps so many follows each step, there is never more than one state more.
pub fn commits_keep_the_last_states()
    ensures count { (keep : ℕ) (p : PlainSession) → length (committed keep p).earlier ≡ min keep (length p.earlier) }
    ensures first { (keep : ℕ) (p : PlainSession) → first_of (committed keep p).last (committed keep p).earlier
        ≡ record (first_kept keep p) { output = []; position = 0 } }
    ensures last_alone { (p : PlainSession) → committed 0 p ≡ record p {
      tape = record p.tape { bytes = drop p.last.position p.tape.bytes };
      earlier = [];
      last = settled p.last;
    } }
    ensures all { (keep : ℕ) (p : PlainSession) → length p.earlier ≤ keep →
        (first_of p.last p.earlier).output ≡ [] → (first_of p.last p.earlier).position ≡ 0 → committed keep p ≡ p }
    ensures one_more { (keep : ℕ) (p q : PlainSession) → length p.earlier ≤ keep → answer Step p ≡ done q →
        length q.earlier ≤ keep + 1 }
{}

/// Take bytes from the front of a state's output, and bytes that it has read from the front of the tape, so that its
/// position falls by as many. Then all goes as before: a step leads to the next state, released alike, or is refused
/// alike, but for `TooLong`, which a limit on the output may have caused; a record leads to the state before, released
/// alike; the step's record weighs as much, and the step loses as much.
pub fn released_states_go_on()
    ensures taken { (width : Width) (tape : Tape) (s t : State) (output position : ℕ) →
        position ≤ s.position → output ≤ length s.output → step (over width tape) s ≡ Ok t →
        step (over width (record tape { bytes = drop position tape.bytes })) (released output position s)
        ≡ Ok (released output position t) }
    ensures refused { (width : Width) (tape : Tape) (s : State) (refusal : Refusal) (output position : ℕ) →
        position ≤ s.position → refusal ≢ TooLong → step (over width tape) s ≡ Err refusal →
        step (over width (record tape { bytes = drop position tape.bytes })) (released output position s)
        ≡ Err refusal }
    ensures before { (r : Record) (s t : State) (output position : ℕ) →
        position ≤ s.position → output ≤ length s.output → state_before r t ≡ Some s →
        state_before r (released output position t) ≡ Some (released output position s) }
    ensures weight { (s : State) (output position : ℕ) → step_weight (released output position s) ≡ step_weight s }
    ensures loss { (s : State) (output position : ℕ) → loss (released output position s) ≡ loss s }
{}

/// Nineteen steps over a text that is printed by the eleventh, and then a commit that keeps a window of them.
pub fn worked_windows()
    // Ten steps can be gone back over: to the state after the ninth, which has read the text and printed nothing.
    ensures ten_stay { length (after_nineteen (Commit 10 ∷ [])).earlier ≡ 10 }
    ensures ten_pending { (after_nineteen (Commit 10 ∷ [])).last.output ≡ codes "AB" }
    ensures ten_tape { (after_nineteen (Commit 10 ∷ [])).tape.bytes ≡ [] }
    ensures ten_back { replies_to (replicate 11 Back) (after_nineteen (Commit 10 ∷ []))
        ≡ replicate 10 Done ++ Refused AtStart ∷ [] }
    ensures first_active { (after_nineteen (Commit 10 ∷ replicate 10 Back)).last.active ≡ codes "B)" }
    ensures first_frames { (after_nineteen (Commit 10 ∷ replicate 10 Back)).last.frames
        ≡ begun Active (texts_of "ps") (codes "A") ∷ [] }
    ensures first_position { (after_nineteen (Commit 10 ∷ replicate 10 Back)).last.position ≡ 0 }
    ensures first_output { (after_nineteen (Commit 10 ∷ replicate 10 Back)).last.output ≡ [] }
    ensures ten_released { (first_kept 10 (after_nineteen [])).output ≡ [] }
    // With eight, what was printed is released.
    ensures eight_stay { length (after_nineteen (Commit 8 ∷ [])).earlier ≡ 8 }
    ensures eight_pending { (after_nineteen (Commit 8 ∷ [])).last.output ≡ [] }
    ensures eight_released { (first_kept 8 (after_nineteen [])).output ≡ codes "AB" }
    // With twelve, going back all the way and one step forward reads the text again.
    ensures read_again_active { (after_nineteen (Commit 12 ∷ replicate 12 Back ++ Step ∷ [])).last.active
        ≡ codes "AB)" }
    ensures read_again_position { (after_nineteen (Commit 12 ∷ replicate 12 Back ++ Step ∷ [])).last.position ≡ 3 }
    // With more than there are, all stay; nothing changes then, by the law.
    ensures all_stay { length (after_nineteen (Commit 99 ∷ [])).earlier ≡ 19 }
    ensures all_pending { (after_nineteen (Commit 99 ∷ [])).last.output ≡ codes "AB" }
    // With a limit of six, and five kept after each step, no step finds the journal full.
    ensures small_journal { replies_to
        (Feed (codes "AB'") ∷ flat_map (λ command. command ∷ Commit 5 ∷ []) (replicate 19 Step) ++ replicate 6 Back)
        (new_session 6 W128) ≡ replicate 44 Done ++ Refused AtStart ∷ [] }
{}
