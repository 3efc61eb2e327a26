//! Records of what a step destroys: laws, and worked rows.
ghost use Rattle.std.specs.List.{All};
ghost use Rattle.std.specs.Prelude.{◌≡◌, ◌≤◌, ◌*◌, ◌^◌, ◌++◌, ◌∷◌, [], codes, length, is_some, option_map, replicate};
ghost use Rattle.std.specs.Prelude.{take, List, None, Ok, Some, false, true, ℕ};
ghost use Rattle.trac_rules.specs.Limits.{marks, text_bytes};
ghost use Rattle.trac_rules.specs.Proper.{IsProper};
ghost use Rattle.trac_rules.specs.Records.{Begun, CallRecord, Called, Comma, Deleted, Idle, IsOfScanning, Moved};
ghost use Rattle.trac_rules.specs.Records.{Quoted, Record, call_record_of, further_on, led_back, record_of};
ghost use Rattle.trac_rules.specs.Records.{records_from, rest_before, rest_of, restored, state_before, texts_before};
ghost use Rattle.trac_rules.specs.Records.{texts_in};
ghost use Rattle.trac_rules.specs.RecordRows.{Costs, IsLedBack, losses_of, most_in, no_tape, records_of};
ghost use Rattle.trac_rules.specs.Rows.{begun, fed, named, pointing_at, replies_of, session_of, standing, state_of};
ghost use Rattle.trac_rules.specs.Rows.{texts_of};
ghost use Rattle.trac_rules.specs.Session.{PlainSession, Step, over, repeated};
ghost use Rattle.trac_rules.specs.State.{Environment, State, initial, storage_of};
ghost use Rattle.trac_rules.specs.Stepping.{step};
ghost use Rattle.trac_rules.specs.Undone.{storage_before};
ghost use Rattle.trac_rules.specs.Weights.{loss, losses_from, step_weight, weight, weights_from};
ghost use Rattle.trac_rules.specs.declared.byte.TheConstants.{CLOSING, COMMA, TAB};
ghost use Rattle.trac_rules.specs.declared.item.Item.TheVariants.{Byte, Gap};
ghost use Rattle.trac_rules.specs.declared.kind.Kind.TheVariants.{Active, Neutral};
ghost use Rattle.trac_rules.specs.declared.refusal.Refusal.TheVariants.{NeedInput};
ghost use Rattle.trac_rules.specs.declared.reply.Reply.TheVariants.{Done, Refused};
ghost use Rattle.trac_rules.specs.declared.width.Width.TheVariants.{W128};

/// Each accepted step, of scanning or a call, has a record. With the state after the step it gives back the state
/// before, if that is a proper one: nothing else holds what was lost. The state before is always a proper one. If a
/// session takes so many steps one after another, as many records lead back over all of them.
pub fn records_lead_back()
    ensures is_there { (environment : Environment) (s t : State) → step environment s ≡ Ok t →
        is_some (record_of environment s) ≡ true }
    ensures each_step { (environment : Environment) (s t : State) (r : Record) → IsProper s →
        step environment s ≡ Ok t → record_of environment s ≡ Some r → state_before r t ≡ Some s }
    ensures only_proper { (r : Record) (s t : State) → state_before r t ≡ Some s → IsProper s }
    ensures all_steps { (n : ℕ) (old new : PlainSession) → IsProper old.last → repeated Step n old ≡ Some new →
        led_back (records_from (over new.width new.tape) (take n new.earlier)) new.last ≡ Some old.last }
{}

/// The record of a call keeps what the call destroyed, and with that the state after it gives back the state before.
/// Each of the three parts of a state is got back by itself, from its part of the state after and nothing else: texts
/// and begun functions; forms and blocks; all the rest.
pub fn records_of_calls_lead_back()
    ensures texts { (environment : Environment) (s t : State) (call : CallRecord) → step environment s ≡ Ok t →
        call_record_of environment s ≡ Some call → texts_before call (texts_in t) ≡ Some (texts_in s) }
    ensures storage { (environment : Environment) (s t : State) (call : CallRecord) →
        step environment s ≡ Ok t → call_record_of environment s ≡ Some call →
        storage_before call.arguments call.undone (storage_of t) ≡ Some (storage_of s) }
    ensures rest { (environment : Environment) (s t : State) (call : CallRecord) → step environment s ≡ Ok t →
        call_record_of environment s ≡ Some call → rest_before call (rest_of t) ≡ Some (rest_of s) }
    ensures whole { (environment : Environment) (s t : State) (call : CallRecord) → step environment s ≡ Ok t →
        call_record_of environment s ≡ Some call → restored (Called call) t ≡ Some s }
{}

/// A record names no absolute place of the tape or of the output. One of scanning knows nothing of either: what it
/// restores stands where the state after stands, with its output. Of any record: if the state after stands so many
/// bytes further on, and its output has a text before it, so it is with the state before.
pub fn records_name_no_place()
    ensures elsewhere { (r : Record) (t : State) (position : ℕ) (output : List ℕ) → IsOfScanning r →
        restored r (record t { position = position; output = output })
        ≡ option_map (λ (s : State). record s { position = position; output = output }) (restored r t) }
    ensures further { (r : Record) (s t : State) (k : ℕ) (text : List ℕ) → restored r t ≡ Some s →
        restored r (further_on k text t) ≡ Some (further_on k text s) }
{}

/// The record of a step weighs no more than the step may lose.
#[tactic(auto, using(crate::proofs::CallsWeighed::record_within))]
pub fn records_weigh_no_more()
    ensures { (environment : Environment) (s : State) (r : Record) → record_of environment s ≡ Some r →
        weight r ≤ loss s }
{}

/// What the record of a step weighs is told by the state before the step alone, whatever the input is, and is no more
/// than the step may lose. From a proper state that is less than five million million. So a word of 64 bits holds what
/// a record weighs, and what all records of a journal weigh together.
pub fn weights_are_told_by_states()
    ensures of_records { (environment : Environment) (s : State) (r : Record) → record_of environment s ≡ Some r →
        weight r ≡ step_weight s }
    ensures within { (s : State) → step_weight s ≤ loss s }
    ensures together { (states : List State) → weights_from states ≤ losses_from states }
    ensures bounded { (s : State) → IsProper s → loss s ≤ 2 ^ 42 }
    ensures all_bounded { (states : List State) → All IsProper states → losses_from states ≤ length states * 2 ^ 42 }
{}

/// What the steps of scanning keep, and what is got back from that.
pub fn worked_records()
    // The stray `)` of the input ends the idle program's `ps`; then `b` and `c` go to the base text, and
    // the fifteenth step empties it.
    ensures steps { replies_of (fed "a)b,c'" 23) ≡ replicate 23 Done ++ Refused NeedInput ∷ [] }
    ensures first_seven { records_of (session_of (fed "a)b,c'" 7))
        ≡ Moved ∷ Moved ∷ Begun ∷ Comma ∷ Moved ∷ Moved ∷ Begun ∷ [] }
    ensures eleventh_to_fifteenth { take 5 (records_of (session_of (fed "a)b,c'" 15)))
        ≡ Idle (codes "bc") [] ∷ Deleted CLOSING ∷ Moved ∷ Deleted COMMA ∷ Moved ∷ [] }
    ensures all_back { led_back (records_of (session_of (fed "a)b,c'" 22))) (state_of (fed "a)b,c'" 22))
        ≡ Some initial }
    // Functions that are begun and never ended are emptied with the base text.
    ensures begun_functions { record_of (over W128 no_tape) (state_of (fed ")x##(a,b#(c,d#(e'" 21))
        ≡ Some (Idle (codes "x")
        (begun Active (texts_of "c") (codes "d") ∷ begun Neutral (texts_of "a") (codes "b") ∷ [])) }
    ensures begun_functions_weight { weight
        (Idle (codes "x") (begun Active (texts_of "c") (codes "d") ∷ begun Neutral (texts_of "a") (codes "b") ∷ []))
        ≡ 9 }
    // The room that a machine needs for the first eleven steps over `AB'`, and back.
    ensures text_room { most_in text_bytes (session_of (fed "AB'" 11)) ≡ 11 }
    ensures mark_room { most_in (λ s. marks s.frames) (session_of (fed "AB'" 11)) ≡ 3 }
    ensures output_room { most_in (λ s. length s.output) (session_of (fed "AB'" 11)) ≡ 2 }
    // A protected text, with a match and without one.
    ensures matched { IsLedBack (standing "(a,(b))c" "x" []) (Quoted 5 true) (standing "c" "xa,(b)" []) }
    ensures unmatched { IsLedBack (standing "((a)" "x" []) (Quoted 3 false) (standing "" "x(a)" []) }
    ensures layout { record_of (over W128 no_tape) (record initial { active = TAB ∷ codes "a" }) ≡ Some (Deleted TAB) }
    ensures layout_weight { weight (Deleted TAB) ≡ 1 }
    // An argument that is gathered again, and a neutral function that is no longer begun.
    ensures argument_back { restored Comma (standing "b" "" (begun Neutral (texts_of "x,a") [] ∷ []))
        ≡ Some (standing ",b" "" (begun Neutral (texts_of "x") (codes "a") ∷ [])) }
    ensures beginning_back { restored Begun (standing "b" "" (begun Neutral [] [] ∷ []))
        ≡ Some (standing "##(b" "" []) }
    // A state that does not show what the record names.
    ensures nothing_moved { state_before Moved initial ≡ None }
    ensures too_little_protected { state_before (Quoted 3 true) (standing "" "ab" []) ≡ None }
    ensures no_function { state_before Comma initial ≡ None }
    ensures no_argument { state_before Comma (standing "" "" (begun Active [] [] ∷ [])) ≡ None }
    ensures further_argument { state_before Comma (standing "" "" (begun Active (texts_of "a") (codes "b") ∷ []))
        ≡ None }
    ensures begun_with_text { state_before Begun (standing "" "" (begun Active [] (codes "b") ∷ [])) ≡ None }
    ensures begun_with_argument { state_before Begun (standing "" "" (begun Active (texts_of "a") [] ∷ [])) ≡ None }
    ensures not_idle { state_before (Idle (codes "b") []) (standing "" "a" []) ≡ None }
{}

/// What steps may cost the journal.
pub fn worked_losses()
    // Whole sessions: scanning, `rs`, `ps` and the idle step.
    ensures text { losses_of (session_of (fed "AB'" 19)) ≡ 7 }
    ensures stray { losses_of (session_of (fed "a)b,c'" 22)) ≡ 10 }
    ensures begun_functions { loss (state_of (fed ")x##(a,b#(c,d#(e'" 21)) ≡ 9 }
    // Scanning loses a byte of layout, and nothing when it begins a function, protects a text or passes a `#`.
    ensures layout { loss (record initial { active = TAB ∷ codes "a" }) ≡ 1 }
    ensures beginning { loss (standing "##(a" "" []) ≡ 0 }
    ensures protecting { loss (standing "(a)b" "" []) ≡ 0 }
    ensures sharp { loss (standing "#a" "" []) ≡ 0 }
    // A call loses its arguments and the commas between them, and a meta character that it sets.
    ensures reading { Costs (texts_of "rs") [] [] 2 }
    ensures printing { Costs (texts_of "ps,") [] [] 3 }
    ensures meta { Costs (texts_of "cm,;x") [] [] 6 }
    ensures null_meta { Costs (texts_of "cm,") [] [] 3 }
    ensures calling { Costs (texts_of "cl,F") (named "F" "abc") [] 4 }
    // Forms that are replaced or deleted: their items, their names, and one for each.
    ensures defining { Costs (texts_of "ds,a,1") [] [] 6 }
    ensures defining_again { Costs (texts_of "ds,a,1") (named "a" "xyz") [] 11 }
    ensures deleting { Costs (texts_of "dd,a") (named "a" "1") [] 7 }
    ensures deleting_twice { Costs (texts_of "dd,a,c,a") (named "a" "1" ++ named "b" "2") [] 11 }
    ensures deleting_all { Costs (texts_of "da") (named "a" "1" ++ named "bc" "xy") [] 10 }
    // Segmenting costs one for each gap that it makes.
    ensures segmenting { Costs (texts_of "ss,F,b") (named "F" "abcb") [] 8 }
    ensures segmenting_again { Costs (texts_of "ss,F,b") (pointing_at 1 "F" (Gap 1 2 ∷ Byte 98 ∷ [])) [] 7 }
    ensures segmenting_nothing { Costs (texts_of "ss,F,b") [] [] 6 }
    // A form that is put aside is not lost; of the forms that a block's copies replace, all are.
    ensures storing { Costs (texts_of "sb,G,A") (named "A" "1" ++ named "G" "xy") [] 10 }
    ensures storing_itself { Costs (texts_of "sb,G,G") (named "G" "xy") [] 6 }
    ensures fetching { Costs (texts_of "fb,G") (named "A" "9xx" ++ named "G" "0")
        (Some (named "A" "1" ++ named "B" "2") ∷ []) 9 }
    ensures erasing { Costs (texts_of "eb,G") (named "G" "0") (Some (named "A" "1" ++ named "BB" "2") ∷ []) 14 }
    ensures erasing_nothing { Costs (texts_of "eb,G") (named "G" "1") (Some (named "A" "1") ∷ []) 4 }
{}
