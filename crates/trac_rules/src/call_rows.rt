//! Worked rows of records of calls: what calls on forms and blocks destroy and how that is given back, what records
//! weigh, and whole steps there and back.
ghost use Rattle.std.specs.Prelude.{◌≡◌, ◌++◌, ◌∷◌, [], codes, None, Some, false, true};
ghost use Rattle.trac_rules.specs.Form.{defined};
ghost use Rattle.trac_rules.specs.RecordRows.{Destroys, GivesBack, GivesNothingBack, IsLedBack, Weighs, no_tape};
ghost use Rattle.trac_rules.specs.RecordRows.{records_of, silent_call, weights_of};
ghost use Rattle.trac_rules.specs.Records.{Called, record_of, restored, state_before};
ghost use Rattle.trac_rules.specs.Rows.{begun, fed, gap_at, named, named_at, pointing_at, session_of, standing};
ghost use Rattle.trac_rules.specs.Rows.{state_of, text_at, texts_of};
ghost use Rattle.trac_rules.specs.Session.{over};
ghost use Rattle.trac_rules.specs.State.{initial};
ghost use Rattle.trac_rules.specs.Undone.{Join, MoveOut, Nothing, Point, Restore, Swap, Unbring, Unerase};
ghost use Rattle.trac_rules.specs.Weights.{weight};
ghost use Rattle.trac_rules.specs.declared.byte.TheConstants.{LINE_FEED};
ghost use Rattle.trac_rules.specs.declared.item.Item.TheVariants.{Byte, Gap};
ghost use Rattle.trac_rules.specs.declared.kind.Kind.TheVariants.{Active, Neutral};
ghost use Rattle.trac_rules.specs.declared.width.Width.TheVariants.{W128};

/// What calls destroy of forms and blocks.
pub fn worked_destroyed()
    // A replaced form is kept with its pointer; deleted forms in the order in which they are named, and all
    // of them in the order of names.
    ensures defining { Destroys (texts_of "ds,a,1") [] [] (Swap None) }
    ensures defining_again { Destroys (texts_of "ds,a,1") (named_at 1 "a" "xyz" ++ named "b" "2") []
        (Swap (Some (text_at 1 "xyz"))) }
    ensures deleting { Destroys (texts_of "dd,b,c,a,b") (named "a" "1" ++ named "b" "2") []
        (Restore (named "b" "2" ++ named "a" "1")) }
    ensures deleting_nothing { Destroys (texts_of "dd") (named "a" "1") [] (Restore []) }
    ensures deleting_all { Destroys (texts_of "da") (named "bc" "2" ++ named "a" "1") []
        (Restore (named "a" "1" ++ named "bc" "2")) }
    // Of segmenting the new gaps are kept; of what may move a pointer, where it stood, even if it does not move.
    ensures segmenting { Destroys (texts_of "ss,F,b") (named_at 1 "F" "abcb") []
        (Join (gap_at 1 1 ∷ gap_at 3 1 ∷ []) 1) }
    ensures segmenting_again { Destroys (texts_of "ss,F,b") (pointing_at 1 "F" (Gap 1 2 ∷ Byte 98 ∷ [])) []
        (Join (gap_at 1 1 ∷ []) 1) }
    ensures segmenting_nothing { Destroys (texts_of "ss,F,b") [] [] Nothing }
    ensures restoring { Destroys (texts_of "cr,F") (named_at 2 "F" "abc") [] (Point 2) }
    ensures restoring_nothing { Destroys (texts_of "cr,F") [] [] Nothing }
    ensures reading_a_segment { Destroys (texts_of "cs,F,z") (named_at 2 "F" "abc") [] (Point 2) }
    ensures reading_a_byte_at_the_end { Destroys (texts_of "cc,F,z") (named_at 3 "F" "abc") [] (Point 3) }
    ensures reading_no_bytes { Destroys (texts_of "cn,F,0,z") (named_at 1 "F" "abc") [] (Point 1) }
    ensures reading_up_to_a_text { Destroys (texts_of "in,F,x,z") (named_at 1 "F" "abc") [] (Point 1) }
    ensures reading_no_form { Destroys (texts_of "cs,F,z") [] [] Nothing }
    // What only looks at forms destroys nothing of them, nor does any other primitive or an unknown name.
    ensures calling { Destroys (texts_of "cl,F,x") (named_at 1 "F" "abc") [] Nothing }
    ensures listing { Destroys (texts_of "ln,;") (named "F" "abc") [] Nothing }
    ensures showing { Destroys (texts_of "pf,F") (named "F" "abc") [] Nothing }
    ensures printing { Destroys (texts_of "ps,F") (named "F" "abc") [] Nothing }
    ensures unknown { Destroys (texts_of "zz,F") (named "F" "abc") [] Nothing }
    // Of forms that are put aside nothing is kept, but the form that the address of their block
    // replaces, unless it is put aside too.
    ensures storing { Destroys (texts_of "sb,G,A,C,B,A") (named "A" "1" ++ named "B" "2") [] (MoveOut None) }
    ensures storing_over { Destroys (texts_of "sb,G,A") (named "A" "1" ++ named_at 1 "G" "xy") []
        (MoveOut (Some (text_at 1 "xy"))) }
    ensures storing_itself { Destroys (texts_of "sb,G,G") (named "G" "xy") [] (MoveOut None) }
    // Of a block whose copies are brought back the replaced forms are kept, of an erased one all
    // that it held, and its address.
    ensures fetching { Destroys (texts_of "fb,G") (named_at 1 "A" "9xx" ++ named "G" "0")
        (Some (named "A" "1" ++ named "B" "2") ∷ []) (Unbring 0 (named_at 1 "A" "9xx")) }
    ensures fetching_itself { Destroys (texts_of "fb,G") (named "G" "1") (None ∷ Some (named "G" "x") ∷ [])
        (Unbring 1 (named "G" "1")) }
    ensures erasing { Destroys (texts_of "eb,G") (named_at 1 "G" "0") (Some (named "A" "1" ++ named "B" "2") ∷ [])
        (Unerase 0 (named "A" "1" ++ named "B" "2") (text_at 1 "0")) }
    ensures erasing_nothing { Destroys (texts_of "eb,G") (named "G" "1") (Some (named "A" "1" ++ named "B" "2") ∷ [])
        Nothing }
{}

/// How forms and blocks are given back.
pub fn worked_given_back()
    // A form that was defined is gone, or what it replaced stands again; deleted forms are back.
    ensures defined { GivesBack (texts_of "ds,a,1") (Swap None) (named "a" "1") [] [] [] }
    ensures defined_again { GivesBack (texts_of "ds,a,1") (Swap (Some (text_at 1 "xyz")))
        (named "a" "1" ++ named "b" "2") [] (named_at 1 "a" "xyz" ++ named "b" "2") [] }
    ensures deleted { GivesBack (texts_of "dd,b,c,a,b") (Restore (named "b" "2" ++ named "a" "1")) (named "d" "4") []
        (named "a" "1" ++ named "b" "2" ++ named "d" "4") [] }
    ensures all_deleted { GivesBack (texts_of "da") (Restore (named "a" "1" ++ named "bc" "2")) [] []
        (named "bc" "2" ++ named "a" "1") [] }
    // New gaps are filled again, even if the pointer has moved on, and earlier ones stay; the pointer stands where it
    // stood.
    ensures segmented { GivesBack (texts_of "ss,F,b") (Join (gap_at 1 1 ∷ gap_at 3 1 ∷ []) 1)
        (pointing_at 0 "F" (Byte 97 ∷ Gap 1 1 ∷ Byte 99 ∷ Gap 1 1 ∷ [])) [] (named_at 1 "F" "abcb") [] }
    ensures segmented_again { GivesBack (texts_of "ss,F,x") (Join (gap_at 1 1 ∷ []) 0)
        (pointing_at 2 "F" (Gap 1 1 ∷ Gap 1 1 ∷ Byte 98 ∷ [])) []
        (pointing_at 0 "F" (Gap 1 1 ∷ Byte 120 ∷ Byte 98 ∷ [])) [] }
    ensures pointed { GivesBack (texts_of "cn,F,2") (Point 1) (named_at 3 "F" "abc") [] (named_at 1 "F" "abc") [] }
    ensures pointed_at_the_end { GivesBack (texts_of "cr,F") (Point 3) (named_at 0 "F" "abc") [] (named_at 3 "F" "abc")
        [] }
    // The last block is off the list and its forms are back, even if the name of its address is among theirs.
    ensures put_aside { GivesBack (texts_of "sb,G,A,C,B,A") (MoveOut None) (named "G" "1")
        (None ∷ Some (named "A" "1" ++ named "B" "2") ∷ []) (named "A" "1" ++ named "B" "2") (None ∷ []) }
    ensures put_aside_over { GivesBack (texts_of "sb,G,A") (MoveOut (Some (defined (codes "xy")))) (named "G" "0")
        (Some (named "A" "1") ∷ []) (named "A" "1" ++ named "G" "xy") [] }
    ensures put_aside_itself { GivesBack (texts_of "sb,G,G") (MoveOut None) (named "G" "0") (Some (named "G" "xy") ∷ [])
        (named "G" "xy") [] }
    // Copies are gone, and what they replaced stands again. An erased block holds its forms again,
    // and its address is back.
    ensures fetched { GivesBack (texts_of "fb,G") (Unbring 0 (named_at 1 "A" "9xx"))
        (named "A" "1" ++ named "B" "2" ++ named "G" "0") (Some (named "A" "1" ++ named "B" "2") ∷ [])
        (named_at 1 "A" "9xx" ++ named "G" "0") (Some (named "A" "1" ++ named "B" "2") ∷ []) }
    ensures fetched_itself { GivesBack (texts_of "fb,G") (Unbring 1 (named "G" "1")) (named "G" "x")
        (None ∷ Some (named "G" "x") ∷ []) (named "G" "1") (None ∷ Some (named "G" "x") ∷ []) }
    ensures erased { GivesBack (texts_of "eb,G") (Unerase 0 (named "A" "1" ++ named "B" "2") (text_at 1 "0"))
        (named "H" "0") (None ∷ Some [] ∷ []) (named_at 1 "G" "0" ++ named "H" "0")
        (Some (named "A" "1" ++ named "B" "2") ∷ Some [] ∷ []) }
    // A form, a gap or a block that is not there gives nothing back, nor does a place past the end of a form.
    ensures no_form_to_point { GivesNothingBack (texts_of "cr,F") (Point 0) [] [] }
    ensures past_the_end { GivesNothingBack (texts_of "cr,F") (Point 4) (named "F" "abc") [] }
    ensures no_form_to_join { GivesNothingBack (texts_of "ss,F,b") (Join [] 0) [] [] }
    ensures no_gap { GivesNothingBack (texts_of "ss,F,b") (Join (gap_at 1 1 ∷ []) 0) (named "F" "abc") [] }
    ensures joined_past_the_end { GivesNothingBack (texts_of "ss,F,b") (Join (gap_at 1 1 ∷ []) 4)
        (pointing_at 0 "F" (Byte 97 ∷ Gap 1 1 ∷ Byte 99 ∷ [])) [] }
    ensures no_block { GivesNothingBack (texts_of "sb,G") (MoveOut None) (named "G" "0") [] }
    ensures last_block_erased { GivesNothingBack (texts_of "sb,G") (MoveOut None) (named "G" "1")
        (Some [] ∷ None ∷ []) }
    ensures fetched_block_erased { GivesNothingBack (texts_of "fb,G") (Unbring 0 []) (named "G" "0") (None ∷ []) }
    ensures fetched_block_missing { GivesNothingBack (texts_of "fb,G") (Unbring 1 []) (named "G" "1") (Some [] ∷ []) }
    ensures block_not_erased { GivesNothingBack (texts_of "eb,G") (Unerase 0 [] (defined (codes "0"))) []
        (Some [] ∷ []) }
    ensures block_missing { GivesNothingBack (texts_of "eb,G") (Unerase 0 [] (defined (codes "0"))) [] [] }
    // Nor does a state that lacks the form which was put there, or has one where none was left: under a name that was
    // given to delete or to move it, under that of a form that comes back, and under that of an address.
    ensures no_form_to_undefine { GivesNothingBack (texts_of "ds,a,1") (Swap None) (named "b" "2") [] }
    ensures deleted_form_there { GivesNothingBack (texts_of "dd,a") (Restore (named "a" "1")) (named "a" "2") [] }
    ensures deleted_name_there { GivesNothingBack (texts_of "dd,a,b") (Restore (named "a" "1")) (named "b" "2") [] }
    ensures deleted_all_but_one { GivesNothingBack (texts_of "da") (Restore (named "a" "1")) (named "zz" "2") [] }
    ensures no_address_of_the_block { GivesNothingBack (texts_of "sb,G,A") (MoveOut None) []
        (Some (named "A" "1") ∷ []) }
    ensures form_of_the_block_there { GivesNothingBack (texts_of "sb,G,A") (MoveOut None)
        (named "A" "2" ++ named "G" "0") (Some (named "A" "1") ∷ []) }
    ensures moved_name_there { GivesNothingBack (texts_of "sb,G,C") (MoveOut None) (named "C" "3" ++ named "G" "0")
        (Some [] ∷ []) }
    ensures old_form_in_the_block { GivesNothingBack (texts_of "sb,G,G") (MoveOut (Some (defined (codes "xy"))))
        (named "G" "0") (Some (named "G" "xy") ∷ []) }
    ensures copy_missing { GivesNothingBack (texts_of "fb,G") (Unbring 0 []) (named "A" "1" ++ named "G" "0")
        (Some (named "A" "1" ++ named "B" "2") ∷ []) }
    ensures replaced_form_there { GivesNothingBack (texts_of "fb,G") (Unbring 0 (named "C" "3"))
        (named "A" "1" ++ named "C" "4" ++ named "G" "0") (Some (named "A" "1") ∷ []) }
    ensures no_copy_over_the_replaced { GivesNothingBack (texts_of "fb,G") (Unbring 0 (named "C" "3"))
        (named "A" "1" ++ named "G" "0") (Some (named "A" "1") ∷ []) }
    ensures address_there { GivesNothingBack (texts_of "eb,G") (Unerase 0 [] (defined (codes "0"))) (named "G" "0")
        (None ∷ []) }
{}

/// What records of calls weigh.
pub fn worked_call_weights()
    // The arguments with one for each comma between them; lengths and flags weigh nothing, and
    // neither does an old pointer.
    ensures reading { Weighs "rs" Nothing 2 }
    ensures printing { Weighs "ps," Nothing 3 }
    ensures lengths { weight
        (Called (record (silent_call (texts_of "rs") Nothing) { value = 9; printed = 9; read = 9; trace = true })) ≡ 2 }
    ensures pointing { Weighs "cr,F" (Point 9) 4 }
    ensures meta { weight (Called (record (silent_call (texts_of "cm,;x") Nothing) { meta = Some 39 })) ≡ 6 }
    // Of a replaced form its items, since its name is not kept; of a deleted one its name too, and one more.
    ensures defining { Weighs "ds,a,1" (Swap None) 6 }
    ensures defining_again { Weighs "ds,a,1" (Swap (Some (defined (codes "xyz")))) 9 }
    ensures deleting { Weighs "dd,a" (Restore (named "a" "1")) 7 }
    ensures deleting_two { Weighs "da" (Restore (named "a" "1" ++ named "bc" "xy")) 10 }
    // One for each new gap; of forms that are put aside nothing; a block with all its forms,
    // and its address without its name.
    ensures segmenting { Weighs "ss,F,b" (Join (gap_at 1 1 ∷ gap_at 3 1 ∷ []) 9) 8 }
    ensures storing { Weighs "sb,G,A" (MoveOut (Some (defined (codes "xy")))) 8 }
    ensures storing_itself { Weighs "sb,G,G" (MoveOut None) 6 }
    ensures fetching { Weighs "fb,G" (Unbring 7 (named "A" "9xx")) 9 }
    ensures erasing { Weighs "eb,G" (Unerase 7 (named "A" "1" ++ named "BB" "2") (defined (codes "0"))) 12 }
{}

/// Records of whole steps, there and back.
pub fn worked_call_records()
    // Whole sessions: scanning, `rs`, `ps` and the idle step.
    ensures text { weights_of (records_of (session_of (fed "AB'" 19))) ≡ 7 }
    ensures stray { weights_of (records_of (session_of (fed "a)b,c'" 22))) ≡ 10 }
    // `rs` there and back: its value is off the active text, and what it read is to be read again.
    ensures reading { record_of (over W128 (record { bytes = codes "AB'"; ended = false })) (state_of (fed "AB'" 7))
        ≡ Some (Called (record (silent_call (texts_of "rs") Nothing) { value = 2; read = 3 })) }
    ensures reading_back { restored (Called (record (silent_call (texts_of "rs") Nothing) { value = 2; read = 3 }))
        (state_of (fed "AB'" 8)) ≡ Some (state_of (fed "AB'" 7)) }
    // The call prints the line of the trace, and the old flag is kept. An old meta character is kept even if the same
    // one is set.
    ensures tracing { IsLedBack
        (record (standing ")a" "x" (begun Active [] (codes "tf") ∷ [])) { trace = true; output = codes "o" })
        (Called (record (silent_call (texts_of "tf") Nothing) { printed = 6; trace = true }))
        (record (standing "a" "x" []) { output = codes "o#(tf)" ++ LINE_FEED ∷ [] }) }
    ensures same_meta { IsLedBack (standing ")a" "x" (begun Active (texts_of "cm") (codes "'") ∷ []))
        (Called (record (silent_call (texts_of "cm,'") Nothing) { meta = Some 39 }))
        (record (standing "a" "x" []) { meta = 59 }) }
    ensures same_meta_weight { weight (Called (record (silent_call (texts_of "cm,'") Nothing) { meta = Some 39 })) ≡ 5 }
    ensures null_meta { record_of (over W128 no_tape) (standing ")a" "x" (begun Active (texts_of "cm") [] ∷ []))
        ≡ Some (Called (silent_call (texts_of "cm,") Nothing)) }
    // The value of a neutral function is at the end of the current text, and a forced one before the active text.
    ensures neutral { IsLedBack (standing ")a" "x" (begun Neutral (texts_of "eq,a,a,yes") (codes "no") ∷ []))
        (Called (record (silent_call (texts_of "eq,a,a,yes,no") Nothing) {
          kind = Neutral;
          value = 3;
          scanned = false;
        })) (standing "a" "xyes" []) }
    ensures forced { IsLedBack (standing ")a" "x" (begun Neutral (texts_of "dv,1,0") (codes "none") ∷ []))
        (Called (record (silent_call (texts_of "dv,1,0,none") Nothing) { kind = Neutral; value = 4 }))
        (standing "nonea" "x" []) }
    // A call that is refused destroys nothing.
    ensures refused { record_of (over W128 (record { bytes = codes "A"; ended = false }))
        (standing ")" "" (begun Active [] (codes "rs") ∷ [])) ≡ None }
    // A state that does not show so long a value, print or read; and a record without arguments.
    ensures too_short_active { state_before (Called (record (silent_call (texts_of "rs") Nothing) { value = 2 }))
        (standing "a" "" []) ≡ None }
    ensures too_short_base { state_before
        (Called (record (silent_call (texts_of "rs") Nothing) { value = 2; scanned = false })) (standing "" "a" [])
        ≡ None }
    ensures too_short_argument { state_before
        (Called (record (silent_call (texts_of "rs") Nothing) { value = 2; scanned = false }))
        (standing "" "ab" (begun Active (texts_of "ps") (codes "a") ∷ [])) ≡ None }
    ensures too_little_printed { state_before (Called (record (silent_call (texts_of "rs") Nothing) { printed = 2 }))
        (record initial { output = codes "a" }) ≡ None }
    ensures too_little_read { state_before (Called (record (silent_call (texts_of "rs") Nothing) { read = 2 }))
        (record initial { position = 1 }) ≡ None }
    ensures no_arguments { state_before (Called (silent_call [] Nothing)) initial ≡ None }
{}
