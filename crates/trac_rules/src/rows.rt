//! Worked rows of the language, computed from the definitions.
ghost use Rattle.std.specs.Prelude.{◌≡◌, ◌++◌, ◌∷◌, [], codes, replicate, None, Some};
ghost use Rattle.std.specs.FinMap as map;
ghost use Rattle.trac_rules.specs.Filling.{called};
ghost use Rattle.trac_rules.specs.Form.{at_start, defined, pointed_at};
ghost use Rattle.trac_rules.specs.Listing.{listed};
ghost use Rattle.trac_rules.specs.Performing.{primitive_of};
ghost use Rattle.trac_rules.specs.Rows.{Does, DoesIn, EndsAfter, Forces, ForcesIn, Gives, Leaves, Prints, Writes};
ghost use Rattle.trac_rules.specs.Rows.{WritesBoth, all_kinds, begun, cut_thrice, cut_twice, example, example_at};
ghost use Rattle.trac_rules.specs.Rows.{factorial, fed, gapped_at, halves_at, letters_at, named, named_at, parted_at};
ghost use Rattle.trac_rules.specs.Rows.{pointing_at, replies_of, replies_to, session_after, session_of, state_after};
ghost use Rattle.trac_rules.specs.Rows.{state_of, text_at, texts_of};
ghost use Rattle.trac_rules.specs.Session.{Back, Commit, End, Feed, IsWalk, Run, Step, new_session, no_goal};
ghost use Rattle.trac_rules.specs.Segmenting.{segmented};
ghost use Rattle.trac_rules.specs.Showing.{shown};
ghost use Rattle.trac_rules.specs.State.{initial};
ghost use Rattle.trac_rules.specs.declared.byte.TheConstants.{CARRIAGE_RETURN, LINE_FEED};
ghost use Rattle.trac_rules.specs.declared.item.Item.TheVariants.{Byte, Gap};
ghost use Rattle.trac_rules.specs.declared.kind.Kind.TheVariants.{Active};
ghost use Rattle.trac_rules.specs.declared.primitive.FormAction.TheVariants.{Call};
ghost use Rattle.trac_rules.specs.declared.primitive.Primitive.TheVariants.{Handle};
ghost use Rattle.trac_rules.specs.declared.refusal.Refusal.TheVariants.{AtStart, Closed, Ended, JournalFull, NeedInput};
ghost use Rattle.trac_rules.specs.declared.reply.Reply.TheVariants.{Done, Refused};
ghost use Rattle.trac_rules.specs.declared.width.Width.TheVariants.{W64, W128};

/// What whole runs print, what sessions reply, and how both stand afterwards.
pub fn worked_rows()
    // No input: seven steps, and then the input has ended.
    ensures nothing { EndsAfter 7 "" "" }
    // A text is printed: nineteen steps.
    ensures text { EndsAfter 19 "AB'" "AB" }
    // A `(` of the input finds its match in the idle program, so nothing is printed: eighteen steps.
    ensures opening { EndsAfter 18 "a(b" "" }
    // A `(` without a match protects all the rest.
    ensures unmatched { Writes W128 (codes "((a'") [] }
    // A `)` too many ends the idle program's `ps`: twenty-two steps.
    ensures stray { EndsAfter 22 "a)b,c'" "a" }
    // At the end of the input the meta character may be missing.
    ensures without_meta { Writes W128 (codes "ABC") (codes "ABC") }
    // A `#` that begins no function stands for itself.
    ensures sharps { Writes W128 (codes "a#b##c'") (codes "a#b##c") }
    // A carriage return and a line feed are deleted, but not in a protected text.
    ensures layout { Writes W128 (codes "A" ++ CARRIAGE_RETURN ∷ LINE_FEED ∷ codes "B'") (codes "AB") }
    ensures protected_layout { Writes W128 (codes "(A" ++ LINE_FEED ∷ codes "B)'")
        (codes "A" ++ LINE_FEED ∷ codes "B") }
    // Eleven steps there: the text is printed.
    ensures there_replies { replies_of (fed "AB'" 11) ≡ replicate 12 Done }
    ensures there_output { (state_of (fed "AB'" 11)).output ≡ codes "AB" }
    // One step back: the text stands in the idle program's `ps` again.
    ensures back_replies { replies_of (fed "AB'" 11 ++ Back ∷ []) ≡ replicate 13 Done }
    ensures back_output { (state_of (fed "AB'" 11 ++ Back ∷ [])).output ≡ [] }
    ensures back_active { (state_of (fed "AB'" 11 ++ Back ∷ [])).active ≡ codes ")" }
    ensures back_frames { (state_of (fed "AB'" 11 ++ Back ∷ [])).frames
        ≡ begun Active (texts_of "ps") (codes "AB") ∷ [] }
    // Ten more steps back: the initial state, after which there is none.
    ensures start { state_of (fed "AB'" 11 ++ replicate 11 Back) ≡ initial }
    ensures start_replies { replies_of (fed "AB'" 11 ++ replicate 11 Back ++ Back ∷ [])
        ≡ replicate 23 Done ++ Refused AtStart ∷ [] }
    ensures start_stays { state_of (fed "AB'" 11 ++ replicate 11 Back ++ Back ∷ []) ≡ initial }
    // A step waits for input, and is taken again after a step back and more input.
    ensures waiting { replies_of (fed "AB" 8) ≡ replicate 8 Done ++ Refused NeedInput ∷ [] }
    ensures resumed_replies { replies_of (fed "AB" 8 ++ Feed (codes "'") ∷ Step ∷ Back ∷ Feed (codes "C'") ∷ Step ∷ [])
        ≡ replicate 8 Done ++ Refused NeedInput ∷ replicate 5 Done }
    ensures resumed_active { (state_of (fed "AB" 8 ++ Feed (codes "'") ∷ Step ∷ [])).active ≡ codes "AB)" }
    ensures resumed_position { (state_of (fed "AB" 8 ++ Feed (codes "'") ∷ Step ∷ [])).position ≡ 3 }
    // A full journal refuses a step, until it is emptied.
    ensures full_journal { replies_to (fed "AB'" 5 ++ Commit 0 ∷ Step ∷ Back ∷ Back ∷ []) (new_session 4 W128)
        ≡ replicate 5 Done ++ Refused JournalFull ∷ Done ∷ Done ∷ Done ∷ Refused AtStart ∷ [] }
    // After the end of the input nothing is fed, and the rest is read without a meta character.
    ensures closed_replies { replies_of (Feed (codes "A") ∷ End ∷ fed "B" 8)
        ≡ Done ∷ Done ∷ Refused Closed ∷ replicate 8 Done }
    ensures closed_active { (state_of (Feed (codes "A") ∷ End ∷ fed "B" 8)).active ≡ codes "A)" }
    ensures closed_position { (state_of (Feed (codes "A") ∷ End ∷ fed "B" 8)).position ≡ 1 }
    // Every kind of command, with refusals between them.
    ensures all_kinds_replies { replies_to all_kinds (new_session 4 W128)
        ≡ replicate 5 Done ++ Refused JournalFull ∷ Done ∷ Done ∷ Refused Closed ∷ Done ∷ Refused AtStart ∷ [] }
    ensures all_kinds_active { (state_after all_kinds (new_session 4 W128)).active ≡ codes ",#(rs))" }
{}

/// Sessions as runs and walks.
pub fn worked_walks()
    // A step that waited for input and is taken again after a step back and more input leads to the same state.
    ensures resumed_again { state_of (fed "AB" 8 ++ Feed (codes "'") ∷ Step ∷ Back ∷ Feed (codes "C'") ∷ Step ∷ [])
        ≡ state_of (fed "AB" 8 ++ Feed (codes "'") ∷ Step ∷ []) }
    // Every kind of command, with refusals between them.
    ensures all_kinds_run { Run all_kinds
        (replicate 5 Done ++ Refused JournalFull ∷ Done ∷ Done ∷ Refused Closed ∷ Done ∷ Refused AtStart ∷ [])
        (new_session 4 W128) (session_after all_kinds (new_session 4 W128)) }
    // Walks, whose length and ending are told.
    ensures walk_there { IsWalk Step no_goal 11 (session_of (fed "AB'" 0)) 11 None (session_of (fed "AB'" 11)) }
    ensures walk_back { IsWalk Back no_goal 10 (session_of (fed "AB'" 11 ++ Back ∷ [])) 10 None
        (session_of (fed "AB'" 0)) }
    ensures walk_at_start { IsWalk Back no_goal 1 (session_of (fed "AB'" 0)) 0 (Some AtStart)
        (session_of (fed "AB'" 0)) }
    ensures walk_waiting { IsWalk Step no_goal 8 (session_of (fed "AB" 0)) 7 (Some NeedInput)
        (session_of (fed "AB" 7)) }
    ensures walk_full { IsWalk Step no_goal 5 (session_after (fed "AB'" 0) (new_session 4 W128)) 4 (Some JournalFull)
        (session_after (fed "AB'" 4) (new_session 4 W128)) }
    ensures walk_to_start { IsWalk Back no_goal 2
        (session_after (fed "AB'" 4 ++ Commit 0 ∷ Step ∷ []) (new_session 4 W128)) 1 (Some AtStart)
        (session_after (fed "AB'" 4 ++ Commit 0 ∷ []) (new_session 4 W128)) }
    ensures walk_to_the_rest { IsWalk Step no_goal 8 (session_of (Feed (codes "A") ∷ End ∷ [])) 8 None
        (session_of (Feed (codes "A") ∷ End ∷ replicate 8 Step)) }
{}

/// What runs print that decide, calculate and work on bits.
pub fn worked_calls()
    ensures decimals { WritesBoth
        (codes "#(ad,9223372036854775807,1,over);'#(dv,7,0,none);'#(ad,apples5,pears3);'#(dv,-7,2);'"
        ++ codes "#(gr,99999999999999999999,5,yes,no)'") (codes "9223372036854775808;none;apples8;-3;yes")
        (codes "over;none;apples8;-3;yes") }
    ensures bit_strings { Writes W128 (codes "#(bu,7,10) #(bi,70,5) #(bc,0) #(bs,-1,4) #(br,1,4)'")
        (codes "17 0 7 2 1") }
    // The value of a neutral function is not scanned, but for its default argument.
    ensures neutral { Writes W128 (codes "##(ad,5,(#(su,9,10)))'") (codes "5") }
    ensures forced { Writes W128 (codes "##(dv,1,0,(#(ad,2,2)))'") (codes "4") }
    ensures products { WritesBoth (codes "#(ml,3037000499,3037000499,big);#(ml,3037000500,3037000500,big)'")
        (codes "9223372030926249001;9223372037000250000") (codes "9223372030926249001;big") }
    ensures far_moves { WritesBoth
        (codes "#(bs,-9223372036854775808,7);#(br,9223372036854775807,12);#(br,-9223372036854775808,12);"
        ++ codes "#(bs,9223372036854775808,7);'") (codes "0;24;42;0;") (codes "0;24;42;;") }
    ensures texts { Writes W128 (codes "#(eq,Cat,Cat,y,n)#(EQ,Cat,cat,y,n)#(eq,,,y,n)#(eq,a,ab,y)'") (codes "yny") }
    // A result has no `+` and no leading zeros; a product and an operand may not fit; a text without a numeral is 0.
    ensures results { WritesBoth
        (codes "#(ad,+0012,0);#(dv,-1,2);#(dv,-7,-2);#(dv,5,x,Z);#(ml,9223372036854775808,0,Z);"
        ++ codes "#(ad,1,9223372036854775808,Z)'") (codes "12;0;3;Z;0;9223372036854775809") (codes "12;0;3;Z;Z;Z") }
    ensures comparisons { Writes W128 (codes "#(gr,-0,0,y,n)#(gr,a10,b9,y,n)#(gr,-1,-2,y,n)#(gr,-2,-1,y,n)'")
        (codes "nyyn") }
    // The prefix of a number of places is dropped, and one that does not fit gives empty.
    ensures places { WritesBoth
        (codes "#(bs,x3,12);#(bs,9223372036854775808,7);#(br,-9223372036854775809,7);#(bs,-3,8);'") (codes "20;0;7;;")
        (codes "20;;;;") }
    // The ends of 128 bits, and one past them.
    ensures wide_ends { WritesBoth
        (codes "#(ad,170141183460469231731687303715884105727,1,over);"
        ++ codes "#(su,-170141183460469231731687303715884105728,0);"
        ++ codes "#(dv,-170141183460469231731687303715884105728,-1,none)'")
        (codes "over;-170141183460469231731687303715884105728;none") (codes "over;;none") }
    ensures wide_products { WritesBoth
        (codes "#(ml,9223372036854775808,9223372036854775808,big);"
        ++ codes "#(ml,18446744073709551616,9223372036854775808,big)'")
        (codes "85070591730234615865843651857942052864;big") (codes "big;big") }
    ensures wide_moves { WritesBoth
        (codes "#(bs,-170141183460469231731687303715884105728,7);"
        ++ codes "#(br,170141183460469231731687303715884105727,12);"
        ++ codes "#(br,-170141183460469231731687303715884105728,12);"
        ++ codes "#(bs,170141183460469231731687303715884105728,7);"
        ++ codes "#(br,-170141183460469231731687303715884105729,7);'") (codes "0;24;42;;;") (codes ";;;;;") }
    // A name may be in either letter case, and another name gives empty.
    ensures names { Writes W128 (codes "#(AD,1,2)#(aD,1,2)#(Br,1,4)#(adx,1,2)#(,1,2)'") (codes "331") }
{}

/// What forms look like once texts are cut out of them, and what calls of them give.
pub fn worked_forms()
    // Each text in turn; the second one only where the first one left bytes.
    ensures two_texts { shown (segmented (texts_of "b,ca") (defined (codes "abcabc"))) ≡ codes "<^>a<1><2><1>c" }
    ensures two_texts_called { called (texts_of "-,+") (segmented (texts_of "b,ca") (defined (codes "abcabc")))
        ≡ codes "a-+-c" }
    // An empty text cuts nothing, and uses up its number.
    ensures null_text { shown (segmented (texts_of ",a") (defined (codes "banana"))) ≡ codes "<^>b<2>n<2>n<2>" }
    // The leftmost occurrence is cut first, and none overlaps another.
    ensures leftmost { shown (segmented (texts_of "aa") (defined (codes "aaa"))) ≡ codes "<^><1>a" }
    // The widths of gaps, which are not shown.
    ensures widths { segmented (texts_of "y") (defined (codes "yxb")) ≡ at_start (Gap 1 1 ∷ Byte 120 ∷ Byte 98 ∷ []) }
    ensures wider { segmented (texts_of "b,ca") (defined (codes "abcabc"))
        ≡ at_start (Byte 97 ∷ Gap 1 1 ∷ Gap 2 2 ∷ Gap 1 1 ∷ Byte 99 ∷ []) }
    ensures one_gap { shown (segmented (texts_of "y") (defined (codes "yxb"))) ≡ codes "<^><1>xb" }
    // Earlier gaps stay, and numbers begin at 1 again.
    ensures numbered_again { shown (segmented (texts_of "x") (segmented (texts_of "y") (defined (codes "yxb"))))
        ≡ codes "<^><1><1>b" }
    // No occurrence crosses a gap.
    ensures across { shown (segmented (texts_of "ac") (segmented (texts_of "b") (defined (codes "abc"))))
        ≡ codes "<^>a<1>c" }
    // The pointer goes to the start, even if nothing was cut.
    ensures pointer_back { shown (segmented [] (text_at 2 "abc")) ≡ codes "<^>abc" }
    ensures pointer_from_after { shown (segmented (texts_of "z") (text_at 2 "abc")) ≡ codes "<^>abc" }
    // The pointer bounds no run.
    ensures across_the_pointer { shown (segmented (texts_of "bc") (text_at 2 "abc")) ≡ codes "<^>a<1>" }
    // A call begins at the pointer, and a text that is missing is empty.
    ensures from_the_pointer { called (texts_of "X,Y") (pointed_at 1 example) ≡ codes "XbcY" }
    ensures missing_texts { called [] (pointed_at 1 example) ≡ codes "bc" }
    // The pointer is shown wherever it is.
    ensures pointer_before_a_gap { shown (pointed_at 1 example) ≡ codes "a<^><1>bc<2>" }
    ensures pointer_at_the_end { shown (pointed_at 5 example) ≡ codes "a<1>bc<2><^>" }
    // Names are listed by their bytes, whatever the order in which their forms were made.
    ensures names { listed (codes ",")
        (map.insert (map.insert map.empty (codes "b") (defined (codes "1"))) (codes "a") (defined (codes "2")))
        ≡ codes ",a,b" }
{}

/// What each call on forms gives, prints and leaves, from its name on; no value is forced.
pub fn worked_form_calls()
    // A name may be in either letter case.
    ensures mixed_case { primitive_of (codes "Cl") ≡ Handle Call }
    // A text becomes a form, its pointer at the start; an earlier form is replaced, and its gaps
    // and its pointer with it.
    ensures defined_first { Leaves (texts_of "ds,F,abcabc") [] (named "F" "abcabc") }
    ensures defined_again { Leaves (texts_of "ds,F,abcabc") (pointing_at 2 "F" (Byte 97 ∷ Gap 1 1 ∷ Byte 98 ∷ []))
        (named "F" "abcabc") }
    ensures defined_beside { Leaves (texts_of "ds,a,2") (named_at 1 "b" "1") (named "a" "2" ++ named_at 1 "b" "1") }
    // A text that is missing is empty, and so is a name that is missing; surplus texts are ignored.
    ensures without_text { Leaves (texts_of "ds,F") (named "F" "abcabc") (named "F" "") }
    ensures without_name { Leaves (texts_of "ds") [] (named "" "") }
    ensures surplus_text { Leaves (texts_of "ds,F,a,b") [] (named "F" "a") }
    ensures null_name { Leaves (texts_of "ds,,x") [] (named "" "x") }
    ensures null_name_called { Gives (texts_of "cl,") (named "" "x") (codes "x") }
    // Each text is cut out in turn; what is left is printed with its gaps, and called with texts in their place.
    ensures cut { Leaves (texts_of "ss,F,b,ca") (named "F" "abcabc") cut_twice }
    ensures cut_printed { Prints (texts_of "pf,F") cut_twice (codes "<^>a<1><2><1>c") }
    ensures cut_called { Gives (texts_of "cl,F,-,+") cut_twice (codes "a-+-c") }
    ensures cut_called_without_texts { Gives (texts_of "cl,F") cut_twice (codes "ac") }
    ensures cut_called_with_one_text { Gives (texts_of "cl,F,-") cut_twice (codes "a--c") }
    ensures cut_called_with_a_null_text { Gives (texts_of "cl,F,,+") cut_twice (codes "a+c") }
    ensures cut_called_with_a_surplus_text { Gives (texts_of "cl,F,-,+,*") cut_twice (codes "a-+-c") }
    // An empty text cuts nothing, and uses up its number.
    ensures null_text { Leaves (texts_of "ss,F,,a") (named "F" "banana") cut_thrice }
    ensures null_text_printed { Prints (texts_of "pf,F") cut_thrice (codes "<^>b<2>n<2>n<2>") }
    // The leftmost occurrence is cut first, and none overlaps another.
    ensures leftmost { Leaves (texts_of "ss,F,aa") (named "F" "aaa") (pointing_at 0 "F" (Gap 1 2 ∷ Byte 97 ∷ [])) }
    ensures leftmost_printed { Prints (texts_of "pf,F") (pointing_at 0 "F" (Gap 1 2 ∷ Byte 97 ∷ [])) (codes "<^><1>a") }
    // Earlier gaps stay, and numbers begin at 1 again.
    ensures first_cut { Leaves (texts_of "ss,F,y") (named "F" "yxb")
        (pointing_at 0 "F" (Gap 1 1 ∷ Byte 120 ∷ Byte 98 ∷ [])) }
    ensures first_cut_printed { Prints (texts_of "pf,F") (pointing_at 0 "F" (Gap 1 1 ∷ Byte 120 ∷ Byte 98 ∷ []))
        (codes "<^><1>xb") }
    ensures second_cut { Leaves (texts_of "ss,F,x") (pointing_at 0 "F" (Gap 1 1 ∷ Byte 120 ∷ Byte 98 ∷ []))
        (pointing_at 0 "F" (Gap 1 1 ∷ Gap 1 1 ∷ Byte 98 ∷ [])) }
    ensures second_cut_printed { Prints (texts_of "pf,F") (pointing_at 0 "F" (Gap 1 1 ∷ Gap 1 1 ∷ Byte 98 ∷ []))
        (codes "<^><1><1>b") }
    // The pointer goes to the start, even if nothing was cut; other forms stay as they are.
    ensures no_texts { Leaves (texts_of "ss,F") (named_at 2 "F" "abc") (named "F" "abc") }
    ensures text_nowhere { Leaves (texts_of "ss,F,z") (named_at 2 "F" "abc") (named "F" "abc") }
    ensures beside_another { Leaves (texts_of "ss,F,b") (named_at 2 "F" "abc" ++ named_at 2 "G" "abc")
        (pointing_at 0 "F" (Byte 97 ∷ Gap 1 1 ∷ Byte 99 ∷ []) ++ named_at 2 "G" "abc") }
    // A call begins at the pointer and leaves it there; a restored form has it before its first item.
    ensures from_the_pointer { Gives (texts_of "cl,F,X,Y") (example_at 1) (codes "XbcY") }
    ensures from_the_end { Gives (texts_of "cl,F,X,Y") (example_at 5) [] }
    ensures restored { Leaves (texts_of "cr,F") (example_at 1) (example_at 0) }
    ensures restored_beside_another { Leaves (texts_of "cr,F") (named_at 3 "F" "abc" ++ named_at 2 "G" "abc")
        (named "F" "abc" ++ named_at 2 "G" "abc") }
    ensures restored_and_called { Gives (texts_of "cl,F,X,Y") (example_at 0) (codes "aXbcY") }
    ensures pointer_printed { Prints (texts_of "pf,F") (example_at 1) (codes "a<^><1>bc<2>") }
    // A name without a form gives empty and changes nothing. Names are compared byte by byte.
    ensures no_form_called { Gives (texts_of "cl,f,X") (named "F" "abcabc") [] }
    ensures no_form_segmented { Gives (texts_of "ss,f,a") (named "F" "abcabc") [] }
    ensures no_form_restored { Gives (texts_of "cr,f") (named_at 2 "F" "abc") [] }
    ensures no_form_printed { Gives (texts_of "pf,f") (named "F" "abcabc") [] }
    ensures no_name_called { Gives (texts_of "cl") (named "F" "abcabc") [] }
    ensures shorter_name_called { Gives (texts_of "cl,F") (named "FF" "abc") [] }
    ensures other_case_defined { Leaves (texts_of "ds,f,1") (named "F" "2") (named "F" "2" ++ named "f" "1") }
    // Only the names that the call gives are deleted, and those without a form are passed over.
    ensures no_names_deleted { Leaves (texts_of "dd") (named "" "x" ++ named "a" "1") (named "" "x" ++ named "a" "1") }
    ensures null_name_deleted { Leaves (texts_of "dd,") (named "" "x" ++ named "a" "1") (named "a" "1") }
    ensures some_deleted { Leaves (texts_of "dd,a,c") (named "a" "1" ++ named_at 1 "b" "2") (named_at 1 "b" "2") }
    ensures two_deleted { Leaves (texts_of "dd,b,a") (named "a" "1" ++ named "b" "2" ++ named "c" "3") (named "c" "3") }
    ensures twice_deleted { Leaves (texts_of "dd,a,a") (named "a" "1" ++ named "b" "2") (named "b" "2") }
    ensures other_case_deleted { Leaves (texts_of "dd,f") (named "F" "abcabc") (named "F" "abcabc") }
    ensures defined_after_deleting { Leaves (texts_of "ds,a,2") [] (named "a" "2") }
    ensures all_deleted { Leaves (texts_of "da") (named "" "x" ++ named "a" "1") [] }
    ensures all_deleted_whatever_is_named { Leaves (texts_of "da,a") (named "" "x" ++ named "a" "1") [] }
    // Names are listed by their bytes, each after the text; no names give empty.
    ensures names { Gives (codes "ln" ∷ codes "," ∷ []) (named "b" "1" ++ named "a" "2") (codes ",a,b") }
    ensures names_without_text { Gives (texts_of "ln") (named "b" "1" ++ named "a" "2") (codes "ab") }
    ensures names_by_bytes { Gives (texts_of "ln,;")
        (named "ab" "1" ++ named "b" "2" ++ named "a" "3" ++ named "B" "4" ++ named "" "5") (codes ";;B;a;ab;b") }
    ensures names_of_none { Gives (texts_of "ln,;") [] [] }
    // Forms that hold calls.
    ensures text_of_a_call { Leaves (codes "ds" ∷ codes "BB" ∷ codes "#(cl,AA)" ∷ []) (named "AA" "Cat")
        (named "AA" "Cat" ++ named "BB" "#(cl,AA)") }
    ensures call_given { Gives (texts_of "cl,BB") (named "AA" "Cat" ++ named "BB" "#(cl,AA)") (codes "#(cl,AA)") }
    ensures procedure_segmented { Leaves (texts_of "ss,Factorial,X")
        (named "Factorial" "#(eq,X,1,1,(#(ml,X,#(cl,Factorial,#(su,X,1)))))") factorial }
    ensures procedure_called { Gives (texts_of "cl,Factorial,5") factorial
        (codes "#(eq,5,1,1,(#(ml,5,#(cl,Factorial,#(su,5,1)))))") }
{}

/// What each reading of a form at its pointer gives, and where the pointer stands afterwards.
pub fn worked_readings()
    // From the form `a<1>bc<2>`, its pointer before an item of each kind and at the end.
    ensures next_byte { Does (texts_of "cc,F,Z") (example_at 0) (codes "a") [] (example_at 1) }
    ensures byte_after_a_gap { Does (texts_of "cc,F,Z") (example_at 1) (codes "b") [] (example_at 3) }
    ensures segment_before_a_gap { Does (texts_of "cs,F,Z") (example_at 1) [] [] (example_at 2) }
    ensures no_byte_left { Forces (texts_of "cc,F,Z") (example_at 4) (codes "Z") }
    ensures last_segment_is_null { Does (texts_of "cs,F,Z") (example_at 4) [] [] (example_at 5) }
    ensures no_segment_left { Forces (texts_of "cs,F,Z") (example_at 5) (codes "Z") }
    ensures two_bytes_back { Does (texts_of "cn,F,-2,Z") (example_at 5) (codes "bc") [] (example_at 2) }
    ensures bytes_up_to_a_text { Does (texts_of "in,F,c,Z") (example_at 0) (codes "ab") [] (example_at 4) }
    ensures text_across_a_gap { Forces (texts_of "in,F,ab,Z") (example_at 0) (codes "Z") }
    // Segments up to the end, and then the default argument.
    ensures first_segment { Does (texts_of "cs,F,none") (halves_at 0) (codes "A") []
        (halves_at 2) }
    ensures second_segment { Does (texts_of "cs,F,none") (halves_at 2) (codes "B") []
        (halves_at 3) }
    ensures segment_default { Forces (codes "cs" ∷ codes "F" ∷ codes "#(ad,1,2)" ∷ []) (halves_at 3)
        (codes "#(ad,1,2)") }
    // Bytes are counted onward and back, and as many are given as there are.
    ensures three_bytes { Does (texts_of "cn,F,3,Z") (letters_at 0) (codes "abc") [] (letters_at 3) }
    ensures two_of_them_back { Does (texts_of "cn,F,-2,Z") (letters_at 3) (codes "bc") [] (letters_at 1) }
    ensures zero_bytes { Does (texts_of "cn,F,0,Z") (letters_at 1) [] [] (letters_at 1) }
    ensures all_bytes_left { Does (texts_of "cn,F,9,Z") (letters_at 1) (codes "bcde") [] (letters_at 5) }
    ensures none_left { Forces (texts_of "cn,F,1,Z") (letters_at 5) (codes "Z") }
    ensures none_before { Forces (texts_of "cn,F,-1,Z") (letters_at 0) (codes "Z") }
    ensures all_bytes_before { Does (texts_of "cn,F,-9223372036854775808,Z") (letters_at 3) (codes "abc") []
        (letters_at 0) }
    ensures all_bytes_before_of_wide { DoesIn W128 (texts_of "cn,F,-170141183460469231731687303715884105728,Z")
        (letters_at 3) (codes "abc") [] (letters_at 0) }
    ensures all_bytes_of_wide { DoesIn W128 (texts_of "cn,F,170141183460469231731687303715884105727,Z") (letters_at 1)
        (codes "bcde") [] (letters_at 5) }
    // A number that does not fit and a text without a number give empty before anything else is
    // thought of; a prefix is dropped.
    ensures number_too_great { DoesIn W64 (texts_of "cn,F,9223372036854775808,Z") (letters_at 5) [] [] (letters_at 5) }
    ensures number_too_great_for_narrow { ForcesIn W128 (texts_of "cn,F,9223372036854775808,Z") (letters_at 5)
        (codes "Z") }
    ensures number_too_great_for_wide { Does (texts_of "cn,F,170141183460469231731687303715884105728,Z") (letters_at 5)
        [] [] (letters_at 5) }
    ensures number_too_small { DoesIn W64 (texts_of "cn,F,-9223372036854775809,Z") (letters_at 0) [] [] (letters_at 0) }
    ensures number_too_small_for_narrow { ForcesIn W128 (texts_of "cn,F,-9223372036854775809,Z") (letters_at 0)
        (codes "Z") }
    ensures number_too_small_for_wide { Does (texts_of "cn,F,-170141183460469231731687303715884105729,Z") (letters_at 0)
        [] [] (letters_at 0) }
    ensures zero_at_the_end { Does (texts_of "cn,F,0,Z") (letters_at 5) [] [] (letters_at 5) }
    ensures no_number { Does (texts_of "cn,F,x,Z") (letters_at 5) [] [] (letters_at 5) }
    ensures number_after_a_prefix { Does (texts_of "cn,F,x2,Z") (letters_at 0) (codes "ab") [] (letters_at 2) }
    // The pointer stops right after the last byte given, or going back right before the first
    // one, whatever gaps stand there.
    ensures stops_before_a_gap { Does (texts_of "cn,F,1,Z") (gapped_at 0) (codes "a") [] (gapped_at 2) }
    ensures passes_gaps { Does (texts_of "cn,F,2,Z") (gapped_at 0) (codes "ab") [] (gapped_at 5) }
    ensures stops_after_a_gap { Does (texts_of "cn,F,-1,Z") (gapped_at 4) (codes "a") [] (gapped_at 1) }
    ensures passes_gaps_back { Does (texts_of "cn,F,-2,Z") (gapped_at 5) (codes "ab") [] (gapped_at 1) }
    ensures only_a_gap_before { Forces (texts_of "cn,F,-1,Z") (gapped_at 1) (codes "Z") }
    ensures null_segments { Does (texts_of "cs,F,Z") (gapped_at 0) [] [] (gapped_at 1) }
    // A text is looked for after the pointer; an empty text occurs at once, also at the end.
    ensures first_occurrence { Does (texts_of "in,F,c,none") (named_at 0 "F" "abcabc") (codes "ab") []
        (named_at 3 "F" "abcabc") }
    ensures second_occurrence { Does (texts_of "in,F,c,none") (named_at 3 "F" "abcabc") (codes "ab") []
        (named_at 6 "F" "abcabc") }
    ensures no_occurrence { Forces (texts_of "in,F,c,none") (named_at 6 "F" "abcabc") (codes "none") }
    ensures null_text_at_the_end { Does (texts_of "in,F,,none") (named_at 6 "F" "abcabc") [] []
        (named_at 6 "F" "abcabc") }
    ensures null_text_before_a_gap { Does (texts_of "in,F,,none") (example_at 1) [] [] (example_at 1) }
    ensures null_text_in_a_null_form { Does (texts_of "in,F,,none") (named "F" "") [] [] (named "F" "") }
    ensures occurrence_cut_by_a_gap { Forces (texts_of "in,G,bc,no") (parted_at 0) (codes "no") }
    ensures occurrence_after_gaps { Does (texts_of "in,G,c,no") (parted_at 0) (codes "ab") [] (parted_at 5) }
    ensures end_after_the_occurrence { Forces (texts_of "cs,G,end") (parted_at 5) (codes "end") }
    ensures longer_text_than_form { Forces (texts_of "in,F,abcabcabc,none") (named_at 0 "F" "abcabc") (codes "none") }
    // A name without a form gives empty, and a default argument that is missing is empty.
    ensures no_form { Leaves (texts_of "cn,f,1,Z") (letters_at 0) (letters_at 0) }
    ensures no_default { Forces (texts_of "cc,F") (named "F" "") [] }
{}

/// What runs print that read single bytes, set the meta character, print each call, or halt.
pub fn worked_bytes()
    // The call before which the trace is off prints no line, and that before which it is on prints its own.
    ensures traced { Writes W128 (codes "#(tn)'#(ps,a)'#(tf)'")
        (codes "#(ps*)" ++ LINE_FEED ∷ codes "#(rs)" ++ LINE_FEED ∷ codes "#(ps*a)" ++ LINE_FEED ∷ codes "a#(ps*)"
        ++ LINE_FEED ∷ codes "#(rs)" ++ LINE_FEED ∷ codes "#(tf)" ++ LINE_FEED ∷ []) }
    // The line of a neutral function, of an unknown name, and of a call without arguments.
    ensures traced_lines { Writes W128 (codes "#(tn)##(zz,,b)#()#(tf)'")
        (codes "##(zz**b)" ++ LINE_FEED ∷ codes "#()" ++ LINE_FEED ∷ codes "#(tf)" ++ LINE_FEED ∷ []) }
    // One byte, whichever it is.
    ensures one_byte { Writes W128 (codes "#(rc)'x'") (codes "x") }
    ensures meta_character_as_a_byte { Writes W128 (codes "#(ps,##(rc)##(rc))'''x") (codes "''x") }
    ensures no_byte_at_the_end { Writes W128 (codes "#(ps,a)#(rc)b'") (codes "a") }
    // Another meta character; an empty text leaves it, and of a longer text the first byte counts.
    ensures other_meta { Writes W128 (codes "#(cm,;)'A;B;") (codes "AB") }
    ensures first_byte_of_a_text { Writes W128 (codes "#(cm,;x)'AxB;") (codes "AxB") }
    ensures null_meta { Writes W128 (codes "#(cm,)#(cm)'A'") (codes "A") }
    // A halted processor leaves what is after the call, whatever input is left; and the line of the
    // trace is not printed.
    ensures halted { Writes W128 (codes "#(ps,a)#(hl)#(ps,b)'c'") (codes "a") }
    ensures halted_traced { Writes W128 (codes "#(tn)#(hl)'c'") [] }
    // A call that waits for input prints no line either, however often it is tried.
    ensures waiting_traced { (state_of (fed "#(tn)#(rc)'" 30)).output ≡ [] }
    ensures waiting_replies { replies_of (fed "#(tn)#(rc)'" 17)
        ≡ replicate 16 Done ++ Refused NeedInput ∷ Refused NeedInput ∷ [] }
    ensures halting_replies { replies_of (fed "#(tn)#(hl)'c" 17)
        ≡ replicate 16 Done ++ Refused Ended ∷ Refused Ended ∷ [] }
{}
