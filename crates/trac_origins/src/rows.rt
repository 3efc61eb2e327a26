//! Worked rows of origins, computed from the definitions.
ghost use Rattle.std.specs.Prelude.{◌≡◌, ◌++◌, ◌∷◌, [], codes, replicate, false, true};
ghost use Rattle.std.specs.FinMap as map;
ghost use Rattle.trac_origins.specs.Lists.{kept};
ghost use Rattle.trac_origins.specs.Performing.{called_from, listed_from, shown_from};
ghost use Rattle.trac_origins.specs.Places.{Carried, InActive, InArgument, InBase, InForm, InHeld, InOutput, Made};
ghost use Rattle.trac_origins.specs.Places.{Read};
ghost use Rattle.trac_origins.specs.Rows.{Follows, ReadFrom, SegmentedFrom, ValueFrom, active, beside_block, brought};
ghost use Rattle.trac_origins.specs.Rows.{calling, framed, given, item, made_by, on_tape, performing, untaped};
ghost use Rattle.trac_origins.specs.Stepping.{origins};
ghost use Rattle.trac_rules.specs.Form.{all_items, as_items, pointed_at};
ghost use Rattle.trac_rules.specs.Rows.{begun, example, named, pointing_at, standing, texts_of, with_forms};
ghost use Rattle.trac_rules.specs.State.{initial};
ghost use Rattle.trac_rules.specs.declared.byte.TheConstants.{TAB};
ghost use Rattle.trac_rules.specs.declared.item.Item.TheVariants.{Byte, Gap};
ghost use Rattle.trac_rules.specs.declared.kind.Kind.TheVariants.{Active, Neutral};
ghost use Rattle.trac_rules.specs.declared.primitive.BlockAction.TheVariants.{EraseBlock, StoreBlock};
ghost use Rattle.trac_rules.specs.declared.primitive.FormAction.TheVariants.{Define, Delete, DeleteAll, Restore};
ghost use Rattle.trac_rules.specs.declared.primitive.FormReading.TheVariants.{ReadChar, ReadCount, ReadSegment};
ghost use Rattle.trac_rules.specs.declared.primitive.FormReading.TheVariants.{ReadUntil};
ghost use Rattle.trac_rules.specs.declared.primitive.Primitive.TheVariants.{Handle};

/// Where bytes come from by each rule of scanning, worked out by hand.
pub fn worked_scanning()
    // A byte goes to the end of the current text.
    ensures plain_text { (origins untaped (standing "ab" "xy" [])).base
        ≡ Carried (InBase 0) ∷ Carried (InBase 1) ∷ active 0 ∷ [] }
    ensures plain_rest { (origins untaped (standing "ab" "xy" [])).active ≡ active 1 ∷ [] }
    ensures sharp { (origins untaped (standing "#a" "x" [])).base ≡ Carried (InBase 0) ∷ active 0 ∷ [] }
    // The current text is the argument being gathered of the innermost function; the outermost one has number 0.
    ensures inner_function { (origins untaped
        (standing "ab" "x" (begun Active (texts_of "p") (codes "q") ∷ begun Neutral [] (codes "r") ∷ []))).frames
        ≡ framed ((Carried (InArgument 1 0 0) ∷ []) ∷ []) (Carried (InArgument 1 1 0) ∷ active 0 ∷ [])
        ∷ framed [] (Carried (InArgument 0 0 0) ∷ []) ∷ [] }
    ensures inner_base { (origins untaped
        (standing "ab" "x" (begun Active (texts_of "p") (codes "q") ∷ begun Neutral [] (codes "r") ∷ []))).base
        ≡ Carried (InBase 0) ∷ [] }
    // A protected text goes there without its parentheses; one without a match is all the rest.
    ensures protected_text { (origins untaped (standing "(a,(b))cd" "x" [])).base
        ≡ Carried (InBase 0) ∷ active 1 ∷ active 2 ∷ active 3 ∷ active 4 ∷ active 5 ∷ [] }
    ensures protected_rest { (origins untaped (standing "(a,(b))cd" "x" [])).active ≡ active 7 ∷ active 8 ∷ [] }
    ensures unmatched_text { (origins untaped (standing "((a)" "x" [])).base
        ≡ Carried (InBase 0) ∷ active 1 ∷ active 2 ∷ active 3 ∷ [] }
    ensures unmatched_rest { (origins untaped (standing "((a)" "x" [])).active ≡ [] }
    // What is deleted is gone: layout, a comma, a `)` outside any function.
    ensures layout { (origins untaped (record initial { active = TAB ∷ codes "ab" })).active
        ≡ active 1 ∷ active 2 ∷ [] }
    ensures stray_comma { (origins untaped (standing ",b" "" [])).active ≡ active 1 ∷ [] }
    ensures stray_closing { (origins untaped (standing ")b" "" [])).active ≡ active 1 ∷ [] }
    // A finished argument stands where it was gathered.
    ensures comma { (origins untaped (standing ",b" "" (begun Active (texts_of "p") (codes "qr") ∷ []))).frames
        ≡ framed ((given 0 0 ∷ []) ∷ (given 1 0 ∷ given 1 1 ∷ []) ∷ []) [] ∷ [] }
    ensures comma_rest { (origins untaped (standing ",b" "" (begun Active (texts_of "p") (codes "qr") ∷ []))).active
        ≡ active 1 ∷ [] }
    ensures active_function { (origins untaped (standing "#(a" "" [])).active ≡ active 2 ∷ [] }
    ensures active_function_begun { (origins untaped (standing "#(a" "" [])).frames ≡ framed [] [] ∷ [] }
    ensures neutral_function { (origins untaped (standing "##(a" "" [])).active ≡ active 3 ∷ [] }
    // With nothing left the idle program is made.
    ensures idle { (origins untaped (standing "" "x" [])).active ≡ replicate 11 Made }
    ensures idle_base { (origins untaped (standing "" "x" [])).base ≡ [] }
{}

/// Where bytes come from by each primitive that knows no form.
pub fn worked_calls()
    // What `ps` prints is its argument; its `)` is gone, and its frame.
    ensures printed { (origins untaped
        (calling Active (texts_of "ps") (codes "ab") (record initial { output = codes "x" }))).output
        ≡ Carried (InOutput 0) ∷ given 1 0 ∷ given 1 1 ∷ [] }
    ensures printed_rest { (origins untaped
        (calling Active (texts_of "ps") (codes "ab") (record initial { output = codes "x" }))).active ≡ active 1 ∷ [] }
    ensures printed_frames { (origins untaped
        (calling Active (texts_of "ps") (codes "ab") (record initial { output = codes "x" }))).frames ≡ [] }
    // The line of the trace, `#(ps*ab)` and a line feed, is made.
    ensures traced { (origins untaped
        (calling Active (texts_of "ps") (codes "ab") (record initial { output = codes "x"; trace = true }))).output
        ≡ Carried (InOutput 0) ∷ replicate 9 Made ++ given 1 0 ∷ given 1 1 ∷ [] }
    // What is read are bytes of the tape, counted from its start.
    ensures read { (origins (on_tape (codes "abc'd") false)
        (calling Active [] (codes "rs") (record initial { position = 1 }))).active ≡ Read 1 ∷ Read 2 ∷ active 1 ∷ [] }
    ensures read_neutral { (origins (on_tape (codes "abc'd") false)
        (calling Neutral [] (codes "rs") (record (standing "" "x" []) { position = 1 }))).base
        ≡ Carried (InBase 0) ∷ Read 1 ∷ Read 2 ∷ [] }
    ensures read_to_the_end { (origins (on_tape (codes "abc") true)
        (calling Active [] (codes "rs") (record initial { position = 1 }))).active ≡ Read 1 ∷ Read 2 ∷ active 1 ∷ [] }
    ensures read_byte { (origins (on_tape (codes "abc") false)
        (calling Active [] (codes "rc") (record initial { position = 2 }))).active ≡ Read 2 ∷ active 1 ∷ [] }
    // A step that is refused leaves all in its place.
    ensures no_input { (origins untaped (calling Active [] (codes "rc") (record initial { position = 2 }))).active
        ≡ active 0 ∷ active 1 ∷ [] }
    ensures halted { (origins untaped (calling Active [] (codes "hl") initial)).active ≡ active 0 ∷ active 1 ∷ [] }
    ensures meta_set { ValueFrom "cm" ";" [] }
    ensures trace_on { (origins untaped (calling Active [] (codes "tn") initial)).active ≡ active 1 ∷ [] }
    ensures trace_off { (origins untaped (calling Active [] (codes "tf") initial)).active ≡ active 1 ∷ [] }
    ensures unknown { ValueFrom "zz" "a" [] }
    // A decision gives one of its arguments.
    ensures equal { ValueFrom "eq,a,a,yes" "no" (given 3 0 ∷ given 3 1 ∷ given 3 2 ∷ []) }
    ensures not_equal { ValueFrom "eq,a,b,yes" "no" (given 4 0 ∷ given 4 1 ∷ []) }
    ensures greater { ValueFrom "gr,10,9,y" "n" (given 3 0 ∷ []) }
    ensures not_greater { ValueFrom "gr,9,10,y" "n" (given 4 0 ∷ []) }
    // The prefix is that of the first number, and the digits are made; a default argument is
    // carried, also from a neutral function.
    ensures sum { ValueFrom "ad,xy5" "7" (given 1 0 ∷ given 1 1 ∷ Made ∷ Made ∷ []) }
    ensures difference { ValueFrom "su,a-5" "b2" (given 1 0 ∷ Made ∷ Made ∷ []) }
    ensures product { ValueFrom "ml,x" "3" (given 1 0 ∷ Made ∷ []) }
    ensures quotient { ValueFrom "dv,-7" "2" (Made ∷ Made ∷ []) }
    ensures no_quotient { (origins untaped (calling Neutral (texts_of "dv,1,0") (codes "zz") initial)).active
        ≡ given 3 0 ∷ given 3 1 ∷ active 1 ∷ [] }
    ensures neutral_sum { (origins untaped (calling Neutral (texts_of "ad,x5") (codes "7") initial)).base
        ≡ given 1 0 ∷ Made ∷ Made ∷ [] }
    // Bits are made.
    ensures either_bit { ValueFrom "bu,12" "x7" (Made ∷ Made ∷ []) }
    ensures both_bits { ValueFrom "bi,123" "7" (Made ∷ []) }
    ensures complement { ValueFrom "bc" "017" (Made ∷ Made ∷ Made ∷ []) }
    ensures shifted { ValueFrom "bs,3" "12" (Made ∷ Made ∷ []) }
    ensures rotated { ValueFrom "br,4" "12" (Made ∷ Made ∷ []) }
{}

/// Where bytes and items come from by the primitives on forms and blocks.
pub fn worked_forms()
    // `cl` of `a<^><1>bc<2>`: the gaps' bytes are those of the call's texts. A missing one gives none.
    ensures calling { called_from (pointed_at 1 example)
        (performing (texts_of "cl,F,X,Y") (pointed_at 1 example) initial)
        ≡ given 2 0 ∷ item 2 ∷ item 3 ∷ given 3 0 ∷ [] }
    ensures calling_without_texts { called_from (pointed_at 0 example)
        (performing (texts_of "cl,F") (pointed_at 0 example) initial) ≡ item 0 ∷ item 2 ∷ item 3 ∷ [] }
    // A whole step: the value stands before what is left of the active text.
    ensures calling_a_form { (origins untaped
        (calling Active (texts_of "cl,F") (codes "X")
        (with_forms (pointing_at 1 "F" (Byte 97 ∷ Gap 1 1 ∷ Byte 98 ∷ [])) initial))).active
        ≡ given 2 0 ∷ item 2 ∷ active 1 ∷ [] }
    // `ss` makes gaps, each in place of as many bytes as it is wide; earlier gaps stay.
    ensures segmenting { SegmentedFrom (as_items (codes "abcabc")) "ss,F,b,ca"
        (item 0 ∷ Made ∷ Made ∷ Made ∷ item 5 ∷ []) }
    ensures segmenting_wide { SegmentedFrom (as_items (codes "xaay")) "ss,F,aa" (item 0 ∷ Made ∷ item 3 ∷ []) }
    ensures segmenting_again { SegmentedFrom (Gap 1 1 ∷ Byte 120 ∷ Byte 98 ∷ []) "ss,F,x"
        (item 0 ∷ Made ∷ item 2 ∷ []) }
    // Readings of `a<1>bc<2>`: gaps are passed; if nothing is read, the default argument.
    ensures segment { ReadFrom ReadSegment 0 "cs,F,Z" (item 0 ∷ []) }
    ensures segment_before_a_gap { ReadFrom ReadSegment 1 "cs,F,Z" [] }
    ensures segment_inside { ReadFrom ReadSegment 2 "cs,F,Z" (item 2 ∷ item 3 ∷ []) }
    ensures segment_at_the_end { ReadFrom ReadSegment 5 "cs,F,Z" (given 2 0 ∷ []) }
    ensures char { ReadFrom ReadChar 1 "cc,F,Z" (item 2 ∷ []) }
    ensures no_char { ReadFrom ReadChar 4 "cc,F,Z" (given 2 0 ∷ []) }
    ensures count_on { ReadFrom ReadCount 0 "cn,F,2,Z" (item 0 ∷ item 2 ∷ []) }
    ensures count_back { ReadFrom ReadCount 5 "cn,F,-2,Z" (item 2 ∷ item 3 ∷ []) }
    ensures count_all_back { ReadFrom ReadCount 4 "cn,F,-9,Z" (item 0 ∷ item 2 ∷ item 3 ∷ []) }
    ensures count_nothing { ReadFrom ReadCount 2 "cn,F,0,Z" [] }
    ensures no_count { ReadFrom ReadCount 0 "cn,F,-1,Z" (given 3 0 ∷ []) }
    ensures until { ReadFrom ReadUntil 0 "in,F,c,Z" (item 0 ∷ item 2 ∷ []) }
    ensures no_until { ReadFrom ReadUntil 0 "in,F,ab,Z" (given 3 0 ∷ []) }
    // `pf` prints `a<^><1>bc<2>`: the marks are made.
    ensures printing { shown_from (pointed_at 1 example) (kept (InForm (codes "F")) (all_items (pointed_at 1 example)))
        ≡ item 0 ∷ replicate 6 Made ++ item 2 ∷ item 3 ∷ replicate 3 Made }
    // `ln`: the text before each name is that of the call, and the name is made.
    ensures listing { listed_from (map.from_entries (named "b" "" ++ named "aa" ""))
        (performing (texts_of "ln,xy") (pointed_at 0 []) initial)
        ≡ given 1 0 ∷ given 1 1 ∷ Made ∷ Made ∷ given 1 0 ∷ given 1 1 ∷ Made ∷ [] }
    // `ds` puts its text under its name, and nothing under another.
    ensures defining { (made_by (Handle Define) "ds,G,ab" []).forms (codes "G") ≡ given 2 0 ∷ given 2 1 ∷ [] }
    ensures defining_beside { (made_by (Handle Define) "ds,G,ab" []).forms (codes "F") ≡ item 0 ∷ item 1 ∷ [] }
    // `dd`, `da` and `cr` move no item.
    ensures deleting { (made_by (Handle Delete) "dd,G" []).forms (codes "F") ≡ item 0 ∷ item 1 ∷ [] }
    ensures deleting_all { (made_by (Handle DeleteAll) "dd,G" []).forms (codes "F") ≡ item 0 ∷ item 1 ∷ [] }
    ensures restoring { (made_by (Handle Restore) "dd,G" []).forms (codes "F") ≡ item 0 ∷ item 1 ∷ [] }
    // `sb`: the form becomes the number of the block, here 1, which holds forms as they stood.
    ensures storing_address { (beside_block StoreBlock).forms (codes "G") ≡ Made ∷ [] }
    ensures storing_held { (beside_block StoreBlock).blocks 1 (codes "F") ≡ item 0 ∷ item 1 ∷ [] }
    ensures storing_beside { (beside_block StoreBlock).forms (codes "F") ≡ item 0 ∷ item 1 ∷ [] }
    // `fb`: a form of the block has its items from there, and no other form.
    ensures fetching { brought.forms (codes "A")
        ≡ Carried (InHeld 0 (codes "A") 0) ∷ Carried (InHeld 0 (codes "A") 1) ∷ [] }
    ensures fetching_beside { brought.forms (codes "F") ≡ item 0 ∷ item 1 ∷ [] }
    // `eb` moves no item.
    ensures erasing { (beside_block EraseBlock).forms (codes "F") ≡ item 0 ∷ item 1 ∷ [] }
{}

/// Bytes that are followed back over many steps.
pub fn worked_following()
    // Eleven steps print the text that the eighth reads; the three steps after that carry each byte of it.
    ensures first_byte { Follows "AB'" 11 (InOutput 0) 3 (Read 0) }
    ensures second_byte { Follows "AB'" 11 (InOutput 1) 3 (Read 1) }
    ensures in_the_middle { Follows "AB'" 9 (InArgument 0 1 0) 1 (Read 0) }
    // The name of the function that comes next stood in the idle program at the start.
    ensures name { Follows "AB'" 10 (InArgument 0 0 1) 10 (Carried (InActive 3)) }
    ensures idle_program { Follows "AB'" 12 (InActive 0) 0 Made }
    // A digit is made by the sixteenth step, scanned by the next and printed by the one after.
    ensures digit { Follows "#(ad,1,2)'" 18 (InOutput 0) 2 Made }
{}
