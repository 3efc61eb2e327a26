//! Worked rows of blocks, computed from the definitions.
ghost use Rattle.std.specs.Prelude.{◌++◌, ◌∷◌, [], replicate, None, Some};
ghost use Rattle.trac_rules.specs.Rows.{Turns, TurnsNothing, named, pointing_at, texts_of};
ghost use Rattle.trac_rules.specs.declared.item.Item.TheVariants.{Byte, Gap};

/// What each call on blocks makes of the forms and blocks that it finds.
pub fn worked_block_calls()
    // A name without a form is passed over, and a name that is given again; copies come back in place of what is there.
    ensures forms_put_aside { Turns (texts_of "sb,G,A,C,B,A") (named "A" "1" ++ named "B" "2") [] (named "G" "0")
        (Some (named "A" "1" ++ named "B" "2") ∷ []) }
    ensures copies_brought_back { Turns (texts_of "fb,G") (named "A" "9" ++ named "G" "0")
        (Some (named "A" "1" ++ named "B" "2") ∷ []) (named "A" "1" ++ named "B" "2" ++ named "G" "0")
        (Some (named "A" "1" ++ named "B" "2") ∷ []) }
    ensures block_erased { Turns (texts_of "eb,G") (named "A" "1" ++ named "B" "2" ++ named "G" "0")
        (Some (named "A" "1" ++ named "B" "2") ∷ []) (named "A" "1" ++ named "B" "2") (None ∷ []) }
    // The form that becomes the number is put aside first, and comes back in its place; then it is no address any more.
    ensures address_put_aside { Turns (texts_of "sb,G,G") (named "G" "x") [] (named "G" "0")
        (Some (named "G" "x") ∷ []) }
    ensures address_replaced { Turns (texts_of "fb,G") (named "G" "0") (Some (named "G" "x") ∷ []) (named "G" "x")
        (Some (named "G" "x") ∷ []) }
    ensures no_number { TurnsNothing (texts_of "eb,G") (named "G" "x") (Some (named "G" "x") ∷ []) }
    // Blocks of no forms; the number of an erased one is not used again.
    ensures first_null_block { Turns (texts_of "sb,E") [] [] (named "E" "0") (Some [] ∷ []) }
    ensures second_null_block { Turns (texts_of "sb,F") (named "E" "0") (Some [] ∷ []) (named "E" "0" ++ named "F" "1")
        (Some [] ∷ Some [] ∷ []) }
    ensures first_erased { Turns (texts_of "eb,E") (named "E" "0" ++ named "F" "1") (Some [] ∷ Some [] ∷ [])
        (named "F" "1") (None ∷ Some [] ∷ []) }
    ensures next_number { Turns (texts_of "sb,E") (named "F" "1") (None ∷ Some [] ∷ []) (named "E" "2" ++ named "F" "1")
        (None ∷ Some [] ∷ Some [] ∷ []) }
    ensures erased_block_fetched { TurnsNothing (texts_of "fb,E") (named "E" "0") (None ∷ Some (named "A" "1") ∷ []) }
    // Only the names that the call gives are put aside; an empty one is the empty name.
    ensures no_name { Turns (texts_of "sb") (named "A" "1") [] (named "" "0" ++ named "A" "1") (Some [] ∷ []) }
    ensures null_name { Turns (texts_of "sb,G,") (named "" "x" ++ named "A" "1") [] (named "G" "0" ++ named "A" "1")
        (Some (named "" "x") ∷ []) }
    // Gaps and pointers are kept; of an address they do not count.
    ensures gaps_and_pointers { Turns (texts_of "fb,G") (named "G" "0")
        (Some (pointing_at 1 "F" (Byte 97 ∷ Gap 1 2 ∷ [])) ∷ [])
        (named "G" "0" ++ pointing_at 1 "F" (Byte 97 ∷ Gap 1 2 ∷ []))
        (Some (pointing_at 1 "F" (Byte 97 ∷ Gap 1 2 ∷ [])) ∷ []) }
    ensures gapped_address { Turns (texts_of "eb,G") (pointing_at 1 "G" (Byte 49 ∷ Gap 1 1 ∷ []) ++ named "F" "1")
        (Some [] ∷ Some [] ∷ []) (named "F" "1") (Some [] ∷ None ∷ []) }
    ensures two_digits { Turns (texts_of "eb,G") (named "G" "10") (replicate 10 None ++ Some [] ∷ []) []
        (replicate 11 None) }
    // A number has no leading zeros and no sign; without a form of this name nothing is done.
    ensures two_zeros { TurnsNothing (texts_of "fb,G") (named "G" "00") (Some (named "A" "1" ++ named "B" "2") ∷ []) }
    ensures sign { TurnsNothing (texts_of "fb,G") (named "G" "+0") (Some (named "A" "1" ++ named "B" "2") ∷ []) }
    ensures past_the_last { TurnsNothing (texts_of "eb,G") (named "G" "1")
        (Some (named "A" "1" ++ named "B" "2") ∷ []) }
    ensures null_address { TurnsNothing (texts_of "fb,G") (named "G" "") (Some (named "A" "1" ++ named "B" "2") ∷ []) }
    ensures no_form { TurnsNothing (texts_of "fb,g") (named "G" "0") (Some (named "A" "1" ++ named "B" "2") ∷ []) }
{}
