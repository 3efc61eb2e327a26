//! Worked rows of doubts, computed from the definitions.
ghost use Rattle.std.specs.Prelude.{◌≡◌, ◌∷◌, [], codes, None, Some, false, true};
ghost use Rattle.trac_rules.specs.DoubtRows.{Raises};
ghost use Rattle.trac_rules.specs.Doubts.{doubts, is_doubtful};
ghost use Rattle.trac_rules.specs.Rows.{begun, fed, named, named_at, pointing_at, standing, state_of, texts_of};
ghost use Rattle.trac_rules.specs.declared.doubt.Doubt.TheVariants.{EndsNothing, FormUncalled, NoBlock, NoForm};
ghost use Rattle.trac_rules.specs.declared.doubt.Doubt.TheVariants.{NoNumber, NoPrimitive, NoResult, Nowhere, Unclosed};
ghost use Rattle.trac_rules.specs.declared.doubt.Doubt.TheVariants.{Unended, Unused};
ghost use Rattle.trac_rules.specs.declared.item.Item.TheVariants.{Byte, Gap};
ghost use Rattle.trac_rules.specs.declared.kind.Kind.TheVariants.{Active, Neutral};
ghost use Rattle.trac_rules.specs.declared.width.Width.TheVariants.{W128, W64};

/// The doubts of calls: of their names, and of the forms and blocks that they need.
pub fn worked_name_doubts()
    // A name is no primitive's; if a form has it, that is said.
    ensures misspelt { Raises (texts_of "pr,x") [] [] (NoPrimitive ∷ []) }
    ensures form_of_the_name { Raises (texts_of "greeting") (named "greeting" "hi") [] (FormUncalled ∷ []) }
    ensures form_of_a_primitive { Raises (texts_of "ps,x") (named "ps" "hi") [] [] }
    ensures null_name { Raises ([] ∷ []) [] [] (NoPrimitive ∷ []) }
    ensures other_case { Raises (texts_of "Ps,x") [] [] [] }
    ensures blank_before { Raises (texts_of " ps,x") [] [] (NoPrimitive ∷ []) }
    // Of what is unknown nothing more is said.
    ensures unknown_alone { Raises (texts_of "zz,a,b,c,d,e") [] [] (NoPrimitive ∷ []) }
    // Argument 1 names no form.
    ensures call { Raises (texts_of "cl,greting") (named "greeting" "hi") [] (NoForm ∷ []) }
    ensures call_of_a_form { Raises (texts_of "cl,greeting") (named "greeting" "hi") [] [] }
    ensures segment { Raises (texts_of "cs,F,z") [] [] (NoForm ∷ []) }
    ensures char { Raises (texts_of "cc,F,z") [] [] (NoForm ∷ []) }
    ensures count { Raises (texts_of "cn,F,1,z") [] [] (NoForm ∷ []) }
    ensures until { Raises (texts_of "in,F,x,z") [] [] (NoForm ∷ []) }
    ensures cut { Raises (texts_of "ss,F,x") [] [] (NoForm ∷ []) }
    ensures restore { Raises (texts_of "cr,F") [] [] (NoForm ∷ []) }
    ensures print { Raises (texts_of "pf,F") [] [] (NoForm ∷ []) }
    ensures fetch { Raises (texts_of "fb,F") [] (Some [] ∷ []) (NoForm ∷ []) }
    ensures erase { Raises (texts_of "eb,F") [] (Some [] ∷ []) (NoForm ∷ []) }
    // These need no form.
    ensures define { Raises (texts_of "ds,F,x") [] [] [] }
    ensures delete { Raises (texts_of "dd,F,G") [] [] [] }
    ensures list { Raises (texts_of "ln,;") [] [] [] }
    ensures store { Raises (texts_of "sb,F,G") [] [] [] }
    // The bytes of a form are no live block's number: no number at all, that of an erased one, or one past the last.
    ensures no_number { Raises (texts_of "fb,x") (named "x" "y") (Some [] ∷ []) (NoBlock ∷ []) }
    ensures erased { Raises (texts_of "eb,x") (named "x" "0") (None ∷ Some [] ∷ []) (NoBlock ∷ []) }
    ensures past_the_last { Raises (texts_of "fb,x") (named "x" "1") (Some [] ∷ []) (NoBlock ∷ []) }
    ensures live { Raises (texts_of "fb,x") (named "x" "1") (None ∷ Some [] ∷ []) [] }
    ensures erased_now { Raises (texts_of "eb,x") (named "x" "0") (Some [] ∷ []) [] }
{}

/// The doubts of calls: of arguments that nothing uses.
pub fn worked_unused_doubts()
    ensures print_one { Raises (texts_of "ps,x") [] [] [] }
    ensures print_two { Raises (texts_of "ps,Hello, world") [] [] (Unused 2 ∷ []) }
    // The first of them is said, even if it is null.
    ensures print_three { Raises (texts_of "ps,a,b,c") [] [] (Unused 2 ∷ []) }
    ensures print_null { Raises (texts_of "ps,x,") [] [] (Unused 2 ∷ []) }
    ensures print_none { Raises (texts_of "ps") [] [] [] }
    ensures read { Raises (texts_of "rs,x") [] [] (Unused 1 ∷ []) }
    ensures read_byte { Raises (texts_of "rc,x") [] [] (Unused 1 ∷ []) }
    ensures halt { Raises (texts_of "hl,x") [] [] (Unused 1 ∷ []) }
    ensures meta { Raises (texts_of "cm,x,y") [] [] (Unused 2 ∷ []) }
    ensures trace_on { Raises (texts_of "tn,x") [] [] (Unused 1 ∷ []) }
    ensures trace_off { Raises (texts_of "tf,x") [] [] (Unused 1 ∷ []) }
    ensures list { Raises (texts_of "ln,x,y") [] [] (Unused 2 ∷ []) }
    ensures define { Raises (texts_of "ds,a,b,c") [] [] (Unused 3 ∷ []) }
    ensures delete { Raises (texts_of "dd,a,b,c") [] [] [] }
    ensures delete_all { Raises (texts_of "da,x") [] [] (Unused 1 ∷ []) }
    ensures equal_four { Raises (texts_of "eq,a,b,c,d") [] [] [] }
    ensures equal_five { Raises (texts_of "eq,a,b,c,d,e") [] [] (Unused 5 ∷ []) }
    ensures greater { Raises (texts_of "gr,1,2,c,d,e") [] [] (Unused 5 ∷ []) }
    ensures sum_three { Raises (texts_of "ad,1,2,z") [] [] [] }
    ensures sum_four { Raises (texts_of "ad,1,2,z,y") [] [] (Unused 4 ∷ []) }
    ensures union { Raises (texts_of "bu,1,2,3") [] [] (Unused 3 ∷ []) }
    ensures meet { Raises (texts_of "bi,1,2,3") [] [] (Unused 3 ∷ []) }
    ensures complement { Raises (texts_of "bc,1,2") [] [] (Unused 2 ∷ []) }
    ensures shift { Raises (texts_of "bs,1,2,3") [] [] (Unused 3 ∷ []) }
    ensures rotate { Raises (texts_of "br,1,2,3") [] [] (Unused 3 ∷ []) }
    ensures store { Raises (texts_of "sb,a,b,c") [] [] [] }
    // Of a form `cl` uses a text for each number up to the highest one of its gaps; without the
    // form that alone is said.
    ensures call_no_gap { Raises (texts_of "cl,F,x") (named "F" "ab") [] (Unused 2 ∷ []) }
    ensures call_two_gaps { Raises (texts_of "cl,F,x,y") (pointing_at 1 "F" (Gap 2 1 ∷ Byte 97 ∷ Gap 1 1 ∷ [])) [] [] }
    ensures call_three_texts { Raises (texts_of "cl,F,x,y,z") (pointing_at 1 "F" (Gap 2 1 ∷ Byte 97 ∷ Gap 1 1 ∷ [])) []
        (Unused 4 ∷ []) }
    ensures call_no_form { Raises (texts_of "cl,F,x,y,z") [] [] (NoForm ∷ []) }
    ensures segment { Raises (texts_of "cs,F,z,y") (named "F" "ab") [] (Unused 3 ∷ []) }
    ensures char { Raises (texts_of "cc,F,z,y") (named "F" "ab") [] (Unused 3 ∷ []) }
    ensures count { Raises (texts_of "cn,F,1,z,y") (named "F" "ab") [] (Unused 4 ∷ []) }
    ensures until { Raises (texts_of "in,F,a,z,y") (named "F" "ab") [] (Unused 4 ∷ []) }
    ensures restore { Raises (texts_of "cr,F,x") (named "F" "ab") [] (Unused 2 ∷ []) }
    ensures print_form { Raises (texts_of "pf,F,x") (named "F" "ab") [] (Unused 2 ∷ []) }
    ensures fetch { Raises (texts_of "fb,F,x") (named "F" "0") (Some [] ∷ []) (Unused 2 ∷ []) }
    ensures erase { Raises (texts_of "eb,F,x") (named "F" "0") (Some [] ∷ []) (Unused 2 ∷ []) }
{}

/// The doubts of calls: of numbers, of results, and of texts that `ss` does not find.
pub fn worked_text_doubts()
    // A text that is not null has no numeral at its end; a null one is 0 without a doubt.
    ensures first { Raises (texts_of "ad,x,2") [] [] (NoNumber 1 ∷ []) }
    ensures second { Raises (texts_of "su,2,x") [] [] (NoNumber 2 ∷ []) }
    ensures both { Raises (texts_of "ml,5-,x,z") [] [] (NoNumber 1 ∷ NoNumber 2 ∷ []) }
    ensures null { Raises (texts_of "ad,,2") [] [] [] }
    ensures missing { Raises (texts_of "ad,2") [] [] [] }
    ensures prefixed { Raises (texts_of "ad,x2,-3") [] [] [] }
    ensures greater { Raises (texts_of "gr,x,y,1,2") [] [] (NoNumber 1 ∷ NoNumber 2 ∷ []) }
    ensures counted { Raises (texts_of "cn,F,x") (named "F" "ab") [] (NoNumber 2 ∷ []) }
    ensures counted_name { Raises (texts_of "cn,F,1,z") (named "F" "ab") [] [] }
    ensures shifted { Raises (texts_of "bs,x,y") [] [] (NoNumber 1 ∷ []) }
    ensures rotated { Raises (texts_of "br,x,y") [] [] (NoNumber 1 ∷ []) }
    ensures compared { Raises (texts_of "eq,x,y,1,2") [] [] [] }
    // There is no result, and no argument in its place.
    ensures divided { Raises (texts_of "dv,1,0") [] [] (NoResult ∷ []) }
    ensures divided_with { Raises (texts_of "dv,1,0,z") [] [] [] }
    ensures divided_with_null { Raises (texts_of "dv,1,0,") [] [] [] }
    ensures divided_by_a_text { Raises (texts_of "dv,1,x") [] [] (NoNumber 2 ∷ NoResult ∷ []) }
    ensures too_great { Raises (texts_of "ad,9223372036854775807,1") [] [] (NoResult ∷ []) }
    ensures great { Raises (texts_of "su,9223372036854775807,1") [] [] [] }
    ensures operand { Raises (texts_of "ml,9223372036854775808,0") [] [] (NoResult ∷ []) }
    // A text stands nowhere in the form, as it is before the cut: no occurrence crosses a gap, and
    // the pointer bounds none.
    ensures nowhere { Raises (texts_of "ss,F,b,x,y,a") (named "F" "abc") [] (Nowhere 3 ∷ Nowhere 4 ∷ []) }
    ensures null_text { Raises (texts_of "ss,F,,a") (named "F" "abc") [] [] }
    ensures no_text { Raises (texts_of "ss,F") (named "F" "abc") [] [] }
    ensures cut_before_it { Raises (texts_of "ss,F,b,bc") (named "F" "abc") [] [] }
    ensures across_the_pointer { Raises (texts_of "ss,F,bc") (named_at 2 "F" "abc") [] [] }
    ensures across_a_gap { Raises (texts_of "ss,F,ab") (pointing_at 0 "F" (Byte 97 ∷ Gap 1 1 ∷ Byte 98 ∷ [])) []
        (Nowhere 2 ∷ []) }
    ensures after_a_gap { Raises (texts_of "ss,F,b") (pointing_at 3 "F" (Byte 97 ∷ Gap 1 1 ∷ Byte 98 ∷ [])) [] [] }
    // What is said of one call stands in the order of the table.
    ensures in_order { Raises (texts_of "cn,F,x,z,y") [] [] (NoForm ∷ Unused 4 ∷ NoNumber 2 ∷ []) }
    ensures block_first { Raises (texts_of "fb,x,y") (named "x" "y") [] (NoBlock ∷ Unused 2 ∷ []) }
    ensures number_first { Raises (texts_of "dv,x,0") [] [] (NoNumber 1 ∷ NoResult ∷ []) }
{}

/// The doubts of scanning, and those of whole texts, each at its step and at no other one.
pub fn worked_scanning_doubts()
    ensures unended { doubts W64 (standing "" "" (begun Active [] (codes "ps") ∷ begun Neutral (texts_of "ps") [] ∷ []))
        ≡ Unended 2 ∷ [] }
    ensures all_ended { doubts W64 (standing "" "" []) ≡ [] }
    ensures unclosed { doubts W64 (standing "(a(b)" "" []) ≡ Unclosed ∷ [] }
    ensures closed { doubts W64 (standing "(a(b))" "" []) ≡ [] }
    ensures ends_nothing { doubts W64 (standing ")a" "" []) ≡ EndsNothing ∷ [] }
    ensures plain { doubts W64 (standing "a)" "" []) ≡ [] }
    ensures begins { doubts W64 (standing "#(zz)" "" []) ≡ [] }
    // The comma of a text that is not protected: its `ps` is performed by step 21.
    ensures before_the_comma { doubts W128 (state_of (fed "Hello, world'" 19)) ≡ [] }
    ensures comma { doubts W128 (state_of (fed "Hello, world'" 20)) ≡ Unused 2 ∷ [] }
    ensures after_the_comma { doubts W128 (state_of (fed "Hello, world'" 21)) ≡ [] }
    ensures met { is_doubtful W128 (state_of (fed "Hello, world'" 20)) ≡ true }
    ensures not_met { is_doubtful W128 (state_of (fed "Hello, world'" 21)) ≡ false }
    // A parenthesis that is missing: the `)` of the idle program ends the call, and its own `ps` is never ended.
    ensures missing { doubts W128 (state_of (fed "#(ps,a'" 14)) ≡ Unended 1 ∷ [] }
    ensures printed_before { doubts W128 (state_of (fed "#(ps,a'" 13)) ≡ [] }
    // A parenthesis too many ends the `ps` of the idle program, and that one's own ends nothing.
    ensures too_many { doubts W128 (state_of (fed "a)'" 10)) ≡ EndsNothing ∷ [] }
{}
