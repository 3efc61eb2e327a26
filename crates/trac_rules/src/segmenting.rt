//! Laws of segmenting and calling, each the contract of a function that does nothing.
ghost use Rattle.std.specs.Prelude.{◌≡◌, ◌+◌, ◌++◌, ◌∷◌, ◌≤◌, [], codes, List, None, Some, ℕ, length};
ghost use Rattle.std.specs.List.{All};
ghost use Rattle.trac_rules.specs.Cuts.{cut_of, joined};
ghost use Rattle.trac_rules.specs.Filling.{all_filled};
ghost use Rattle.trac_rules.specs.Form.{Form, IsWide, all_items, as_items, defined, extent, pointed_at};
ghost use Rattle.trac_rules.specs.Segmenting.{cut_out, part, segmented};
ghost use Rattle.trac_rules.specs.Weights.{gap_count, gaps_made};
ghost use Rattle.trac_rules.specs.declared.item.CutGap.{CutGap};
ghost use Rattle.trac_rules.specs.declared.item.Item.{Item};
ghost use Rattle.trac_rules.specs.declared.item.Item.TheVariants.{Byte, Gap};
ghost use Rattle.trac_rules.specs.Rows.{gap_at, text_at, texts_of};

/// Of a run the leftmost occurrence of a text is cut out first, and what stands after it is cut in the same way.
/// A run without an occurrence stays, and so does each run if the text is empty.
pub fn leftmost_is_cut_first()
    ensures cut { (k : ℕ) (text front back : List ℕ) → ¬ (text ≡ []) →
        ((sooner rest : List ℕ) → front ++ (text ++ back) ≡ sooner ++ (text ++ rest) → length front ≤ length sooner) →
        part k text (front ++ (text ++ back)) ≡ as_items front ++ Gap k (length text) ∷ part k text back }
    ensures nowhere { (k : ℕ) (text run : List ℕ) → ((front back : List ℕ) → ¬ (run ≡ front ++ (text ++ back))) →
        part k text run ≡ as_items run }
    ensures null { (k : ℕ) (run : List ℕ) → part k [] run ≡ as_items run }
{}

/// A gap stays as it is, and the runs before and after it are cut each by itself.
pub fn gaps_bound_runs()
    ensures gap { (k ordinal width : ℕ) (text run : List ℕ) (items : List Item) →
        cut_out k text (as_items run ++ Gap ordinal width ∷ items)
        ≡ part k text run ++ Gap ordinal width ∷ cut_out k text items }
    ensures last { (k : ℕ) (text run : List ℕ) → cut_out k text (as_items run) ≡ part k text run }
{}

/// A form stands for as many bytes after it was segmented as before.
pub fn segmenting_keeps_the_extent()
    ensures { (texts : List (List ℕ)) (form : Form) →
        extent (all_items (segmented texts form)) ≡ extent (all_items form) }
{}

/// What was cut out is put back when the form's gaps are filled with the same texts.
pub fn filling_undoes_segmenting()
    ensures { (texts : List (List ℕ)) (form : Form) →
        all_filled texts (all_items (segmented texts form)) ≡ all_filled texts (all_items form) }
{}

/// The gaps that segmenting makes, filled with the same texts, give the items as they were before. There are as many of
/// them as the form has gaps more than before. Filling the gaps of any cut keeps the extent, and leaves all gaps wide.
pub fn cuts_are_filled_again()
    ensures back { (texts : List (List ℕ)) (form : Form) →
        joined texts (cut_of texts form) (all_items (segmented texts form)) ≡ Some (all_items form) }
    ensures count { (texts : List (List ℕ)) (form : Form) →
        gap_count (all_items (segmented texts form)) ≡ gap_count (all_items form) + length (cut_of texts form) }
    ensures made { (texts : List (List ℕ)) (form : Form) → length (cut_of texts form) ≡ gaps_made texts form }
    ensures extent { (texts : List (List ℕ)) (cut : List CutGap) (items before : List Item) →
        joined texts cut items ≡ Some before → extent before ≡ extent items }
    ensures wide { (texts : List (List ℕ)) (cut : List CutGap) (items before : List Item) →
        joined texts cut items ≡ Some before → All IsWide items → All IsWide before }
{}

/// Which gaps segmenting makes, and how they are filled again.
#[tactic(auto, unfolding(crate::specs::Segmenting::cut_out, crate::specs::Segmenting::part))]
pub fn worked_cuts()
    // A text that stands twice.
    ensures twice { cut_of (texts_of "b") (defined (codes "abcb")) ≡ gap_at 1 1 ∷ gap_at 3 1 ∷ [] }
    ensures twice_back { joined (texts_of "b") (gap_at 1 1 ∷ gap_at 3 1 ∷ [])
        (Byte 97 ∷ Gap 1 1 ∷ Byte 99 ∷ Gap 1 1 ∷ []) ≡ Some (as_items (codes "abcb")) }
    // Two texts, the second one searched in what the first one left.
    ensures two_texts { cut_of (texts_of "b,ca") (defined (codes "abcabc"))
        ≡ gap_at 1 1 ∷ gap_at 2 2 ∷ gap_at 3 1 ∷ [] }
    ensures two_texts_back { joined (texts_of "b,ca") (gap_at 1 1 ∷ gap_at 2 2 ∷ gap_at 3 1 ∷ [])
        (Byte 97 ∷ Gap 1 1 ∷ Gap 2 2 ∷ Gap 1 1 ∷ Byte 99 ∷ []) ≡ Some (as_items (codes "abcabc")) }
    // An empty text makes no gap, and uses up its number.
    ensures null_text { cut_of (texts_of ",na") (defined (codes "ban")) ≡ [] }
    ensures after_null_text { cut_of (texts_of ",an") (defined (codes "ban")) ≡ gap_at 1 2 ∷ [] }
    // An earlier gap is none of them, though it is like them in all, and stays when they are filled.
    ensures beside_an_earlier_gap { cut_of (texts_of "x") (segmented (texts_of "y") (defined (codes "yxb")))
        ≡ gap_at 1 1 ∷ [] }
    ensures earlier_gap_stays { joined (texts_of "x") (gap_at 1 1 ∷ []) (Gap 1 1 ∷ Gap 1 1 ∷ Byte 98 ∷ [])
        ≡ Some (Gap 1 1 ∷ Byte 120 ∷ Byte 98 ∷ []) }
    ensures earlier_gaps_alone { cut_of (texts_of "y") (pointed_at 1 (Gap 1 1 ∷ Gap 2 3 ∷ [])) ≡ [] }
    ensures nothing_to_fill { joined [] [] (Byte 97 ∷ Gap 1 1 ∷ []) ≡ Some (Byte 97 ∷ Gap 1 1 ∷ []) }
    // The pointer bounds no run.
    ensures across_the_pointer { cut_of (texts_of "bc") (text_at 2 "abc") ≡ gap_at 1 1 ∷ [] }
    // There is nothing to fill where no gap stands, or one of another ordinal or width; nor at a place that
    // does not rise or is past the end.
    ensures byte_there { joined (texts_of "x") (gap_at 0 1 ∷ []) (Byte 120 ∷ Gap 1 1 ∷ []) ≡ None }
    ensures other_ordinal { joined (texts_of "x,y") (gap_at 0 2 ∷ []) (Gap 1 1 ∷ []) ≡ None }
    ensures narrower { joined (texts_of "xy") (gap_at 0 1 ∷ []) (Gap 1 1 ∷ []) ≡ None }
    ensures wider { joined (texts_of "x") (gap_at 0 1 ∷ []) (Gap 1 2 ∷ []) ≡ None }
    ensures no_width { joined ([] ∷ []) (gap_at 0 1 ∷ []) (Gap 1 0 ∷ []) ≡ None }
    ensures missing_text { joined [] (gap_at 0 1 ∷ []) (Gap 1 1 ∷ []) ≡ None }
    ensures same_place { joined (texts_of "x") (gap_at 0 1 ∷ gap_at 0 1 ∷ []) (Gap 1 1 ∷ Gap 1 1 ∷ []) ≡ None }
    ensures past_the_end { joined (texts_of "x") (gap_at 1 1 ∷ []) (Gap 1 1 ∷ []) ≡ None }
{}
