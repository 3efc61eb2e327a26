//! Rows of random programs and calls, worked out by a plain interpreter and computed from the definitions.
ghost use Rattle.std.specs.Prelude.{◌++◌, ◌∷◌, [], codes};
ghost use Rattle.trac_rules.specs.Rows.{Does, EndsAfter, Forces, Writes, WritesBoth};
ghost use Rattle.trac_rules.specs.Rows.{named, named_at, pointing_at, texts_of};
ghost use Rattle.trac_rules.specs.declared.byte.TheConstants.{CARRIAGE_RETURN, LINE_FEED};
ghost use Rattle.trac_rules.specs.declared.item.Item.TheVariants.{Byte, Gap};
ghost use Rattle.trac_rules.specs.declared.width.Width.TheVariants.{W128};

/// What short random programs print.
pub fn drawn_first_runs()
    ensures drawn_1 { Writes W128 (codes "#(tn)#(dv,--7,7-8,(a,b))") (codes "#(dv*--7*7-8*a,b)" ++ LINE_FEED ∷ codes
        "#(ps*-0)" ++ LINE_FEED ∷ codes "-0") }
    ensures drawn_2 { EndsAfter 20 "873" "873" }
    ensures drawn_3 { Writes W128 (codes "#(tn)#(bu,0,193)'") (codes "#(bu*0*193)" ++ LINE_FEED ∷ codes "#(ps*3)" ++
        LINE_FEED ∷ codes "3") }
    ensures drawn_4 { EndsAfter 11 "#(rc)#(tn)'" "" }
    ensures drawn_5 { Writes W128 (CARRIAGE_RETURN ∷ LINE_FEED ∷ codes "'") [] }
    ensures drawn_10 { EndsAfter 40 "#(dv,ab8,ab-3,(#(ad,1,2)))#(zz)'" "ab-2" }
    ensures drawn_11 { EndsAfter 41 "1xbxabaa##(eq,,,aba1,7--7)'" "1xbxabaaaba1" }
    ensures drawn_13 { EndsAfter 28 "x1xbaaabaab'" "x1xbaaabaab" }
    ensures drawn_15 { EndsAfter 11 "##(hl)'" "" }
    ensures drawn_16 { EndsAfter 36 "#(ps,ab1)'x'" "ab1x" }
    ensures drawn_17 { WritesBoth (codes "#(tn)'##(dv,<^>,a170141183460469231731687303715884105727,Z)'#(hl)'") (codes
        "#(ps*)" ++ LINE_FEED ∷ codes "#(rs)" ++ LINE_FEED ∷ codes
        "##(dv*<^>*a170141183460469231731687303715884105727*Z)" ++ LINE_FEED ∷ codes "#(ps*<^>0)" ++ LINE_FEED ∷ codes
        "<^>0#(rs)" ++ LINE_FEED ∷ []) (codes "#(ps*)" ++ LINE_FEED ∷ codes "#(rs)" ++ LINE_FEED ∷ codes
        "##(dv*<^>*a170141183460469231731687303715884105727*Z)" ++ LINE_FEED ∷ codes "#(ps*Z)" ++ LINE_FEED ∷ codes
        "Z#(rs)" ++ LINE_FEED ∷ []) }
    ensures drawn_18 { EndsAfter 27 "##(bs,-9,30)'" "00" }
    ensures drawn_20 { EndsAfter 11 "##(hl)'x'" "" }
    ensures drawn_24 { EndsAfter 22 "##(r,c)" "" }
    ensures drawn_27 { EndsAfter 7 "" "" }
    ensures drawn_28 { EndsAfter 39 "aaaxaa'#(ps,())'" "aaaxaa" }
    ensures drawn_30 { WritesBoth (codes "##(su,--7,-9223372036854775809,(a,b))'") (codes "-9223372036854775802")
        (codes "a") }
    ensures drawn_32 { Writes W128 (CARRIAGE_RETURN ∷ []) [] }
    ensures drawn_36 { EndsAfter 44 "##(br,-32,x74)'a b-1'" "17a b-1" }
    ensures drawn_38 { EndsAfter 36 "#(cm,)'##(TF)'" "" }
    ensures drawn_47 { WritesBoth (codes
        "##(dv,x-015170392804099946496,x--85070591730234615865843651857942052864,(##(ps,z)))'#(rs)'") (codes "x0")
        (codes "z") }
    ensures drawn_48 { Writes W128 (codes "##(tn)'x'") (codes "#(ps*)" ++ LINE_FEED ∷ codes "#(rs)" ++ LINE_FEED ∷
        codes "#(ps*x)" ++ LINE_FEED ∷ codes "x") }
    ensures drawn_50 { EndsAfter 21 "#(zz)'" "" }
    ensures drawn_55 { EndsAfter 27 "#(bs,40,1)'" "0" }
    ensures drawn_58 { EndsAfter 21 "#(tf)'" "" }
{}

/// What short random programs print.
pub fn drawn_more_runs()
    ensures drawn_61 { EndsAfter 17 "(#(dv,,a b0073715893418384232313383862415596291804947550331189,(##(ps,z)))'" "" }
    ensures drawn_65 { EndsAfter 35 "#(cm,(;))'x'" "x'" }
    ensures drawn_67 { EndsAfter 15 "#(tn)#(hl)#(ps,1926)'x'" "" }
    ensures drawn_71 { WritesBoth (codes "#(br,7--170141183460469231731687303715884105726,11)#(tf)'x'") (codes "11x")
        (codes "x") }
    ensures drawn_74 { WritesBoth (codes "#(tn)#(ml,ab11,x-9223372036854775809,)#(bi,x1,6)'") (codes
        "#(ml*ab11*x-9223372036854775809*)" ++ LINE_FEED ∷ codes "#(bi*x1*6)" ++ LINE_FEED ∷ codes
        "#(ps*ab-1014570924054025338990)" ++ LINE_FEED ∷ codes "ab-1014570924054025338990") (codes
        "#(ml*ab11*x-9223372036854775809*)" ++ LINE_FEED ∷ codes "#(bi*x1*6)" ++ LINE_FEED ∷ codes "#(ps*0)" ++
        LINE_FEED ∷ codes "0") }
    ensures drawn_76 { EndsAfter 45 "#(ps,abab)##(cm,;:)'x'" "ababx'" }
    ensures drawn_78 { Writes W128 (codes "#(tn)#(br,7,)#a") (codes "#(br*7*)" ++ LINE_FEED ∷ codes "#(ps*#a)" ++
        LINE_FEED ∷ codes "#a") }
    ensures drawn_79 { EndsAfter 40 "##(su,-8,+1,(##(ps,z)))'x'" "-9x" }
    ensures drawn_84 { EndsAfter 38 "baa##(br,x-3828410062,)'" "baa" }
    ensures drawn_86 { EndsAfter 35 "#(ml,bbaa,-3,(a,b)" "" }
    ensures drawn_87 { EndsAfter 42 "##(DV,ba,-8,)'#(tf)'" "ba0" }
    ensures drawn_88 { EndsAfter 44 "#(bu,70,50)'bxbba'" "70bxbba" }
    ensures drawn_91 { EndsAfter 36 "#(cm,;:)'x'" "x'" }
    ensures drawn_93 { EndsAfter 22 "#(tf))'" "" }
    ensures drawn_94 { EndsAfter 36 "#(zz)'##(ps,)'" "" }
    ensures drawn_99 { EndsAfter 39 "#(cm,(,))#(ml,+-11,0-,Z)'" "+0" }
    ensures drawn_104 { EndsAfter 32 "#(bc,20313)'" "57464" }
    ensures drawn_105 { EndsAfter 39 "#(dv,bb,a b-5,(##(ps,z)))'#(rs)" "bb0" }
    ensures drawn_107 { EndsAfter 40 "#(dv,(),-5,(#(ad,1,2)))'x'" "0x" }
    ensures drawn_113 { WritesBoth (codes "#(ml,--4294967295,-19218217956088773,(a,b))'x'") (codes
        "-82541617589583026151679035x") (codes "ax") }
    ensures drawn_118 { EndsAfter 32 "##(eq,aba,1aaab,(,20888562320094403033120986713357811712)" "" }
    ensures drawn_124 { WritesBoth (codes "#(dv,-4-,7-807107766430969106410760259553512,)'") (codes "-4-0") [] }
    ensures drawn_128 { EndsAfter 43 "##(br,4178845136,x2)##(ps,<^>)'" "<^>1" }
    ensures drawn_130 { Writes W128 (codes "#(tn)##(bi,2,1917)") (codes "##(bi*2*1917)" ++ LINE_FEED ∷ codes "#(ps*2)"
        ++ LINE_FEED ∷ codes "2") }
    ensures drawn_145 { EndsAfter 21 "##(TF)'" "" }
{}

/// What random calls on a form do.
pub fn drawn_first_calls()
    ensures drawn_2 { Does (texts_of "cl,F,x66113,aab;,") (named_at 1 "F" "abbabaab") (codes "bbabaab") [] (named_at 1
        "F" "abbabaab") }
    ensures drawn_3 { Does (texts_of "cn,F,x-0,") (named "F" "") [] [] (named "F" "") }
    ensures drawn_4 { Does (texts_of "pf,F") (named_at 3 "F" "1ab11x1") [] (codes "1ab<^>11x1") (named_at 3 "F"
        "1ab11x1") }
    ensures drawn_5 { Does (texts_of "cs,F,Z") (named_at 1 "F" "xaaaaaaxb") (codes "aaaaaaxb") [] (named_at 9 "F"
        "xaaaaaaxb") }
    ensures drawn_6 { Does (texts_of "ss,F,bab,,b") (pointing_at 2 "F" (Gap 1 1 ∷ Byte 49 ∷ Gap 1 1 ∷ Gap 1 1 ∷ Byte
        97 ∷ [])) [] [] (pointing_at 0 "F" (Gap 1 1 ∷ Byte 49 ∷ Gap 1 1 ∷ Gap 1 1 ∷ Byte 97 ∷ [])) }
    ensures drawn_9 { Does (texts_of "pf,F") (named "F" "") [] (codes "<^>") (named "F" "") }
    ensures drawn_10 { Forces (texts_of "in,F,1,Z") (named "F" "a") (codes "Z") }
    ensures drawn_15 { Does (texts_of "ss,F,1,Cat,ba") (named_at 6 "F" "bbaaaa") [] [] (pointing_at 0 "F" (Byte 98 ∷
        Gap 3 2 ∷ Byte 97 ∷ Byte 97 ∷ Byte 97 ∷ [])) }
    ensures drawn_16 { Does (texts_of "cl,F") (pointing_at 1 "F" (Byte 98 ∷ Byte 97 ∷ Gap 1 2 ∷ Byte 98 ∷ Byte 98 ∷
        Byte 98 ∷ Byte 97 ∷ [])) (codes "abbba") [] (pointing_at 1 "F" (Byte 98 ∷ Byte 97 ∷ Gap 1 2 ∷ Byte 98 ∷ Byte
        98 ∷ Byte 98 ∷ Byte 97 ∷ [])) }
    ensures drawn_17 { Does (texts_of "ss,F,,aba") (pointing_at 4 "F" (Byte 98 ∷ Byte 97 ∷ Byte 97 ∷ Gap 1 1 ∷ Byte 98
        ∷ Byte 98 ∷ [])) [] [] (pointing_at 0 "F" (Byte 98 ∷ Byte 97 ∷ Byte 97 ∷ Gap 1 1 ∷ Byte 98 ∷ Byte 98 ∷ [])) }
    ensures drawn_18 { Does (texts_of "ss,F,1") (pointing_at 6 "F" (Byte 98 ∷ Gap 1 1 ∷ Gap 1 1 ∷ Gap 1 1 ∷ Gap 1 1 ∷
        Byte 98 ∷ Gap 1 1 ∷ Byte 98 ∷ [])) [] [] (pointing_at 0 "F" (Byte 98 ∷ Gap 1 1 ∷ Gap 1 1 ∷ Gap 1 1 ∷ Gap 1 1 ∷
        Byte 98 ∷ Gap 1 1 ∷ Byte 98 ∷ [])) }
    ensures drawn_19 { Does (texts_of "pf,F") (named_at 4 "F" "aaaax") [] (codes "aaaa<^>x") (named_at 4 "F" "aaaax") }
    ensures drawn_21 { Does (texts_of "cr,F") (pointing_at 1 "F" (Gap 1 2 ∷ Byte 98 ∷ Byte 98 ∷ [])) [] []
        (pointing_at 0 "F" (Gap 1 2 ∷ Byte 98 ∷ Byte 98 ∷ [])) }
    ensures drawn_22 { Does (texts_of "cr,F") (pointing_at 2 "F" (Byte 98 ∷ Byte 98 ∷ Byte 98 ∷ Byte 98 ∷ Gap 1 1 ∷
        Byte 98 ∷ [])) [] [] (pointing_at 0 "F" (Byte 98 ∷ Byte 98 ∷ Byte 98 ∷ Byte 98 ∷ Gap 1 1 ∷ Byte 98 ∷ [])) }
    ensures drawn_23 { Does (texts_of "ss,F") (pointing_at 2 "F" (Gap 1 2 ∷ Byte 97 ∷ Byte 49 ∷ [])) [] []
        (pointing_at 0 "F" (Gap 1 2 ∷ Byte 97 ∷ Byte 49 ∷ [])) }
    ensures drawn_25 { Does (texts_of "ss,F,;,1,aba") (named_at 5 "F" "b1xbbbxba") [] [] (pointing_at 0 "F" (Byte 98 ∷
        Gap 2 1 ∷ Byte 120 ∷ Byte 98 ∷ Byte 98 ∷ Byte 98 ∷ Byte 120 ∷ Byte 98 ∷ Byte 97 ∷ [])) }
    ensures drawn_26 { Does (texts_of "cs,F,") (pointing_at 3 "F" (Byte 49 ∷ Gap 1 1 ∷ Byte 97 ∷ Gap 1 1 ∷ Byte 97 ∷
        Byte 97 ∷ [])) [] [] (pointing_at 4 "F" (Byte 49 ∷ Gap 1 1 ∷ Byte 97 ∷ Gap 1 1 ∷ Byte 97 ∷ Byte 97 ∷ [])) }
    ensures drawn_28 { Does (texts_of "ss,F") (pointing_at 4 "F" (Byte 98 ∷ Byte 98 ∷ Byte 98 ∷ Gap 1 1 ∷ [])) [] []
        (pointing_at 0 "F" (Byte 98 ∷ Byte 98 ∷ Byte 98 ∷ Gap 1 1 ∷ [])) }
    ensures drawn_29 { Does (texts_of "cl,F,xxab1abbx") (named_at 1 "F" "bbabb") (codes "babb") [] (named_at 1 "F"
        "bbabb") }
    ensures drawn_30 { Does (texts_of "cr,F") (named_at 3 "F" "1axbabb") [] [] (named "F" "1axbabb") }
    ensures drawn_31 { Does (texts_of "cn,F,-3,") (pointing_at 7 "F" (Byte 98 ∷ Gap 1 1 ∷ Byte 120 ∷ Gap 1 1 ∷ Byte 98
        ∷ Gap 1 1 ∷ Byte 120 ∷ Byte 98 ∷ Gap 1 1 ∷ [])) (codes "xbx") [] (pointing_at 2 "F" (Byte 98 ∷ Gap 1 1 ∷ Byte
        120 ∷ Gap 1 1 ∷ Byte 98 ∷ Gap 1 1 ∷ Byte 120 ∷ Byte 98 ∷ Gap 1 1 ∷ [])) }
    ensures drawn_32 { Does (texts_of "ss,F") (named "F" "a") [] [] (named "F" "a") }
    ensures drawn_34 { Does (texts_of "cn,F,--4,") (pointing_at 4 "F" (Gap 1 1 ∷ Byte 98 ∷ Byte 97 ∷ Byte 120 ∷ []))
        (codes "bax") [] (pointing_at 1 "F" (Gap 1 1 ∷ Byte 98 ∷ Byte 97 ∷ Byte 120 ∷ [])) }
    ensures drawn_35 { Does (texts_of "cr,F") (named_at 1 "F" "b") [] [] (named "F" "b") }
    ensures drawn_36 { Does (texts_of "cr,F") (named_at 1 "F" "b") [] [] (named "F" "b") }
{}

/// What random calls on a form do.
pub fn drawn_more_calls()
    ensures drawn_38 { Does (texts_of "pf,F") (pointing_at 5 "F" (Byte 98 ∷ Byte 98 ∷ Gap 1 1 ∷ Byte 120 ∷ Byte 49 ∷
        Byte 98 ∷ Byte 98 ∷ [])) [] (codes "bb<1>x1<^>bb") (pointing_at 5 "F" (Byte 98 ∷ Byte 98 ∷ Gap 1 1 ∷ Byte 120
        ∷ Byte 49 ∷ Byte 98 ∷ Byte 98 ∷ [])) }
    ensures drawn_39 { Does (texts_of "in,F,,Z") (named_at 2 "F" "abxabb") [] [] (named_at 2 "F" "abxabb") }
    ensures drawn_41 { Does (texts_of "cr,F") (pointing_at 1 "F" (Gap 1 1 ∷ [])) [] [] (pointing_at 0 "F" (Gap 1 1 ∷
        [])) }
    ensures drawn_42 { Does (texts_of "ss,F,b,") (pointing_at 1 "F" (Gap 1 1 ∷ [])) [] [] (pointing_at 0 "F" (Gap 1 1
        ∷ [])) }
    ensures drawn_45 { Does (texts_of "ss,F,a") (named "F" "11bbbb1bb") [] [] (named "F" "11bbbb1bb") }
    ensures drawn_47 { Does (texts_of "cn,F,-3,") (named_at 2 "F" "a1a") (codes "a1") [] (named "F" "a1a") }
    ensures drawn_48 { Does (texts_of "cn,F,-4,Z") (named_at 4 "F" "bbbbaaaa") (codes "bbbb") [] (named "F"
        "bbbbaaaa") }
    ensures drawn_49 { Does (texts_of "ss,F,x") (pointing_at 3 "F" (Byte 97 ∷ Gap 1 2 ∷ Byte 97 ∷ Byte 120 ∷ Byte 120
        ∷ Byte 97 ∷ [])) [] [] (pointing_at 0 "F" (Byte 97 ∷ Gap 1 2 ∷ Byte 97 ∷ Gap 1 1 ∷ Gap 1 1 ∷ Byte 97 ∷ [])) }
    ensures drawn_51 { Does (texts_of "ss,F,,1") (named_at 2 "F" "aaaa") [] [] (named "F" "aaaa") }
    ensures drawn_56 { Forces (texts_of "in,F,aba,") (named_at 3 "F" "bbabxba") [] }
    ensures drawn_57 { Does (texts_of "ss,F,a,1,") (pointing_at 4 "F" (Byte 49 ∷ Byte 98 ∷ Byte 49 ∷ Gap 1 1 ∷ Gap 1 1
        ∷ [])) [] [] (pointing_at 0 "F" (Gap 2 1 ∷ Byte 98 ∷ Gap 2 1 ∷ Gap 1 1 ∷ Gap 1 1 ∷ [])) }
    ensures drawn_59 { Does (texts_of "ss,F,x,b") (pointing_at 6 "F" (Gap 2 1 ∷ Byte 98 ∷ Byte 97 ∷ Gap 1 1 ∷ Gap 2 1
        ∷ Gap 2 1 ∷ Byte 98 ∷ Byte 97 ∷ Byte 98 ∷ [])) [] [] (pointing_at 0 "F" (Gap 2 1 ∷ Gap 2 1 ∷ Byte 97 ∷ Gap 1 1
        ∷ Gap 2 1 ∷ Gap 2 1 ∷ Gap 2 1 ∷ Byte 97 ∷ Gap 2 1 ∷ [])) }
    ensures drawn_62 { Forces (texts_of "in,F,#,") (pointing_at 6 "F" (Gap 1 2 ∷ Byte 98 ∷ Byte 49 ∷ Byte 120 ∷ Byte
        49 ∷ Byte 49 ∷ Gap 1 2 ∷ [])) [] }
    ensures drawn_64 { Does (texts_of "cl,F") (named_at 2 "F" "xa") [] [] (named_at 2 "F" "xa") }
    ensures drawn_65 { Does (texts_of "cl,F,85070591730234615865843651857942052863") (pointing_at 6 "F" (Gap 1 1 ∷
        Byte 97 ∷ Byte 49 ∷ Gap 1 1 ∷ Byte 97 ∷ Gap 1 1 ∷ Gap 1 1 ∷ Gap 1 1 ∷ Byte 97 ∷ [])) (codes
        "8507059173023461586584365185794205286385070591730234615865843651857942052863a") [] (pointing_at 6 "F" (Gap 1
        1 ∷ Byte 97 ∷ Byte 49 ∷ Gap 1 1 ∷ Byte 97 ∷ Gap 1 1 ∷ Gap 1 1 ∷ Gap 1 1 ∷ Byte 97 ∷ [])) }
    ensures drawn_68 { Forces (texts_of "in,F,b,") (named_at 1 "F" "x") [] }
    ensures drawn_70 { Does (texts_of "ss,F,a,x") (named "F" "") [] [] (named "F" "") }
    ensures drawn_73 { Forces (texts_of "in,F,12,") (pointing_at 1 "F" (Gap 1 1 ∷ Byte 49 ∷ Byte 98 ∷ Byte 98 ∷ Byte
        97 ∷ [])) [] }
    ensures drawn_80 { Does (texts_of "cl,F,abab,',") (named "F" "") [] [] (named "F" "") }
    ensures drawn_81 { Does (texts_of "cl,F,ab,bbbbb11") (named_at 8 "F" "abaaa1bab") (codes "b") [] (named_at 8 "F"
        "abaaa1bab") }
    ensures drawn_82 { Does (texts_of "cc,F,Z") (named "F" "bb") (codes "b") [] (named_at 1 "F" "bb") }
    ensures drawn_83 { Does (texts_of "cl,F") (pointing_at 6 "F" (Byte 49 ∷ Byte 98 ∷ Byte 98 ∷ Gap 1 1 ∷ Gap 1 1 ∷
        Gap 1 1 ∷ Byte 49 ∷ Byte 120 ∷ Byte 120 ∷ [])) (codes "1xx") [] (pointing_at 6 "F" (Byte 49 ∷ Byte 98 ∷ Byte
        98 ∷ Gap 1 1 ∷ Gap 1 1 ∷ Gap 1 1 ∷ Byte 49 ∷ Byte 120 ∷ Byte 120 ∷ [])) }
    ensures drawn_84 { Does (texts_of "cs,F,Z") (named_at 7 "F" "bbaabx1ba") (codes "ba") [] (named_at 9 "F"
        "bbaabx1ba") }
    ensures drawn_86 { Does (texts_of "cl,F") (named "F" "") [] [] (named "F" "") }
    ensures drawn_88 { Forces (texts_of "cc,F,Z") (pointing_at 5 "F" (Byte 98 ∷ Gap 1 1 ∷ Gap 1 1 ∷ Gap 2 1 ∷ Byte 98
        ∷ [])) (codes "Z") }
{}
