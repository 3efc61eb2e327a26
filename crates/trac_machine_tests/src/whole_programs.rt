//! Whole programs with what they print.
use crate::EACH_PRIMITIVE;

/// Whole inputs, and what they print if numbers are of 128 bits. Each run ends with its input.
const PROGRAMS: &[(&[u8], &[u8])] = &[
    EACH_PRIMITIVE,
    (b"", b""),
    (b"AB'", b"AB"),
    (b"a(b", b""),
    (b"((a'", b""),
    (b"a)b,c'", b"a"),
    (b"ABC", b"ABC"),
    (b"a#b##c'", b"a#b##c"),
    (b"A\r\nB'", b"AB"),
    (b"(A\nB)'", b"A\nB"),
    (b"#(ds,a,1)'#(dd,a)'#(ds,a,2)'#(cl,a)'", b"2"),
    (b"##(ad,5,(#(su,9,10)))'", b"5"),
    (b"##(dv,1,0,(#(ad,2,2)))'", b"4"),
    (b"##(dv,1,0,(#(ad,2,2)))'#(bs,3,12)'", b"420"),
    (b"#(ds,b,1)#(ds,a,2)##(ln,(,))'", b",a,b"),
    (b"#(ds,,x)#(cl,)'", b"x"),
    (b"#(ds,F,banana)#(ss,F,,a)#(pf,F)'", b"<^>b<2>n<2>n<2>"),
    (b"#(ds,F,aaa)#(ss,F,aa)#(pf,F)'", b"<^><1>a"),
    (b"#(ds,F,ab)#(cr,F)#(da)#(ln,;)#(pf,F)'", b""),
    (b"\t#(PS,A)#(Ps,(#(ps,B)))'", b"A#(ps,B)"),
    (b"#(ps,A)'B'", b"AB"),
    (b"#(rc)'x'", b"x"),
    (b"#(cm,;)'A;B;", b"AB"),
    (b"#(ps,a)#(hl)#(ps,b)'c'", b"a"),
    // Functions that are begun one in another, and of which only the innermost is ended.
    (b"#(#(#(#(#(#(#(#(#(#(#(#(#(#(#(#('", b""),
    (
        b"#(ds,AA,Cat)'#(ds,BB,(#(cl,AA)))'#(ps,(#(cl,BB)))'#(ps,##(cl,BB))'#(ps,#(cl,BB))'",
        b"#(cl,BB)#(cl,AA)Cat",
    ),
    (
        b"#(ds,Factorial,(#(eq,X,1,1,(#(ml,X,#(cl,Factorial,#(su,X,1)))))))'#(ss,Factorial,X)'#(cl,Factorial,5)'",
        b"120",
    ),
    (
        b"#(ad,9223372036854775807,1,over);'#(dv,7,0,none);'#(ad,apples5,pears3);'#(dv,-7,2);'\
          #(gr,99999999999999999999,5,yes,no)'",
        b"9223372036854775808;none;apples8;-3;yes",
    ),
    (
        b"#(ds,F,yxb)'#(ss,F,y)'#(pf,F)'#(ss,F,x)'#(pf,F)'",
        b"<^><1>xb<^><1><1>b",
    ),
    (
        b"#(bu,7,10) #(bi,70,5) #(bc,0) #(bs,-1,4) #(br,1,4)'",
        b"17 0 7 2 1",
    ),
    (
        b"#(ml,3037000499,3037000499,big);#(ml,3037000500,3037000500,big)'",
        b"9223372030926249001;9223372037000250000",
    ),
    (
        b"#(bs,-9223372036854775808,7);#(br,9223372036854775807,12);#(br,-9223372036854775808,12);\
          #(bs,9223372036854775808,7);'",
        b"0;24;42;0;",
    ),
    (
        b"#(ad,170141183460469231731687303715884105727,1,over);#(su,-170141183460469231731687303715884105728,0);\
          #(dv,-170141183460469231731687303715884105728,-1,none)'",
        b"over;-170141183460469231731687303715884105728;none",
    ),
    (
        b"#(ml,9223372036854775808,9223372036854775808,big);#(ml,18446744073709551616,9223372036854775808,big)'",
        b"85070591730234615865843651857942052864;big",
    ),
    (
        b"#(ds,F,abc)#(cn,F,9223372036854775808,Z);#(bs,9223372036854775808,7)'",
        b"abc;0",
    ),
    (
        b"#(ds,F,abcabc)'#(ss,F,b,ca)'#(pf,F)#(cl,F,-,+)'",
        b"<^>a<1><2><1>ca-+-c",
    ),
    (
        b"#(ds,A,1)'#(ds,B,2)'#(sb,G,A,C,B,A)'#(ln,;)'#(cl,G)'#(ds,A,9)#(fb,G)#(cl,A)#(cl,B)'#(eb,G)#(ln,;)'",
        b";G012;A;B",
    ),
    (
        b"#(ds,G,x)#(sb,G,G)#(pf,G)#(fb,G)#(pf,G)#(eb,G)#(cl,G)'",
        b"<^>0<^>xx",
    ),
    (
        b"#(sb,E)#(sb,F)#(cl,E);#(cl,F)'#(eb,E)#(sb,E)#(cl,E)'",
        b"0;12",
    ),
    // A pointer that moves in a copy stays where it is in the block.
    (
        b"#(ds,A,axb)#(ss,A,x)#(cc,A)#(ds,B,2)#(ds,a,3)#(sb,G,A,B,a)#(fb,G)#(cc,A)#(fb,G)#(pf,A)'",
        b"a<^><1>bab",
    ),
    (
        b"#(ds,F,AxB)'#(ss,F,x)'#(cs,F,none)'#(cs,F,none)'##(cs,F,(#(ad,1,2)))'#(cr,F)#(cl,F,-)'",
        b"AB3A-B",
    ),
    (
        b"#(ds,F,abcde)'#(cn,F,3,Z);'#(cn,F,-2,Z);'#(cn,F,0,Z);'#(cn,F,9,Z);'#(cn,F,1,Z);'#(cr,F)#(cn,F,-1,Z)'",
        b"abc;bc;;bcde;Z;Z",
    ),
    (
        b"#(ds,F,abcabc)'#(in,F,c,none);#(in,F,c,none);#(in,F,c,none);#(in,F,,none)'",
        b"ab;ab;none;",
    ),
    (
        b"#(ds,G,axbxc)#(ss,G,x)#(in,G,bc,no);#(in,G,c,no);#(cs,G,end)'",
        b"no;ab;end",
    ),
    // From each place in `a<1>bc<2>`: the value, and where the pointer stands afterwards.
    (
        b"#(ds,F,axbcy)#(ss,F,x,y)#(cc,F,Z)'#(pf,F)'#(cc,F,Z)'#(pf,F)'",
        b"aa<^><1>bc<2>ba<1>b<^>c<2>",
    ),
    (
        b"#(ds,F,axbcy)#(ss,F,x,y)#(cc,F)'#(cl,F,X,Y)'#(cs,F,Z)'#(pf,F)'",
        b"aXbcYa<1><^>bc<2>",
    ),
    (
        b"#(ds,F,axbcy)#(ss,F,x,y)#(in,F,ab,Z)'#(pf,F)'#(in,F,c,Z)'#(cc,F,Z)'#(pf,F)'",
        b"Z<^>a<1>bc<2>abZa<1>bc<^><2>",
    ),
    (
        b"#(ds,F,axbcy)#(ss,F,x,y)#(cn,F,3)'#(cs,F,Z)'#(cs,F,Z)'#(pf,F)'#(cn,F,-2)'#(pf,F)'",
        b"abcZa<1>bc<2><^>bca<1><^>bc<2>",
    ),
    (
        b"#(tn)'#(ps,a)'#(tf)'",
        b"#(ps*)\n#(rs)\n#(ps*a)\na#(ps*)\n#(rs)\n#(tf)\n",
    ),
];

/// The programs with what they print. What a function proves of a table grows with its texts, so this one alone names
/// it.
pub fn programs() -> &'static [(&'static [u8], &'static [u8])] {
    PROGRAMS
}
