//! What each primitive does, for hints.

/// A primitive.
#[derive(Clone, Copy)]
pub(crate) struct Primitive {
    /// Its name, in lower case.
    pub name: &'static str,
    /// A call of it, with a word for each argument.
    pub call: &'static str,
    /// What it does.
    pub deed: &'static str,
    /// A call, and what comes of it.
    pub example: &'static str,
}

impl Primitive {
    /// Whether this argument of a call of it names a form.
    pub(crate) fn takes_form(&self, argument: usize) -> bool {
        let takes_many = self.name == "dd" || self.name == "sb";
        let names_form = self
            .call
            .split_once(",")
            .is_some_and(|(_, arguments)| arguments.starts_with("N"));
        names_form && (argument == 1 || takes_many && argument > 1)
    }
}

/// All primitives, by their names.
pub(crate) const PRIMITIVES: &[Primitive] = &[
    Primitive {
        name: "ad",
        call: "#(ad,A,B,Z)",
        deed: "adds two numbers",
        example: "#(ad,2,3) gives 5",
    },
    Primitive {
        name: "bc",
        call: "#(bc,O)",
        deed: "turns over each bit of an octal string",
        example: "#(bc,3) gives 4",
    },
    Primitive {
        name: "bi",
        call: "#(bi,O1,O2)",
        deed: "bitwise and of two octal strings",
        example: "#(bi,123,7) gives 3",
    },
    Primitive {
        name: "br",
        call: "#(br,A,O)",
        deed: "rotates the bits of an octal string by A places, to the left if A is positive",
        example: "#(br,-1,1) gives 4",
    },
    Primitive {
        name: "bs",
        call: "#(bs,A,O)",
        deed: "moves the bits of an octal string by A places, to the left if A is positive",
        example: "#(bs,3,12) gives 20",
    },
    Primitive {
        name: "bu",
        call: "#(bu,O1,O2)",
        deed: "bitwise or of two octal strings",
        example: "#(bu,12,7) gives 17",
    },
    Primitive {
        name: "cc",
        call: "#(cc,N,Z)",
        deed: "reads the next byte of form N, or gives Z at its end",
        example: "#(ds,F,ab)#(cc,F) gives a",
    },
    Primitive {
        name: "cl",
        call: "#(cl,N,X1,X2,..)",
        deed: "calls form N: gives its text, with X1 in the gaps of number 1, and so on",
        example: "#(ds,F,Cat)#(cl,F) gives Cat",
    },
    Primitive {
        name: "cm",
        call: "#(cm,X)",
        deed: "the first byte of X becomes the meta character, which ends a text of the input",
        example: "#(cm,;)",
    },
    Primitive {
        name: "cn",
        call: "#(cn,N,A,Z)",
        deed: "reads A bytes of form N, going back if A is negative, or gives Z if there are none",
        example: "#(ds,F,abc)#(cn,F,2) gives ab",
    },
    Primitive {
        name: "cr",
        call: "#(cr,N)",
        deed: "the pointer of form N goes before its first item",
        example: "#(cr,F)",
    },
    Primitive {
        name: "cs",
        call: "#(cs,N,Z)",
        deed: "reads form N up to its next gap, or gives Z at its end",
        example: "#(ds,F,AxB)#(ss,F,x)#(cs,F) gives A",
    },
    Primitive {
        name: "da",
        call: "#(da)",
        deed: "deletes all forms",
        example: "#(da)",
    },
    Primitive {
        name: "dd",
        call: "#(dd,N1,N2,..)",
        deed: "deletes forms",
        example: "#(dd,F,G)",
    },
    Primitive {
        name: "ds",
        call: "#(ds,N,X)",
        deed: "defines form N: the text X under a name",
        example: "#(ds,F,Cat)#(cl,F) gives Cat",
    },
    Primitive {
        name: "dv",
        call: "#(dv,A,B,Z)",
        deed: "divides A by B, cut toward zero, or gives Z if B is 0",
        example: "#(dv,-7,2) gives -3",
    },
    Primitive {
        name: "eb",
        call: "#(eb,N)",
        deed: "erases the block whose number form N has, and deletes form N",
        example: "#(eb,F)",
    },
    Primitive {
        name: "eq",
        call: "#(eq,X1,X2,X3,X4)",
        deed: "gives X3 if X1 and X2 are the same bytes, else X4",
        example: "#(eq,a,a,yes,no) gives yes",
    },
    Primitive {
        name: "fb",
        call: "#(fb,N)",
        deed: "brings back the forms of the block whose number form N has",
        example: "#(fb,F)",
    },
    Primitive {
        name: "gr",
        call: "#(gr,A,B,X1,X2)",
        deed: "gives X1 if A is greater than B, else X2",
        example: "#(gr,3,2,yes,no) gives yes",
    },
    Primitive {
        name: "hl",
        call: "#(hl)",
        deed: "halts",
        example: "#(hl)",
    },
    Primitive {
        name: "in",
        call: "#(in,N,X,Z)",
        deed: "reads form N up to the text X, or gives Z if that is not found",
        example: "#(ds,F,abc)#(in,F,c) gives ab",
    },
    Primitive {
        name: "ln",
        call: "#(ln,X)",
        deed: "lists the names of all forms, with X before each",
        example: "#(ds,F,a)#(ds,G,b)#(ln,;) gives ;F;G",
    },
    Primitive {
        name: "ml",
        call: "#(ml,A,B,Z)",
        deed: "multiplies two numbers",
        example: "#(ml,2,3) gives 6",
    },
    Primitive {
        name: "pf",
        call: "#(pf,N)",
        deed: "prints form N, with its gaps and its pointer",
        example: "#(ds,F,Cat)#(pf,F) prints <^>Cat",
    },
    Primitive {
        name: "ps",
        call: "#(ps,X)",
        deed: "prints X",
        example: "#(ps,Cat) prints Cat",
    },
    Primitive {
        name: "rc",
        call: "#(rc)",
        deed: "reads the next byte of the input",
        example: "#(rc)",
    },
    Primitive {
        name: "rs",
        call: "#(rs)",
        deed: "reads a text of the input, up to the meta character",
        example: "#(rs)",
    },
    Primitive {
        name: "sb",
        call: "#(sb,N,N1,N2,..)",
        deed: "puts forms N1, N2 and so on aside in a block, whose number form N gets",
        example: "#(sb,N,F,G)",
    },
    Primitive {
        name: "ss",
        call: "#(ss,N,X1,X2,..)",
        deed: "cuts X1, X2 and so on out of form N, which leave gaps of numbers 1, 2 and so on",
        example: "#(ds,F,AxB)#(ss,F,x)#(cl,F,-) gives A-B",
    },
    Primitive {
        name: "su",
        call: "#(su,A,B,Z)",
        deed: "takes B from A",
        example: "#(su,5,2) gives 3",
    },
    Primitive {
        name: "tf",
        call: "#(tf)",
        deed: "the trace goes off",
        example: "#(tf)",
    },
    Primitive {
        name: "tn",
        call: "#(tn)",
        deed: "the trace goes on: each call prints a line",
        example: "#(tn)",
    },
];

/// The primitive that bytes name, in either case of letters.
pub(crate) fn primitive_named(name: &[u8]) -> Option<&'static Primitive> {
    PRIMITIVES.iter().find(|primitive| primitive.name.as_bytes().eq_ignore_ascii_case(name))
}
