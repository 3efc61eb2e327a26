//! Tests of the machine, of lists with two ends, and of the memory that refuses what it is told to, on which all
//! further tests rest. The library itself has what these share: whole programs, what a machine shows, and readers and
//! writers that fail.
//!
//! What a machine is told stands in tables, and one loop carries it out: what a test's proof costs grows with the calls
//! that stand in it. Each call stands in a helper that promises nothing. Expected values come from the definition of
//! the language, not from this program.
#![tactic(auto)]

pub mod faulty;
mod shown;
mod whole_programs;

pub use faulty::Memory;
pub use shown::{shown_after, texts_shown};
pub use whole_programs::programs;

/// The whole input of a program that performs each primitive but `hl`, and what it prints.
pub const EACH_PRIMITIVE: (&[u8], &[u8]) = (
    b"\
        #(ds,A,abcbd)#(ss,A,b)#(pf,A)'\
        #(cl,A,-)#(cs,A,z)#(cc,A,z)#(cn,A,1,z)#(cr,A)#(in,A,d,z)'\
        #(eq,x,x,1,2)#(gr,2,1,3,4)#(ad,2,3)#(su,9,2)#(ml,2,4)#(dv,9,1)'\
        #(bu,1,2)#(bi,6,3)#(bc,7)#(bs,1,1)#(br,-1,1)'\
        #(ds,B,x)#(sb,G,A,B)#(ds,A,y)#(fb,G)#(cl,B)#(eb,G)#(ln,;)'\
        #(dd,A)#(da)#(ln,;)#(rc)'q#(tn)#(tf)#(cm,;)'\
        (en)d##(no)#)z;",
    b"<^>a<1>c<1>da-c-dacdac13578932024x;A;Bq#(tf)\nend#",
);

// Prints `AB` in two parts, read one byte a call: `A` before the ninth read, and `B` before the eleventh, which finds
// the end. Output is written and flushed before each read, and before the end.
pub const INPUT: &[u8; 10] = b"#(ps,A)'B'";

#[cfg(test)]
mod answers;
#[cfg(test)]
mod elsewhere;
#[cfg(test)]
mod ends;
#[cfg(test)]
mod loading;
#[cfg(test)]
mod machines;
#[cfg(test)]
mod memory;
