//! What the names of the primitives stand for.
ghost use Rattle.std.specs.Prelude.{◌≡◌, List, [], codes, false, map, true, ℕ};
ghost use Rattle.std.specs.List.{list_any};
ghost use Rattle.std.specs.Str.{str_eq_ignore_ascii_case};
ghost use Rattle.trac_rules.specs.Performing.{known_names, primitive_of};
ghost use Rattle.trac_rules.specs.declared.primitive.BlockAction.TheVariants.{EraseBlock, FetchBlock, StoreBlock};
ghost use Rattle.trac_rules.specs.declared.primitive.Computation.TheVariants.{Calculate, Complement, Equal, Greater};
ghost use Rattle.trac_rules.specs.declared.primitive.Computation.TheVariants.{Meet, Rotate, Shift, Union};
ghost use Rattle.trac_rules.specs.declared.primitive.FormAction.TheVariants.{Call, Define, Delete, DeleteAll};
ghost use Rattle.trac_rules.specs.declared.primitive.FormAction.TheVariants.{ListNames, PrintForm, Read, Restore};
ghost use Rattle.trac_rules.specs.declared.primitive.FormAction.TheVariants.{Segment};
ghost use Rattle.trac_rules.specs.declared.primitive.FormReading.TheVariants.{ReadChar, ReadCount, ReadSegment};
ghost use Rattle.trac_rules.specs.declared.primitive.FormReading.TheVariants.{ReadUntil};
ghost use Rattle.trac_rules.specs.declared.primitive.Operation.TheVariants.{Add, Divide, Multiply, Subtract};
ghost use Rattle.trac_rules.specs.declared.primitive.Primitive.TheVariants.{Compute, Halt, Handle, HandleBlock};
ghost use Rattle.trac_rules.specs.declared.primitive.Primitive.TheVariants.{PrintString, ReadByte, ReadString, SetMeta};
ghost use Rattle.trac_rules.specs.declared.primitive.Primitive.TheVariants.{SetTrace, Unknown};
ghost use Rattle.trac_rules.specs.declared.primitive.TheConstants.{NAMES};

/// What a name stands for. Each letter of a primitive's name may be in either case (this project's profile).
#[derive(Clone, Copy, Debug, PartialEq, Eq)]
pub enum Primitive {
    /// `ps`: prints the argument after its name.
    PrintString,
    /// `rs`: reads the input up to the meta character.
    ReadString,
    /// `rc`: reads one byte of the input, whichever it is.
    ReadByte,
    /// `hl`: halts the processor.
    Halt,
    /// `cm`: sets the meta character, if a text is given.
    SetMeta,
    /// `tn` and `tf`: from now on each call is printed, or none is.
    SetTrace(bool),
    /// A primitive that gives a value made of its arguments alone, and does nothing else.
    Compute(Computation),
    /// A primitive that looks at the forms or changes them.
    Handle(FormAction),
    /// A primitive that puts forms aside in a block, brings copies of them back, or erases a block.
    HandleBlock(BlockAction),
    /// Any other name: the value is empty, and nothing is done (this project's profile).
    Unknown,
}

/// How a value is made of arguments alone.
#[derive(Clone, Copy, Debug, PartialEq, Eq)]
pub enum Computation {
    /// `eq`: a choice by whether two texts are the same.
    Equal,
    /// `gr`: a choice by whether one number is greater than another, at any length (this project's profile).
    Greater,
    /// `ad`, `su`, `ml`, `dv`: the result of an operation on two numbers.
    Calculate(Operation),
    /// `bu`: the bitwise or of two octal strings.
    Union,
    /// `bi`: the bitwise and of two octal strings.
    Meet,
    /// `bc`: an octal string with each bit turned over.
    Complement,
    /// `bs`: an octal string with its bits moved.
    Shift,
    /// `br`: an octal string with its bits rotated.
    Rotate,
}

/// An operation on two numbers.
#[derive(Clone, Copy, Debug, PartialEq, Eq)]
pub enum Operation {
    /// `ad`: the sum.
    Add,
    /// `su`: the first number less the second.
    Subtract,
    /// `ml`: the product.
    Multiply,
    /// `dv`: the first number by the second, cut toward zero (this project's profile).
    Divide,
}

/// What a primitive does with forms.
#[derive(Clone, Copy, Debug, PartialEq, Eq)]
pub enum FormAction {
    /// `ds`: a text becomes a form.
    Define,
    /// `dd`: the forms of some names are deleted.
    Delete,
    /// `da`: all forms are deleted.
    DeleteAll,
    /// `ss`: texts are cut out of a form.
    Segment,
    /// `cr`: the pointer of a form goes before its first item.
    Restore,
    /// `cl`: a form from its pointer on, its gaps filled with texts.
    Call,
    /// `cs`, `cc`, `cn`, `in`: a form is read at its pointer, which may move.
    Read(FormReading),
    /// `ln`: the names of all forms, each with a text before it.
    ListNames,
    /// `pf`: a form is printed.
    PrintForm,
}

/// How a form is read at its pointer.
#[derive(Clone, Copy, Debug, PartialEq, Eq)]
pub enum FormReading {
    /// `cs`: up to the next gap.
    ReadSegment,
    /// `cc`: the next byte.
    ReadChar,
    /// `cn`: so many bytes, onward or back.
    ReadCount,
    /// `in`: up to a text.
    ReadUntil,
}

/// What a primitive does with blocks of forms.
#[derive(Clone, Copy, Debug, PartialEq, Eq)]
pub enum BlockAction {
    /// `sb`: forms are moved into a new block, and a form becomes its number.
    StoreBlock,
    /// `fb`: copies of a block's forms are put among the forms.
    FetchBlock,
    /// `eb`: a block is erased, and the form that names it deleted.
    EraseBlock,
}

/// A primitive with its name.
#[derive(Clone, Copy, Debug, PartialEq, Eq)]
pub struct NamedPrimitive {
    /// The two letters of the name, as lowercase.
    pub letters: [u8; 2],
    /// What the name stands for.
    pub primitive: Primitive,
}

// The rows of a table of names.
macro_rules! named {
    ($($letters:literal => $primitive:expr,)*) => {
        [$(NamedPrimitive { letters: *$letters, primitive: $primitive }),*]
    };
}

/// The names of the primitives. Any other name is unknown.
pub const NAMES: [NamedPrimitive; 33] = named! {
    b"ps" => Primitive::PrintString,
    b"rs" => Primitive::ReadString,
    b"rc" => Primitive::ReadByte,
    b"hl" => Primitive::Halt,
    b"cm" => Primitive::SetMeta,
    b"tn" => Primitive::SetTrace(true),
    b"tf" => Primitive::SetTrace(false),
    b"eq" => Primitive::Compute(Computation::Equal),
    b"gr" => Primitive::Compute(Computation::Greater),
    b"ad" => Primitive::Compute(Computation::Calculate(Operation::Add)),
    b"su" => Primitive::Compute(Computation::Calculate(Operation::Subtract)),
    b"ml" => Primitive::Compute(Computation::Calculate(Operation::Multiply)),
    b"dv" => Primitive::Compute(Computation::Calculate(Operation::Divide)),
    b"bu" => Primitive::Compute(Computation::Union),
    b"bi" => Primitive::Compute(Computation::Meet),
    b"bc" => Primitive::Compute(Computation::Complement),
    b"bs" => Primitive::Compute(Computation::Shift),
    b"br" => Primitive::Compute(Computation::Rotate),
    b"ds" => Primitive::Handle(FormAction::Define),
    b"dd" => Primitive::Handle(FormAction::Delete),
    b"da" => Primitive::Handle(FormAction::DeleteAll),
    b"ss" => Primitive::Handle(FormAction::Segment),
    b"cr" => Primitive::Handle(FormAction::Restore),
    b"cl" => Primitive::Handle(FormAction::Call),
    b"cs" => Primitive::Handle(FormAction::Read(FormReading::ReadSegment)),
    b"cc" => Primitive::Handle(FormAction::Read(FormReading::ReadChar)),
    b"cn" => Primitive::Handle(FormAction::Read(FormReading::ReadCount)),
    b"in" => Primitive::Handle(FormAction::Read(FormReading::ReadUntil)),
    b"ln" => Primitive::Handle(FormAction::ListNames),
    b"pf" => Primitive::Handle(FormAction::PrintForm),
    b"sb" => Primitive::HandleBlock(BlockAction::StoreBlock),
    b"fb" => Primitive::HandleBlock(BlockAction::FetchBlock),
    b"eb" => Primitive::HandleBlock(BlockAction::EraseBlock),
};

/// What each name stands for: the table, read by the definitions.
pub fn names_stand_for()
    ensures print_string { primitive_of (codes "ps") ≡ PrintString }
    ensures read_string { primitive_of (codes "rs") ≡ ReadString }
    ensures read_byte { primitive_of (codes "rc") ≡ ReadByte }
    ensures halt { primitive_of (codes "hl") ≡ Halt }
    ensures set_meta { primitive_of (codes "cm") ≡ SetMeta }
    ensures trace_on { primitive_of (codes "tn") ≡ SetTrace true }
    ensures trace_off { primitive_of (codes "tf") ≡ SetTrace false }
    ensures equal { primitive_of (codes "eq") ≡ Compute Equal }
    ensures greater { primitive_of (codes "gr") ≡ Compute Greater }
    ensures add { primitive_of (codes "ad") ≡ Compute (Calculate Add) }
    ensures subtract { primitive_of (codes "su") ≡ Compute (Calculate Subtract) }
    ensures multiply { primitive_of (codes "ml") ≡ Compute (Calculate Multiply) }
    ensures divide { primitive_of (codes "dv") ≡ Compute (Calculate Divide) }
    ensures union { primitive_of (codes "bu") ≡ Compute Union }
    ensures meet { primitive_of (codes "bi") ≡ Compute Meet }
    ensures complement { primitive_of (codes "bc") ≡ Compute Complement }
    ensures shift { primitive_of (codes "bs") ≡ Compute Shift }
    ensures rotate { primitive_of (codes "br") ≡ Compute Rotate }
    ensures define { primitive_of (codes "ds") ≡ Handle Define }
    ensures delete { primitive_of (codes "dd") ≡ Handle Delete }
    ensures delete_all { primitive_of (codes "da") ≡ Handle DeleteAll }
    ensures segment { primitive_of (codes "ss") ≡ Handle Segment }
    ensures restore { primitive_of (codes "cr") ≡ Handle Restore }
    ensures call { primitive_of (codes "cl") ≡ Handle Call }
    ensures read_segment { primitive_of (codes "cs") ≡ Handle (Read ReadSegment) }
    ensures read_char { primitive_of (codes "cc") ≡ Handle (Read ReadChar) }
    ensures read_count { primitive_of (codes "cn") ≡ Handle (Read ReadCount) }
    ensures read_until { primitive_of (codes "in") ≡ Handle (Read ReadUntil) }
    ensures list_names { primitive_of (codes "ln") ≡ Handle ListNames }
    ensures print_form { primitive_of (codes "pf") ≡ Handle PrintForm }
    ensures store_block { primitive_of (codes "sb") ≡ HandleBlock StoreBlock }
    ensures fetch_block { primitive_of (codes "fb") ≡ HandleBlock FetchBlock }
    ensures erase_block { primitive_of (codes "eb") ≡ HandleBlock EraseBlock }
    // Each letter may be in either case.
    ensures first_capital { primitive_of (codes "Ps") ≡ PrintString }
    ensures second_capital { primitive_of (codes "pS") ≡ PrintString }
    // A name is just two letters long.
    ensures null { primitive_of [] ≡ Unknown }
    ensures one_letter { primitive_of (codes "p") ≡ Unknown }
    ensures blank_before { primitive_of (codes " ps") ≡ Unknown }
    ensures blank_after { primitive_of (codes "ps ") ≡ Unknown }
    ensures other { primitive_of (codes "zz") ≡ Unknown }
    // There are no other names.
    ensures all { map (λ entry. entry.letters) NAMES ≡ known_names }
    ensures others { (name : List ℕ) → list_any (str_eq_ignore_ascii_case name) known_names ≡ false →
        primitive_of name ≡ Unknown }
{}
