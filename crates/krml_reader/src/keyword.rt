//! The words of the language.

ghost use Rattle.std.specs.Prelude.{◌≡◌};
ghost use Rattle.krml_reader.specs.Keyword.{spelling, first_of_those, beginning, keyword_of, keyword_at};

use krml_forms::Form;
use krml_syntax::{BinOp, CmpOp, IntTy, bin_word, bool_word, cmp_word, int_word, shift_word};
use krml_trace::Width;

/// A word of the language.
#[derive(Clone, Copy)]
pub enum Keyword {
    Int(IntTy),
    Truth(bool),
    Bin(BinOp),
    /// A shift, to the left where it is true.
    Shift(bool),
    Cmp(CmpOp),
    Not,
    Cast,
    Hide,
    Make,
    Get,
    Con,
    Read,
    Write,
    Slice,
    Tab,
    If,
    Match,
    Do,
    Frame,
    Alloc,
    While,
    For,
    Call,
    Let,
    Struct,
    Sum,
    Table,
    Fun,
    Entry,
    Buf,
    Boolean,
    Unit,
}

const U8: Keyword = Keyword::Int(IntTy {
    width: Width::W8,
    secret: false,
});

const U32: Keyword = Keyword::Int(IntTy {
    width: Width::W32,
    secret: false,
});

const U64: Keyword = Keyword::Int(IntTy {
    width: Width::W64,
    secret: false,
});

const SU8: Keyword = Keyword::Int(IntTy {
    width: Width::W8,
    secret: true,
});

const SU32: Keyword = Keyword::Int(IntTy {
    width: Width::W32,
    secret: true,
});

const SU64: Keyword = Keyword::Int(IntTy {
    width: Width::W64,
    secret: true,
});

fn spelling(keyword: Keyword) -> &'static [u8]
    ensures { result.now ≡ spelling keyword }
{
    match keyword {
        Keyword::Int(ty) => int_word(ty),
        Keyword::Truth(b) => bool_word(b),
        Keyword::Bin(op) => bin_word(op),
        Keyword::Shift(left) => shift_word(left),
        Keyword::Cmp(op) => cmp_word(op),
        Keyword::Not => b"not",
        Keyword::Cast => b"cast",
        Keyword::Hide => b"hide",
        Keyword::Make => b"make",
        Keyword::Get => b"get",
        Keyword::Con => b"con",
        Keyword::Read => b"read",
        Keyword::Write => b"write",
        Keyword::Slice => b"slice",
        Keyword::Tab => b"tab",
        Keyword::If => b"if",
        Keyword::Match => b"match",
        Keyword::Do => b"do",
        Keyword::Frame => b"frame",
        Keyword::Alloc => b"alloc",
        Keyword::While => b"while",
        Keyword::For => b"for",
        Keyword::Call => b"call",
        Keyword::Let => b"let",
        Keyword::Struct => b"struct",
        Keyword::Sum => b"sum",
        Keyword::Table => b"table",
        Keyword::Fun => b"fun",
        Keyword::Entry => b"entry",
        Keyword::Buf => b"buf",
        Keyword::Boolean => b"bool",
        Keyword::Unit => b"unit",
    }
}

fn first_of_those(keywords: &[Keyword], word: &[u8]) -> Option<Keyword>
    ensures { result ≡ first_of_those keywords.now word.now }
{
    for keyword in keywords {
        if word == spelling(*keyword) {
            return Some(*keyword);
        }
    }
    None
}

/// The keywords whose words begin with a byte.
#[tactic(auto, unfolding(crate::specs::Keyword::beginning))]
fn beginning(first: u8) -> &'static [Keyword]
    ensures { result.now ≡ beginning first }
{
    match first {
        b'a' => &[
            Keyword::Bin(BinOp::Add),
            Keyword::Bin(BinOp::And),
            Keyword::Alloc,
        ],
        b'b' => &[Keyword::Buf, Keyword::Boolean],
        b'c' => &[Keyword::Cast, Keyword::Con, Keyword::Call],
        b'd' => &[Keyword::Bin(BinOp::Div), Keyword::Do],
        b'e' => &[
            Keyword::Bin(BinOp::EqMask),
            Keyword::Cmp(CmpOp::Eq),
            Keyword::Entry,
        ],
        b'f' => &[
            Keyword::Truth(false),
            Keyword::Frame,
            Keyword::For,
            Keyword::Fun,
        ],
        b'g' => &[
            Keyword::Bin(BinOp::GteMask),
            Keyword::Cmp(CmpOp::Gt),
            Keyword::Cmp(CmpOp::Ge),
            Keyword::Get,
        ],
        b'h' => &[Keyword::Hide],
        b'i' => &[Keyword::If],
        b'l' => &[
            Keyword::Cmp(CmpOp::Lt),
            Keyword::Cmp(CmpOp::Le),
            Keyword::Let,
        ],
        b'm' => &[Keyword::Bin(BinOp::Mul), Keyword::Make, Keyword::Match],
        b'n' => &[Keyword::Cmp(CmpOp::Ne), Keyword::Not],
        b'o' => &[Keyword::Bin(BinOp::Or)],
        b'r' => &[Keyword::Bin(BinOp::Rem), Keyword::Read],
        b's' => &[
            SU8,
            SU32,
            SU64,
            Keyword::Bin(BinOp::Sub),
            Keyword::Shift(true),
            Keyword::Shift(false),
            Keyword::Slice,
            Keyword::Struct,
            Keyword::Sum,
        ],
        b't' => &[Keyword::Truth(true), Keyword::Tab, Keyword::Table],
        b'u' => &[U8, U32, U64, Keyword::Unit],
        b'w' => &[Keyword::Write, Keyword::While],
        b'x' => &[Keyword::Bin(BinOp::Xor)],
        _ => &[],
    }
}

/// The keyword that a word is.
pub fn keyword_of(word: &[u8]) -> Option<Keyword>
    ensures { result ≡ keyword_of word.now }
{
    match word {
        [first, ..] => first_of_those(beginning(*first), word),
        [] => None,
    }
}

/// The keyword that a form is.
pub fn keyword_at(form: &Form) -> Option<Keyword>
    ensures { result ≡ keyword_at form.now }
{
    match form {
        Form::Atom(word) => keyword_of(word.as_slice()),
        Form::List(_) => None,
    }
}
