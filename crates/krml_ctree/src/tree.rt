//! The trees of C: types, expressions, statements and programs.

ghost use Rattle.std.specs.Prelude.{◌≡◌};
ghost use Rattle.krml_ctree.specs.Text.{width_type};

use krml_trace::{Box, Name, Seq, Width};

/// A type. The clauses cited here are of ISO/IEC 9899:2011.
#[derive(Drop)]
pub enum CType {
    /// `uint8_t` (7.20.1.1), as the two that follow.
    U8,
    U32,
    U64,
    /// A struct, by its name (6.7.2.1).
    Struct(Name),
    /// A pointer to values of a type that is itself no pointer (6.7.6.1).
    Ptr(Box<CType>),
}

impl CType {
    /// The type of numbers of a width.
    pub fn of(width: Width) -> CType
        ensures { result ≡ width_type width }
    {
        match width {
            Width::W8 => CType::U8,
            Width::W32 => CType::U32,
            Width::W64 => CType::U64,
        }
    }
}

/// An operator of two operands: arithmetic and the bits modulo 2 to the width (6.2.5p9).
#[derive(Clone, Copy, Debug, PartialEq, Eq)]
pub enum CBin {
    /// The sum, also of a pointer and a number (6.5.6).
    Add,
    Sub,
    Mul,
    And,
    Or,
    Xor,
    /// A shift to the left by less than the width (6.5.7).
    Shl,
    Shr,
}

/// A comparison of two numbers (6.5.8, 6.5.9).
#[derive(Clone, Copy, Debug, PartialEq, Eq)]
pub enum CmpKind {
    Eq,
    Ne,
    Lt,
    Le,
    Gt,
    Ge,
}

/// An expression. It has no effect.
#[derive(Drop)]
pub enum CExpr {
    /// The value of a variable.
    Var(Name),
    /// A number of width 32 or 64 (6.4.4.1).
    Lit(Width, u64),
    /// A number as one of a width (6.5.4).
    Cast(Width, Box<CExpr>),
    /// An operator and its operands.
    Bin(CBin, Box<CExpr>, Box<CExpr>),
    /// A comparison, whose answer has this width.
    Cmp(Width, CmpKind, Box<CExpr>, Box<CExpr>),
    /// A struct and the values of its fields in order (6.5.2.5).
    Build(Name, Seq<CExpr>),
    /// The field of a struct (6.5.2.3).
    Field(Box<CExpr>, Name),
}

/// A variable, a parameter or a field, and its type.
#[derive(Drop)]
pub struct CVar {
    pub ty: CType,
    pub name: Name,
}

/// An array: the type of its elements, and how many there are (6.7.6.2).
#[derive(Drop)]
pub struct CArray {
    pub ty: CType,
    pub name: Name,
    pub len: u32,
}

/// A condition, and what is done where it is true.
#[cycle(syntax)]
#[derive(Drop)]
pub struct CArm {
    pub test: CExpr,
    pub body: Seq<CStatement>,
}

/// A statement.
#[cycle(syntax)]
#[derive(Drop)]
pub enum CStatement {
    /// A variable and its value, in scope up to the end of its block (6.2.1p4).
    Decl(CVar, CExpr),
    /// A variable without a value.
    Blank(CVar),
    /// An assignment (6.5.16.1).
    Set(Name, CExpr),
    /// A variable and the element that a pointer and an index lead to (6.5.2.1).
    Read(CVar, CExpr, CExpr),
    /// A variable and an element of a table.
    Tab(CVar, Name, CExpr),
    /// A pointer, an index, and what is stored there.
    Write(CExpr, CExpr, CExpr),
    /// A variable, and the quotient of two numbers where the second field is true, else their remainder (6.5.5).
    Div(CVar, bool, CExpr, CExpr),
    /// A variable and the result of a call (6.5.2.2).
    Call(CVar, Name, Seq<CExpr>),
    /// A call that gives nothing.
    Run(Name, Seq<CExpr>),
    /// `if`, `else if` and so on (6.8.4.1), and what is done where no test is true.
    Chain(Seq<CArm>, Seq<CStatement>),
    /// A loop without end: the first list, a test that leaves the loop where it is false, and the second list (6.8.5).
    Loop(Seq<CStatement>, CExpr, Seq<CStatement>),
    /// A block with arrays of its own (6.8.2).
    Block(Seq<CArray>, Seq<CStatement>),
}

/// A struct and its fields.
#[derive(Drop)]
pub struct CStruct {
    pub name: Name,
    pub fields: Seq<CVar>,
}

/// A constant table of numbers of a width.
#[derive(Drop)]
pub struct CTable {
    pub name: Name,
    pub width: Width,
    pub nums: Seq<u64>,
}

/// A function: its result type, where it has a result, and then `answer`, what it returns.
#[derive(Drop)]
pub struct CFun {
    pub result: Option<CType>,
    pub name: Name,
    pub params: Seq<CVar>,
    pub body: Seq<CStatement>,
    pub answer: Option<CExpr>,
}

/// A program: its structs, its tables and its functions, each in order.
#[derive(Drop)]
pub struct CProgram {
    pub structs: Seq<CStruct>,
    pub tables: Seq<CTable>,
    pub funs: Seq<CFun>,
}
