//! The trees of the source: types, patterns, expressions and definitions.

use krml_trace::{Box, Name, Seq, Width};

/// An integer type: a width, and whether its values are secret.
#[derive(Clone, Copy, Debug, PartialEq, Eq)]
pub struct IntTy {
    pub width: Width,
    pub secret: bool,
}

/// A type.
#[derive(Drop)]
pub enum Ty {
    Bool,
    /// The type of expressions that give nothing.
    Unit,
    Int(IntTy),
    /// A buffer of elements of a type.
    Buf(Box<Ty>),
    /// A type variable, by its name without the quote.
    Var(Name),
    /// A struct or a sum at its type arguments.
    Named(Name, Seq<Ty>),
}

/// A name and its type, as a field of a struct or a parameter has them.
#[derive(Drop)]
pub struct Field {
    pub name: Name,
    pub ty: Ty,
}

/// A constructor of a sum, and the types of its arguments.
#[derive(Drop)]
pub struct Con {
    pub name: Name,
    pub args: Seq<Ty>,
}

/// A pattern.
#[derive(Drop)]
pub enum Pat {
    /// Any value.
    Any,
    /// Any value, which the variable takes.
    Bind(Name),
    Bool(bool),
    Num(IntTy, u64),
    /// A constructor, and the patterns of its arguments.
    Con(Name, Seq<Pat>),
    /// A struct, and the patterns of its fields.
    Make(Name, Seq<Pat>),
}

/// An operator whose operands and result have its integer type.
#[derive(Clone, Copy, Debug, PartialEq, Eq)]
pub enum BinOp {
    Add,
    Sub,
    Mul,
    Div,
    Rem,
    And,
    Or,
    Xor,
    /// All ones where the operands are equal, else 0.
    EqMask,
    /// All ones where the first operand is at least the second, else 0.
    GteMask,
}

/// An unsigned comparison.
#[derive(Clone, Copy, Debug, PartialEq, Eq)]
pub enum CmpOp {
    Eq,
    Ne,
    Lt,
    Le,
    Gt,
    Ge,
}

/// A slot of a frame: the type and the number of its elements.
#[derive(Drop)]
pub struct Slot {
    pub ty: Ty,
    pub len: u32,
}

/// A branch of a `match`.
#[cycle(syntax)]
#[derive(Drop)]
pub struct Arm {
    pub pat: Pat,
    pub body: Expr,
}

/// What stands in a `do` before its last expression.
#[cycle(syntax)]
#[derive(Drop)]
pub enum Item {
    /// A variable of a type takes a value.
    Let(Name, Ty, Expr),
    /// An expression of type unit.
    Run(Expr),
}

/// Tests, and the value where all of them are true.
#[cycle(syntax)]
#[derive(Drop)]
pub struct Case {
    pub tests: Seq<Expr>,
    pub body: Expr,
}

/// An expression.
#[cycle(syntax)]
#[derive(Drop)]
pub enum Expr {
    Var(Name),
    Unit,
    Bool(bool),
    Num(IntTy, u64),
    Bin(BinOp, IntTy, Box<Expr>, Box<Expr>),
    /// A shift to the left where it is true, else to the right: the value, and the number of places.
    Shift(bool, IntTy, Box<Expr>, Box<Expr>),
    Cmp(CmpOp, IntTy, Box<Expr>, Box<Expr>),
    Not(Box<Expr>),
    /// From the first type to the second.
    Cast(IntTy, IntTy, Box<Expr>),
    /// To the secret type of the width.
    Hide(IntTy, Box<Expr>),
    /// A struct at its type arguments, and the values of its fields.
    Make(Name, Seq<Ty>, Seq<Expr>),
    /// A field of a struct.
    Get(Name, Box<Expr>),
    /// A constructor at the type arguments of its sum, and its arguments.
    Con(Name, Seq<Ty>, Seq<Expr>),
    /// A buffer, an index.
    Read(Box<Expr>, Box<Expr>),
    /// A buffer, an index, a value.
    Write(Box<Expr>, Box<Expr>, Box<Expr>),
    /// A buffer, where its part begins, how long the part is.
    Slice(Box<Expr>, Box<Expr>, Box<Expr>),
    /// A table, an index.
    Tab(Name, Box<Expr>),
    /// The condition, the value where it is true, the value where it is false.
    If(Box<Expr>, Box<Expr>, Box<Expr>),
    /// A value, and the branches in order.
    Match(Box<Expr>, Seq<Arm>),
    Do(Seq<Item>, Box<Expr>),
    /// The slots, which no text writes, and what runs in the frame.
    Frame(Seq<Slot>, Box<Expr>),
    /// The type and the number of the elements of a new buffer, and their first value.
    Alloc(Ty, u32, Box<Expr>),
    /// The condition, the body.
    While(Box<Expr>, Box<Expr>),
    /// The variable, its first value, the value that it does not reach, the body.
    For(Name, Box<Expr>, Box<Expr>, Box<Expr>),
    /// A function at its type arguments, and its arguments.
    Call(Name, Seq<Ty>, Seq<Expr>),
    /// The first case all of whose tests are true. No text spells this one and the three after it.
    Cases(Seq<Case>),
    /// Whether a value is of a constructor.
    TagIs(Name, Box<Expr>),
    /// The argument of a number of a constructor, or the zero value where the value is of another one.
    Part(Name, u32, Box<Expr>),
    /// The buffer of a slot, filled with a value.
    Fill(u32, Box<Expr>),
}

/// A definition of a file.
#[derive(Drop)]
pub enum Def {
    Struct {
        name: Name,
        vars: Seq<Name>,
        fields: Seq<Field>,
    },
    Sum {
        name: Name,
        vars: Seq<Name>,
        cons: Seq<Con>,
    },
    Table {
        name: Name,
        ty: IntTy,
        nums: Seq<u64>,
    },
    Fun {
        name: Name,
        vars: Seq<Name>,
        params: Seq<Field>,
        result: Ty,
        body: Expr,
    },
    Entry {
        name: Name,
    },
}

/// A file: its definitions in order.
#[derive(Drop)]
pub struct SourceFile {
    pub defs: Seq<Def>,
}
