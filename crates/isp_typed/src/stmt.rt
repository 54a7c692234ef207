//! Statements over numbered variables.

use crate::expr::{TypedCall, TypedExpr, TypedPlace};
use crate::variable::ArrayVariable;
use isp_base::{BinOp, Elem, Span, Ty};
use isp_lex::Text;
use isp_tree::{Form, Jump};

/// A declared variable, by its number.
#[derive(Drop)]
pub enum TypedItem {
    /// Without an initial value it is 0.
    Plain {
        number: usize,
        ty: Ty,
        span: Span,
    },
    /// The initial value has the variable's element type.
    Value {
        number: usize,
        ty: Ty,
        value: TypedExpr,
        span: Span,
    },
    /// Its elements are 0.
    Array {
        array: ArrayVariable,
        span: Span,
    },
}

/// What stands as a statement of its own before a semicolon, and as the step of a `for`; without the
/// semicolon.
#[derive(Drop)]
pub enum TypedSimple {
    /// An expression, whose value is not used.
    Value(TypedExpr),
    /// A call of a function without a result.
    Call(TypedCall),
    /// `target = value`, the value of the target's element type.
    Assign {
        target: TypedPlace,
        value: TypedExpr,
        span: Span,
    },
    /// `target op= value`. The operator works in the element type `elem`, which the value has; the target's
    /// old value is converted to it, and the result to the target's.
    Update {
        operator: BinOp,
        elem: Elem,
        target: TypedPlace,
        value: TypedExpr,
        span: Span,
    },
    /// `++` and `--`: likewise, with the number 1 in the place of the value.
    Step {
        operator: BinOp,
        elem: Elem,
        target: TypedPlace,
        span: Span,
    },
}

/// The first part of a `for`.
#[derive(Drop)]
pub enum TypedFirst {
    Declare { items: Vec<TypedItem>, span: Span },
    Simple(TypedSimple),
}

/// One dimension of a `foreach`: its index, a constant varying int32, by its number, and where it starts
/// and ends, each an int32.
#[derive(Drop)]
pub struct TypedRange {
    pub index: usize,
    pub start: TypedExpr,
    pub end: TypedExpr,
    pub span: Span,
}

/// A statement. `keyword` is the place of its first word. `before` is how many variables of the function
/// are declared before it: a variable is declared outside it where its number is less.
#[cycle(stmt)]
pub enum TypedStmt {
    /// `{ .. }`, and `;`, which is one without statements.
    Block(TypedBlock),
    Declare {
        items: Vec<TypedItem>,
        span: Span,
    },
    Simple {
        simple: TypedSimple,
        span: Span,
    },
    /// An `if` without `else`. The test is a bool, as in each statement below.
    If {
        form: Form,
        before: usize,
        test: TypedExpr,
        then: Box<TypedStmt>,
        span: Span,
    },
    IfElse {
        form: Form,
        before: usize,
        test: TypedExpr,
        then: Box<TypedStmt>,
        otherwise: Box<TypedStmt>,
        span: Span,
    },
    While {
        form: Form,
        before: usize,
        test: TypedExpr,
        body: Box<TypedStmt>,
        span: Span,
    },
    Do {
        form: Form,
        before: usize,
        body: Box<TypedStmt>,
        test: TypedExpr,
        span: Span,
    },
    /// `inside` is how many variables are declared before its body, those of its first part included.
    For {
        form: Form,
        before: usize,
        first: Option<TypedFirst>,
        test: Option<TypedExpr>,
        step: Option<TypedSimple>,
        inside: usize,
        body: Box<TypedStmt>,
        span: Span,
    },
    /// A `foreach` or a `foreach_tiled`, with one to three ranges.
    Foreach {
        keyword: Span,
        before: usize,
        ranges: Vec<TypedRange>,
        body: Box<TypedStmt>,
        span: Span,
    },
    /// The index, by its number, is a constant uniform int64.
    ForeachActive {
        keyword: Span,
        before: usize,
        index: usize,
        body: Box<TypedStmt>,
        span: Span,
    },
    /// The body runs for each distinct value. The value is of the type in which operators work on `elem`;
    /// the index, by its number, is a constant uniform of `elem`.
    ForeachUnique {
        keyword: Span,
        before: usize,
        index: usize,
        elem: Elem,
        value: TypedExpr,
        body: Box<TypedStmt>,
        span: Span,
    },
    Unmasked {
        keyword: Span,
        body: TypedBlock,
        span: Span,
    },
    Jump {
        jump: Jump,
        keyword: Span,
        span: Span,
    },
    /// The value has the element type of the function's result.
    Return {
        keyword: Span,
        value: Option<TypedExpr>,
        span: Span,
    },
    /// Each `%` of the text stands for the next value.
    Print {
        keyword: Span,
        text: Text,
        values: Vec<TypedExpr>,
        span: Span,
    },
    /// `call_span` is the place from the word to the closing bracket, which a trap names.
    Assert {
        test: TypedExpr,
        call_span: Span,
        span: Span,
    },
}

/// `{ .. }`
#[cycle(stmt)]
pub struct TypedBlock {
    pub statements: Vec<TypedStmt>,
    pub span: Span,
}

// Each `drop` is written out: one that is derived is proved anew in every crate that drops a tree.
impl Drop for TypedStmt {
    #[cycle(stmt)]
    fn drop(self) {
        match self {
            TypedStmt::Block(_) => {}
            TypedStmt::Declare { items: _, span: _ } => {}
            TypedStmt::Simple { simple: _, span: _ } => {}
            TypedStmt::If {
                form: _,
                before: _,
                test: _,
                then: _,
                span: _,
            } => {}
            TypedStmt::IfElse {
                form: _,
                before: _,
                test: _,
                then: _,
                otherwise: _,
                span: _,
            } => {}
            TypedStmt::While {
                form: _,
                before: _,
                test: _,
                body: _,
                span: _,
            } => {}
            TypedStmt::Do {
                form: _,
                before: _,
                body: _,
                test: _,
                span: _,
            } => {}
            TypedStmt::For {
                form: _,
                before: _,
                first: _,
                test: _,
                step: _,
                inside: _,
                body: _,
                span: _,
            } => {}
            TypedStmt::Foreach {
                keyword: _,
                before: _,
                ranges: _,
                body: _,
                span: _,
            } => {}
            TypedStmt::ForeachActive {
                keyword: _,
                before: _,
                index: _,
                body: _,
                span: _,
            } => {}
            TypedStmt::ForeachUnique {
                keyword: _,
                before: _,
                index: _,
                elem: _,
                value: _,
                body: _,
                span: _,
            } => {}
            TypedStmt::Unmasked {
                keyword: _,
                body: _,
                span: _,
            } => {}
            TypedStmt::Jump {
                jump: _,
                keyword: _,
                span: _,
            } => {}
            TypedStmt::Return {
                keyword: _,
                value: _,
                span: _,
            } => {}
            TypedStmt::Print {
                keyword: _,
                text: _,
                values: _,
                span: _,
            } => {}
            TypedStmt::Assert {
                test: _,
                call_span: _,
                span: _,
            } => {}
        }
    }
}

impl Drop for TypedBlock {
    #[cycle(stmt)]
    fn drop(self) {
        let TypedBlock {
            statements: _,
            span: _,
        } = self;
    }
}
