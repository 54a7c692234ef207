//! Declarations and statements. Each has the span from its first byte to its last, its semicolon
//! included.
ghost use Rattle.std.specs.Prelude.{◌≡◌};

use crate::expr::Expr;
use crate::types::{TypeWords, Word};
use isp_base::{Span, Value};
use isp_lex::Text;

/// How many elements a local array has, as it is written between its brackets.
#[derive(Clone, Copy)]
pub enum Size {
    Number { value: Value, span: Span },
    /// `programCount`.
    ProgramCount { span: Span },
}

/// A declared variable.
#[derive(Drop)]
pub enum Item {
    /// `x`
    Plain(Word),
    /// `x = e`
    Value { word: Word, value: Expr, span: Span },
    /// `a[size]`
    Array { word: Word, size: Size, span: Span },
}

/// A type and the variables declared with it, one at least, without a semicolon.
#[derive(Drop)]
pub struct Declaration {
    pub ty: TypeWords,
    pub items: Vec<Item>,
    pub span: Span,
}

/// How an assignment combines the target's old value with the value.
#[derive(Clone, Copy)]
pub enum Assignment {
    /// `=`
    Replace,
    /// `+=`
    Add,
    Subtract,
    Multiply,
    Divide,
    Remainder,
    And,
    Or,
    Xor,
    ShiftLeft,
    ShiftRight,
}

/// A step by one.
#[derive(Clone, Copy)]
pub enum Change {
    /// `++`
    Increment,
    /// `--`
    Decrement,
}

/// What may stand as a statement of its own before a semicolon, and as the step of a `for`; without
/// the semicolon.
#[derive(Drop)]
pub enum Simple {
    /// An expression, whose value is not used.
    Value(Expr),
    /// `target = value`, `target += value`, ..
    Assign {
        assignment: Assignment,
        target: Expr,
        value: Expr,
        span: Span,
    },
    /// `x++`, `x--`, `++x` or `--x`.
    Change {
        change: Change,
        target: Expr,
        span: Span,
    },
}

/// The first part of a `for`.
#[derive(Drop)]
pub enum First {
    Declare(Declaration),
    Simple(Simple),
}

/// One dimension of a `foreach`: the index, where it starts, and where it ends.
#[derive(Drop)]
pub struct Range {
    pub word: Word,
    pub start: Expr,
    pub end: Expr,
    pub span: Span,
}

/// Whether a statement is written in its c-form, which says that the instances mostly agree on the test.
#[derive(Clone, Copy)]
pub enum Form {
    Plain,
    Coherent,
}

/// Whether `foreach` or `foreach_tiled` is written. Both mean the same.
#[derive(Clone, Copy)]
pub enum Tiling {
    Plain,
    Tiled,
}

/// `break` or `continue`.
#[derive(Clone, Copy)]
pub enum Jump {
    Break,
    Continue,
}

/// A statement. `keyword` is the place of its first word alone.
#[cycle(stmt)]
pub enum Stmt {
    Block(Block),
    /// `;`
    Empty {
        span: Span,
    },
    Declare {
        declaration: Declaration,
        span: Span,
    },
    Simple {
        simple: Simple,
        span: Span,
    },
    /// An `if` without `else`.
    If {
        form: Form,
        test: Expr,
        then: Box<Stmt>,
        span: Span,
    },
    IfElse {
        form: Form,
        test: Expr,
        then: Box<Stmt>,
        otherwise: Box<Stmt>,
        span: Span,
    },
    While {
        form: Form,
        test: Expr,
        body: Box<Stmt>,
        span: Span,
    },
    /// `do body while (test);`
    Do {
        form: Form,
        body: Box<Stmt>,
        test: Expr,
        span: Span,
    },
    For {
        form: Form,
        first: Option<First>,
        test: Option<Expr>,
        step: Option<Simple>,
        body: Box<Stmt>,
        span: Span,
    },
    /// One to three ranges.
    Foreach {
        tiling: Tiling,
        keyword: Span,
        ranges: Vec<Range>,
        body: Box<Stmt>,
        span: Span,
    },
    ForeachActive {
        keyword: Span,
        word: Word,
        body: Box<Stmt>,
        span: Span,
    },
    /// `foreach_unique (word in value) body`
    ForeachUnique {
        keyword: Span,
        word: Word,
        value: Expr,
        body: Box<Stmt>,
        span: Span,
    },
    Unmasked {
        keyword: Span,
        body: Block,
        span: Span,
    },
    Jump {
        jump: Jump,
        keyword: Span,
        span: Span,
    },
    Return {
        keyword: Span,
        value: Option<Expr>,
        span: Span,
    },
    /// The text, where it stands, and the values for its places.
    Print {
        keyword: Span,
        text: Text,
        text_span: Span,
        values: Vec<Expr>,
        span: Span,
    },
    /// `call_span` is the place from the word to the closing bracket, which a trap names.
    Assert {
        test: Expr,
        call_span: Span,
        span: Span,
    },
}

/// `{ .. }`
#[cycle(stmt)]
pub struct Block {
    pub statements: Vec<Stmt>,
    pub span: Span,
}

// Each `drop` is written out: one that is derived is proved anew in every crate that drops a tree.
impl Drop for Stmt {
    #[cycle(stmt)]
    fn drop(self) {
        match self {
            Stmt::Block(_) => {}
            Stmt::Empty { span: _ } => {}
            Stmt::Declare {
                declaration: _,
                span: _,
            } => {}
            Stmt::Simple { simple: _, span: _ } => {}
            Stmt::If {
                form: _,
                test: _,
                then: _,
                span: _,
            } => {}
            Stmt::IfElse {
                form: _,
                test: _,
                then: _,
                otherwise: _,
                span: _,
            } => {}
            Stmt::While {
                form: _,
                test: _,
                body: _,
                span: _,
            } => {}
            Stmt::Do {
                form: _,
                body: _,
                test: _,
                span: _,
            } => {}
            Stmt::For {
                form: _,
                first: _,
                test: _,
                step: _,
                body: _,
                span: _,
            } => {}
            Stmt::Foreach {
                tiling: _,
                keyword: _,
                ranges: _,
                body: _,
                span: _,
            } => {}
            Stmt::ForeachActive {
                keyword: _,
                word: _,
                body: _,
                span: _,
            } => {}
            Stmt::ForeachUnique {
                keyword: _,
                word: _,
                value: _,
                body: _,
                span: _,
            } => {}
            Stmt::Unmasked {
                keyword: _,
                body: _,
                span: _,
            } => {}
            Stmt::Jump {
                jump: _,
                keyword: _,
                span: _,
            } => {}
            Stmt::Return {
                keyword: _,
                value: _,
                span: _,
            } => {}
            Stmt::Print {
                keyword: _,
                text: _,
                text_span: _,
                values: _,
                span: _,
            } => {}
            Stmt::Assert {
                test: _,
                call_span: _,
                span: _,
            } => {}
        }
    }
}

impl Drop for Block {
    #[cycle(stmt)]
    fn drop(self) {
        let Block {
            statements: _,
            span: _,
        } = self;
    }
}

impl Size {
    ghost use Rattle.isp_tree.specs.Tree.{span_of_size};

    /// From the first byte to the last.
    pub fn span(self) -> Span
        ensures { result ≡ span_of_size self }
    {
        match self {
            Size::Number { span, .. } | Size::ProgramCount { span } => span,
        }
    }
}

impl Item {
    ghost use Rattle.isp_tree.specs.Tree.{span_of_item};
    ghost use Rattle.isp_tree.specs.Views.{item_of};

    /// From the first byte to the last.
    pub fn span(&self) -> Span
        ensures { result ≡ span_of_item (item_of self.now) }
    {
        match self {
            Item::Plain(word) => word.span,
            Item::Value { span, .. } | Item::Array { span, .. } => *span,
        }
    }
}

impl Simple {
    ghost use Rattle.isp_tree.specs.Tree.{span_of_simple};
    ghost use Rattle.isp_tree.specs.Views.{simple_of};

    /// From the first byte to the last.
    pub fn span(&self) -> Span
        ensures { result ≡ span_of_simple (simple_of self.now) }
    {
        match self {
            Simple::Value(value) => value.span(),
            Simple::Assign { span, .. } | Simple::Change { span, .. } => *span,
        }
    }
}

impl Stmt {
    ghost use Rattle.isp_tree.specs.Tree.{span_of_stmt};
    ghost use Rattle.isp_tree.specs.Views.{stmt_of};

    /// From the first byte to the last.
    pub fn span(&self) -> Span
        ensures { result ≡ span_of_stmt (stmt_of self.now) }
    {
        match self {
            Stmt::Block(block) => block.span,
            Stmt::Empty { span }
            | Stmt::Declare { span, .. }
            | Stmt::Simple { span, .. }
            | Stmt::If { span, .. }
            | Stmt::IfElse { span, .. }
            | Stmt::While { span, .. }
            | Stmt::Do { span, .. }
            | Stmt::For { span, .. }
            | Stmt::Foreach { span, .. }
            | Stmt::ForeachActive { span, .. }
            | Stmt::ForeachUnique { span, .. }
            | Stmt::Unmasked { span, .. }
            | Stmt::Jump { span, .. }
            | Stmt::Return { span, .. }
            | Stmt::Print { span, .. }
            | Stmt::Assert { span, .. } => *span,
        }
    }
}
