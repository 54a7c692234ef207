//! Expressions. Each has the span from its first byte to its last.
ghost use Rattle.std.specs.Prelude.{◌≡◌};

use crate::types::{TypeWords, Word};
use isp_base::{Span, Value};

/// An operator before its operand.
#[derive(Clone, Copy)]
pub enum Prefix {
    /// `-`
    Negative,
    /// `~`
    Inverse,
    /// `!`
    Not,
}

/// An operator between two operands.
#[derive(Clone, Copy)]
pub enum Operator {
    Multiply,
    Divide,
    Remainder,
    Add,
    Subtract,
    ShiftLeft,
    ShiftRight,
    Less,
    LessEqual,
    Greater,
    GreaterEqual,
    Equal,
    NotEqual,
    And,
    Xor,
    Or,
    AndAlso,
    OrElse,
}

/// An expression.
#[cycle(expr)]
pub enum Expr {
    /// A number with its type.
    Number {
        value: Value,
        span: Span,
    },
    /// `true` or `false`.
    Truth {
        value: bool,
        span: Span,
    },
    /// `programIndex`.
    ProgramIndex {
        span: Span,
    },
    /// `programCount`.
    ProgramCount {
        span: Span,
    },
    /// The value of a variable or of an array's element.
    Place(Place),
    /// `f(e, ..)`.
    Call {
        function: Word,
        arguments: Vec<Argument>,
        span: Span,
    },
    /// `(e)`, a node of its own: it holds a value and is no place.
    Brackets {
        inner: Box<Expr>,
        span: Span,
    },
    /// `(type) e`.
    Cast {
        ty: TypeWords,
        operand: Box<Expr>,
        span: Span,
    },
    /// An operator and its operand.
    Prefix {
        operator: Prefix,
        operand: Box<Expr>,
        span: Span,
    },
    /// Two operands.
    Binary {
        operator: Operator,
        left: Box<Expr>,
        right: Box<Expr>,
        span: Span,
    },
    /// `test ? then : otherwise`.
    Choose {
        test: Box<Expr>,
        then: Box<Expr>,
        otherwise: Box<Expr>,
        span: Span,
    },
}

/// What can be stored to.
#[cycle(expr)]
pub enum Place {
    /// `x`, which may also be an array's name.
    Variable(Word),
    /// `a[e]`.
    Element {
        array: Word,
        index: Box<Expr>,
        span: Span,
    },
}

/// An argument of a call.
#[cycle(expr)]
pub enum Argument {
    Value(Expr),
    /// `&x` or `&a[e]`.
    Reference { place: Place, span: Span },
}

// Each `drop` is written out: one that is derived is proved anew in every crate that drops a tree.
impl Drop for Expr {
    #[cycle(expr)]
    fn drop(self) {
        match self {
            Expr::Number { value: _, span: _ } => {}
            Expr::Truth { value: _, span: _ } => {}
            Expr::ProgramIndex { span: _ } => {}
            Expr::ProgramCount { span: _ } => {}
            Expr::Place(_) => {}
            Expr::Call {
                function: _,
                arguments: _,
                span: _,
            } => {}
            Expr::Brackets { inner: _, span: _ } => {}
            Expr::Cast {
                ty: _,
                operand: _,
                span: _,
            } => {}
            Expr::Prefix {
                operator: _,
                operand: _,
                span: _,
            } => {}
            Expr::Binary {
                operator: _,
                left: _,
                right: _,
                span: _,
            } => {}
            Expr::Choose {
                test: _,
                then: _,
                otherwise: _,
                span: _,
            } => {}
        }
    }
}

impl Drop for Place {
    #[cycle(expr)]
    fn drop(self) {
        match self {
            Place::Variable(_) => {}
            Place::Element {
                array: _,
                index: _,
                span: _,
            } => {}
        }
    }
}

impl Drop for Argument {
    #[cycle(expr)]
    fn drop(self) {
        match self {
            Argument::Value(_) => {}
            Argument::Reference { place: _, span: _ } => {}
        }
    }
}

impl Place {
    ghost use Rattle.isp_tree.specs.Tree.{span_of_place};
    ghost use Rattle.isp_tree.specs.Views.{place_of};

    /// From the first byte to the last.
    pub fn span(&self) -> Span
        ensures { result ≡ span_of_place (place_of self.now) }
    {
        match self {
            Place::Variable(word) => word.span,
            Place::Element { span, .. } => *span,
        }
    }
}

impl Expr {
    ghost use Rattle.isp_tree.specs.Tree.{span_of};
    ghost use Rattle.isp_tree.specs.Views.{expr_of};

    /// From the first byte to the last.
    pub fn span(&self) -> Span
        ensures { result ≡ span_of (expr_of self.now) }
    {
        match self {
            Expr::Number { span, .. }
            | Expr::Truth { span, .. }
            | Expr::ProgramIndex { span }
            | Expr::ProgramCount { span }
            | Expr::Call { span, .. }
            | Expr::Brackets { span, .. }
            | Expr::Cast { span, .. }
            | Expr::Prefix { span, .. }
            | Expr::Binary { span, .. }
            | Expr::Choose { span, .. } => *span,
            Expr::Place(place) => place.span(),
        }
    }
}

impl Argument {
    ghost use Rattle.isp_tree.specs.Tree.{span_of_argument};
    ghost use Rattle.isp_tree.specs.Views.{argument_of};

    /// From the first byte to the last, the sign included.
    pub fn span(&self) -> Span
        ensures { result ≡ span_of_argument (argument_of self.now) }
    {
        match self {
            Argument::Value(value) => value.span(),
            Argument::Reference { span, .. } => *span,
        }
    }
}
