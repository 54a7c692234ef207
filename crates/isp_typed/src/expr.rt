//! Expressions with their types. Each gives a value.
ghost use Rattle.std.specs.Prelude.{◌≡◌};

use crate::library::Library;
use crate::variable::{ArrayVariable, Logic};
use isp_base::{BinOp, Compare, Elem, Rate, Span, Ty, UnaryOp, Value};

/// An expression. `ty` is the type of its own value, `span` where it stands. Each node is one of the
/// source but `Convert`.
#[cycle(expr)]
pub enum TypedExpr {
    /// A number, `true`, `false` or `programCount`.
    Constant {
        value: Value,
        span: Span,
    },
    /// The number of the instance.
    ProgramIndex {
        span: Span,
    },
    /// The value of a variable or of an array's element.
    Place(TypedPlace),
    /// A value converted to another element type. It stands where its operand stands.
    Convert {
        elem: Elem,
        operand: Box<TypedExpr>,
    },
    /// A cast, or brackets. The operand has the element type already.
    Cast {
        operand: Box<TypedExpr>,
        ty: Ty,
        span: Span,
    },
    /// An operator on a value of the node's element type.
    Unary {
        operator: UnaryOp,
        operand: Box<TypedExpr>,
        ty: Ty,
        span: Span,
    },
    /// An operator on two values of the node's element type.
    Binary {
        operator: BinOp,
        left: Box<TypedExpr>,
        right: Box<TypedExpr>,
        ty: Ty,
        span: Span,
    },
    /// A comparison of two values of one element type, which gives a bool.
    Compare {
        comparison: Compare,
        left: Box<TypedExpr>,
        right: Box<TypedExpr>,
        rate: Rate,
        span: Span,
    },
    /// `&&` or `||` of two values of type bool. The right one is evaluated where it is needed.
    Logic {
        logic: Logic,
        left: Box<TypedExpr>,
        right: Box<TypedExpr>,
        rate: Rate,
        span: Span,
    },
    /// `test ? then : otherwise`: a bool, and two values of the node's element type, each evaluated
    /// where it is needed.
    Choose {
        test: Box<TypedExpr>,
        then: Box<TypedExpr>,
        otherwise: Box<TypedExpr>,
        ty: Ty,
        span: Span,
    },
    /// A call of a function with a result, whose type is `ty`.
    Call {
        call: TypedCall,
        ty: Ty,
    },
    /// A call of the library, which works in the element type `elem`.
    Library {
        function: Library,
        elem: Elem,
        values: Vec<TypedExpr>,
        ty: Ty,
        span: Span,
    },
    /// `packed_store_active(base, value)`, the value of the array's element type. It gives a uniform int32.
    PackedStore {
        base: TypedBase,
        value: Box<TypedExpr>,
        span: Span,
    },
    /// `packed_load_active(base, &x)`, the varying variable by its number, of the array's element type.
    /// It gives a uniform int32.
    PackedLoad {
        base: TypedBase,
        variable: usize,
        span: Span,
    },
}

/// What has a value and can be stored to.
#[cycle(expr)]
pub enum TypedPlace {
    /// A variable that holds a value, by its number.
    Variable {
        number: usize,
        ty: Ty,
        span: Span,
    },
    /// `a[e]`: the index is a whole number of any type; the place is uniform where array and index are.
    Element {
        array: ArrayVariable,
        index: Box<TypedExpr>,
        ty: Ty,
        span: Span,
    },
}

/// The array of a packed call; `span` is where its name stands.
#[cycle(expr)]
pub enum TypedBase {
    /// `a` or `&a`: from its first element on.
    Whole {
        array: ArrayVariable,
        span: Span,
    },
    /// `&a[e]`: from an index on.
    From {
        array: ArrayVariable,
        index: Box<TypedExpr>,
        span: Span,
    },
}

/// What is handed to a parameter.
#[cycle(expr)]
pub enum TypedArgument {
    /// A value of the parameter's element type.
    Value(TypedExpr),
    /// An array, by its name.
    Array { array: ArrayVariable, span: Span },
}

/// A call of a function, by the function's number, with an argument for each parameter.
#[cycle(expr)]
pub struct TypedCall {
    pub function: usize,
    pub arguments: Vec<TypedArgument>,
    pub span: Span,
}

// Each `drop` is written out: one that is derived is proved anew in every crate that drops a tree.
impl Drop for TypedExpr {
    #[cycle(expr)]
    fn drop(self) {
        match self {
            TypedExpr::Constant { value: _, span: _ } => {}
            TypedExpr::ProgramIndex { span: _ } => {}
            TypedExpr::Place(_) => {}
            TypedExpr::Convert {
                elem: _,
                operand: _,
            } => {}
            TypedExpr::Cast {
                operand: _,
                ty: _,
                span: _,
            } => {}
            TypedExpr::Unary {
                operator: _,
                operand: _,
                ty: _,
                span: _,
            } => {}
            TypedExpr::Binary {
                operator: _,
                left: _,
                right: _,
                ty: _,
                span: _,
            } => {}
            TypedExpr::Compare {
                comparison: _,
                left: _,
                right: _,
                rate: _,
                span: _,
            } => {}
            TypedExpr::Logic {
                logic: _,
                left: _,
                right: _,
                rate: _,
                span: _,
            } => {}
            TypedExpr::Choose {
                test: _,
                then: _,
                otherwise: _,
                ty: _,
                span: _,
            } => {}
            TypedExpr::Call { call: _, ty: _ } => {}
            TypedExpr::Library {
                function: _,
                elem: _,
                values: _,
                ty: _,
                span: _,
            } => {}
            TypedExpr::PackedStore {
                base: _,
                value: _,
                span: _,
            } => {}
            TypedExpr::PackedLoad {
                base: _,
                variable: _,
                span: _,
            } => {}
        }
    }
}

impl Drop for TypedPlace {
    #[cycle(expr)]
    fn drop(self) {
        match self {
            TypedPlace::Variable {
                number: _,
                ty: _,
                span: _,
            } => {}
            TypedPlace::Element {
                array: _,
                index: _,
                ty: _,
                span: _,
            } => {}
        }
    }
}

impl Drop for TypedBase {
    #[cycle(expr)]
    fn drop(self) {
        match self {
            TypedBase::Whole { array: _, span: _ } => {}
            TypedBase::From {
                array: _,
                index: _,
                span: _,
            } => {}
        }
    }
}

impl Drop for TypedArgument {
    #[cycle(expr)]
    fn drop(self) {
        match self {
            TypedArgument::Value(_) => {}
            TypedArgument::Array { array: _, span: _ } => {}
        }
    }
}

impl Drop for TypedCall {
    #[cycle(expr)]
    fn drop(self) {
        let TypedCall {
            function: _,
            arguments: _,
            span: _,
        } = self;
    }
}

impl TypedPlace {
    ghost use Rattle.isp_typed.specs.Typed.{place_type, place_span};
    ghost use Rattle.isp_typed.specs.Views.{place_of};

    /// The type of what it holds.
    pub fn ty(&self) -> Ty
        ensures { result ≡ place_type (place_of self.now) }
    {
        match self {
            TypedPlace::Variable { ty, .. } | TypedPlace::Element { ty, .. } => *ty,
        }
    }

    /// Where it stands.
    pub fn span(&self) -> Span
        ensures { result ≡ place_span (place_of self.now) }
    {
        match self {
            TypedPlace::Variable { span, .. } | TypedPlace::Element { span, .. } => *span,
        }
    }
}

impl TypedBase {
    ghost use Rattle.isp_typed.specs.Typed.{base_array};
    ghost use Rattle.isp_typed.specs.Views.{base_of};

    /// The array.
    pub fn array(&self) -> ArrayVariable
        ensures { result ≡ base_array (base_of self.now) }
    {
        match self {
            TypedBase::Whole { array, .. } | TypedBase::From { array, .. } => *array,
        }
    }
}

impl TypedExpr {
    ghost use Rattle.isp_typed.specs.Typed.{type_of, span_of};
    ghost use Rattle.isp_typed.specs.Views.{expr_of};

    /// The type of the value.
    pub fn ty(&self) -> Ty
        ensures { result ≡ type_of (expr_of self.now) }
    {
        match self {
            TypedExpr::Constant { value, .. } => Ty {
                rate: Rate::Uniform,
                elem: value.elem,
            },
            TypedExpr::ProgramIndex { .. } => Ty {
                rate: Rate::Varying,
                elem: Elem::I32,
            },
            TypedExpr::PackedStore { .. } | TypedExpr::PackedLoad { .. } => Ty {
                rate: Rate::Uniform,
                elem: Elem::I32,
            },
            TypedExpr::Compare { rate, .. } | TypedExpr::Logic { rate, .. } => Ty {
                rate: *rate,
                elem: Elem::Bool,
            },
            TypedExpr::Convert { elem, operand } => Ty {
                rate: operand.ty().rate,
                elem: *elem,
            },
            TypedExpr::Place(place) => place.ty(),
            TypedExpr::Cast { ty, .. }
            | TypedExpr::Unary { ty, .. }
            | TypedExpr::Binary { ty, .. }
            | TypedExpr::Choose { ty, .. }
            | TypedExpr::Call { ty, .. }
            | TypedExpr::Library { ty, .. } => *ty,
        }
    }

    /// Where it stands.
    pub fn span(&self) -> Span
        ensures { result ≡ span_of (expr_of self.now) }
    {
        match self {
            TypedExpr::Constant { span, .. }
            | TypedExpr::ProgramIndex { span }
            | TypedExpr::Cast { span, .. }
            | TypedExpr::Unary { span, .. }
            | TypedExpr::Binary { span, .. }
            | TypedExpr::Compare { span, .. }
            | TypedExpr::Logic { span, .. }
            | TypedExpr::Choose { span, .. }
            | TypedExpr::Library { span, .. }
            | TypedExpr::PackedStore { span, .. }
            | TypedExpr::PackedLoad { span, .. } => *span,
            TypedExpr::Place(place) => place.span(),
            TypedExpr::Convert { operand, .. } => operand.span(),
            TypedExpr::Call { call, .. } => call.span,
        }
    }
}
