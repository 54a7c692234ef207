//! What a statement has besides its parts.
use isp_base::Elem;
use isp_tree::Form;
use isp_typed::TypedExpr;

/// The form of an `if`, and its test.
#[derive(Clone, Copy)]
pub struct Condition<'a> {
    pub form: Form,
    pub test: &'a TypedExpr,
}

/// A `foreach_unique` without its body: its index, the element type of that, and its value.
#[derive(Clone, Copy)]
pub struct Unique<'a> {
    pub index: usize,
    pub elem: Elem,
    pub value: &'a TypedExpr,
}
