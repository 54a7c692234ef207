//! Trees as one line of text each: what a test compares.
use crate::syntax::line::Line;
use isp_syntax::{
    Argument, Assignment, Base, Block, Change, Declaration, Expr, First, Form, Function, Item,
    Jump, Linkage, Operator, Param, Place, Prefix, Qualifier, Range, Simple, Size, Stmt, Tiling,
    Tree, TypeWords,
};
use std::alloc::{AllocError, Global};

fn qualifier(qualifier: Qualifier) -> &'static str {
    match qualifier {
        Qualifier::Const => "const",
        Qualifier::Uniform => "uniform",
        Qualifier::Varying => "varying",
        Qualifier::Signed => "signed",
        Qualifier::Unsigned => "unsigned",
    }
}

fn base(base: Base) -> &'static str {
    match base {
        Base::Void => "void",
        Base::Bool => "bool",
        Base::Int => "int",
        Base::Int8 => "int8",
        Base::Int16 => "int16",
        Base::Int32 => "int32",
        Base::Int64 => "int64",
        Base::Uint => "uint",
        Base::Uint8 => "uint8",
        Base::Uint16 => "uint16",
        Base::Uint32 => "uint32",
        Base::Uint64 => "uint64",
    }
}

fn prefix(prefix: Prefix) -> &'static str {
    match prefix {
        Prefix::Negative => "negative",
        Prefix::Inverse => "inverse",
        Prefix::Not => "not",
    }
}

fn operator(operator: Operator) -> &'static str {
    match operator {
        Operator::Multiply => "times",
        Operator::Divide => "over",
        Operator::Remainder => "modulo",
        Operator::Add => "plus",
        Operator::Subtract => "minus",
        Operator::ShiftLeft => "left",
        Operator::ShiftRight => "right",
        Operator::Less => "less",
        Operator::LessEqual => "at_most",
        Operator::Greater => "greater",
        Operator::GreaterEqual => "at_least",
        Operator::Equal => "equal",
        Operator::NotEqual => "unequal",
        Operator::And => "and",
        Operator::Xor => "xor",
        Operator::Or => "or",
        Operator::AndAlso => "and_also",
        Operator::OrElse => "or_else",
    }
}

fn assignment(assignment: Assignment) -> &'static str {
    match assignment {
        Assignment::Replace => "set",
        Assignment::Add => "set_plus",
        Assignment::Subtract => "set_minus",
        Assignment::Multiply => "set_times",
        Assignment::Divide => "set_over",
        Assignment::Remainder => "set_modulo",
        Assignment::And => "set_and",
        Assignment::Or => "set_or",
        Assignment::Xor => "set_xor",
        Assignment::ShiftLeft => "set_left",
        Assignment::ShiftRight => "set_right",
    }
}

fn linkage(linkage: Linkage) -> &'static str {
    match linkage {
        Linkage::Export => "export",
        Linkage::Static => "static",
        Linkage::Inline => "inline",
    }
}

/// The bracket of a node and its name by the form: the c-form has a c before it.
fn formed(out: &mut Line, form: Form, name: &str) {
    match form {
        Form::Plain => out.open(""),
        Form::Coherent => out.open("c"),
    }
    out.add(name);
}

fn type_words(out: &mut Line, ty: &TypeWords) {
    out.open("type");
    for each in &ty.qualifiers {
        out.word(qualifier(*each));
    }
    if let Some(named) = ty.base {
        out.word(base(named));
    }
    out.close();
}

#[cycle(expr)]
fn place(out: &mut Line, place: &Place) {
    match place {
        Place::Variable(name) => out.word(name.name.as_str()),
        Place::Element { array, index, .. } => {
            out.open("element");
            out.word(array.name.as_str());
            expr(out, index);
            out.close();
        }
    }
}

#[cycle(expr)]
fn argument(out: &mut Line, argument: &Argument) {
    match argument {
        Argument::Value(value) => expr(out, value),
        Argument::Reference { place: inside, .. } => {
            out.open("reference");
            place(out, inside);
            out.close();
        }
    }
}

#[cycle(expr)]
fn expr(out: &mut Line, x: &Expr) {
    match x {
        Expr::Number { value, .. } => out.number(value.bits),
        Expr::Truth { value, .. } => out.word(if *value { "true" } else { "false" }),
        Expr::ProgramIndex { .. } => out.word("programIndex"),
        Expr::ProgramCount { .. } => out.word("programCount"),
        Expr::Place(inside) => place(out, inside),
        Expr::Call {
            function,
            arguments,
            ..
        } => {
            out.open("call");
            out.word(function.name.as_str());
            for each in arguments {
                argument(out, each);
            }
            out.close();
        }
        Expr::Brackets { inner, .. } => {
            out.open("brackets");
            expr(out, inner);
            out.close();
        }
        Expr::Cast { ty, operand, .. } => {
            out.open("cast");
            type_words(out, ty);
            expr(out, operand);
            out.close();
        }
        Expr::Prefix {
            operator: sign,
            operand,
            ..
        } => {
            out.open(prefix(*sign));
            expr(out, operand);
            out.close();
        }
        Expr::Binary {
            operator: sign,
            left,
            right,
            ..
        } => {
            out.open(operator(*sign));
            expr(out, left);
            expr(out, right);
            out.close();
        }
        Expr::Choose {
            test,
            then,
            otherwise,
            ..
        } => {
            out.open("choose");
            expr(out, test);
            expr(out, then);
            expr(out, otherwise);
            out.close();
        }
    }
}

fn item(out: &mut Line, item: &Item) {
    match item {
        Item::Plain(name) => out.word(name.name.as_str()),
        Item::Value {
            word: name,
            value,
            ..
        } => {
            out.open("is");
            out.word(name.name.as_str());
            expr(out, value);
            out.close();
        }
        Item::Array {
            word: name,
            size,
            ..
        } => {
            out.open("array");
            out.word(name.name.as_str());
            match size {
                Size::Number { value, .. } => out.number(value.bits),
                Size::ProgramCount { .. } => out.word("programCount"),
            }
            out.close();
        }
    }
}

fn declaration(out: &mut Line, declaration: &Declaration) {
    out.open("declare");
    type_words(out, &declaration.ty);
    for each in &declaration.items {
        item(out, each);
    }
    out.close();
}

fn simple(out: &mut Line, simple: &Simple) {
    match simple {
        Simple::Value(value) => expr(out, value),
        Simple::Assign {
            assignment: sign,
            target,
            value,
            ..
        } => {
            out.open(assignment(*sign));
            expr(out, target);
            expr(out, value);
            out.close();
        }
        Simple::Change { change, target, .. } => {
            match change {
                Change::Increment => out.open("increment"),
                Change::Decrement => out.open("decrement"),
            }
            expr(out, target);
            out.close();
        }
    }
}

fn nothing(out: &mut Line) {
    out.word("nothing")
}

fn maybe_expr(out: &mut Line, x: &Option<Expr>) {
    match x {
        Some(x) => expr(out, x),
        None => nothing(out),
    }
}

fn first(out: &mut Line, first: &Option<First>) {
    match first {
        Some(First::Declare(declared)) => declaration(out, declared),
        Some(First::Simple(part)) => simple(out, part),
        None => nothing(out),
    }
}

fn step(out: &mut Line, step: &Option<Simple>) {
    match step {
        Some(part) => simple(out, part),
        None => nothing(out),
    }
}

fn range(out: &mut Line, range: &Range) {
    out.open("range");
    out.word(range.word.name.as_str());
    expr(out, &range.start);
    expr(out, &range.end);
    out.close();
}

/// The statements that have others in them.
#[cycle(stmt)]
fn outer(out: &mut Line, s: &Stmt) {
    match s {
        Stmt::Block(inside) => return block(out, inside),
        Stmt::If {
            form,
            test,
            then,
            ..
        } => {
            formed(out, *form, "if");
            expr(out, test);
            stmt(out, then);
        }
        Stmt::IfElse {
            form,
            test,
            then,
            otherwise,
            ..
        } => {
            formed(out, *form, "if_else");
            expr(out, test);
            stmt(out, then);
            stmt(out, otherwise);
        }
        Stmt::While {
            form,
            test,
            body,
            ..
        } => {
            formed(out, *form, "while");
            expr(out, test);
            stmt(out, body);
        }
        Stmt::Do {
            form,
            body,
            test,
            ..
        } => {
            formed(out, *form, "do");
            stmt(out, body);
            expr(out, test);
        }
        Stmt::For {
            form,
            first: begin,
            test,
            step: next,
            body,
            ..
        } => {
            formed(out, *form, "for");
            first(out, begin);
            maybe_expr(out, test);
            step(out, next);
            stmt(out, body);
        }
        Stmt::Foreach {
            tiling,
            ranges,
            body,
            ..
        } => {
            match tiling {
                Tiling::Plain => out.open("foreach"),
                Tiling::Tiled => out.open("foreach_tiled"),
            }
            for each in ranges {
                range(out, each);
            }
            stmt(out, body);
        }
        Stmt::ForeachActive {
            word: name,
            body,
            ..
        } => {
            out.open("foreach_active");
            out.word(name.name.as_str());
            stmt(out, body);
        }
        Stmt::ForeachUnique {
            word: name,
            value,
            body,
            ..
        } => {
            out.open("foreach_unique");
            out.word(name.name.as_str());
            expr(out, value);
            stmt(out, body);
        }
        Stmt::Unmasked { body, .. } => {
            out.open("unmasked");
            block(out, body);
        }
        _ => return,
    }
    out.close();
}

/// The statements that have none in them.
fn leaf(out: &mut Line, s: &Stmt) {
    match s {
        Stmt::Empty { .. } => out.word("empty"),
        Stmt::Declare {
            declaration: declared,
            ..
        } => declaration(out, declared),
        Stmt::Simple { simple: part, .. } => simple(out, part),
        Stmt::Jump {
            jump: Jump::Break,
            ..
        } => out.word("break"),
        Stmt::Jump {
            jump: Jump::Continue,
            ..
        } => out.word("continue"),
        Stmt::Return { value, .. } => {
            out.open("return");
            maybe_expr(out, value);
            out.close();
        }
        Stmt::Print {
            keyword,
            text_span,
            values,
            span,
            ..
        } => {
            out.open("print");
            out.place(*keyword);
            out.place(*text_span);
            out.place(*span);
            for each in values {
                expr(out, each);
            }
            out.close();
        }
        Stmt::Assert {
            test,
            call_span,
            span,
        } => {
            out.open("assert");
            expr(out, test);
            out.place(*call_span);
            out.place(*span);
            out.close();
        }
        _ => {},
    }
}

#[cycle(stmt)]
fn stmt(out: &mut Line, s: &Stmt) {
    leaf(out, s);
    outer(out, s)
}

#[cycle(stmt)]
fn block(out: &mut Line, block: &Block) {
    out.open("block");
    statements(out, &block.statements);
    out.close();
}

#[cycle(stmt)]
fn statements(out: &mut Line, statements: &[Stmt]) {
    for each in statements {
        stmt(out, each);
    }
}

fn param(out: &mut Line, param: &Param) {
    out.open(if param.is_array { "array" } else { "value" });
    type_words(out, &param.ty);
    out.word(param.word.name.as_str());
    out.close();
}

/// The spans are the function's and its body's.
fn function(out: &mut Line, function: &Function) {
    out.open("function");
    out.place(function.span);
    for each in &function.linkages {
        out.word(linkage(*each));
    }
    type_words(out, &function.result);
    out.word(function.word.name.as_str());
    for each in &function.params {
        param(out, each);
    }
    out.place(function.body.span);
    block(out, &function.body);
    out.close();
}

/// A whole tree.
pub fn shape(alloc: Global, tree: &Tree) -> Result<String, AllocError> {
    let mut out = Line::new(alloc);
    for each in tree.functions() {
        function(&mut out, each);
    }
    out.finish()
}

/// The statements of a tree's functions alone.
pub fn shape_of_statements(alloc: Global, tree: &Tree) -> Result<String, AllocError> {
    let mut out = Line::new(alloc);
    for each in tree.functions() {
        statements(&mut out, &each.body.statements);
    }
    out.finish()
}
