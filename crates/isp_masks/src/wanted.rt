//! Which constants a function keeps: of each rate the first eight that its loops take as operands.
//!
//! It is no matter of what the code does: any constants may be kept.
ghost use Rattle.std.specs.Prelude.{◌≡◌, ◌+◌, ◌*◌, ◌≤◌, IfOk};
ghost use Rattle.isp_masks_code.specs.Keeping.{keep_steps};

use isp_base::{Rate, Ty, Value};
use isp_lower::known;
use isp_lower_code::Constant;
use isp_typed::{
    TypedArgument, TypedBase, TypedBlock, TypedCall, TypedExpr, TypedFirst, TypedItem, TypedPlace,
    TypedSimple, TypedStmt,
};
use std::alloc::{AllocError, Global};

/// How many are kept of each rate.
const MOST: u64 = 8;

/// The constants that are found so far, and how many of each rate.
#[derive(Drop)]
struct Found {
    all: Vec<Constant>,
    scalars: u64,
    vectors: u64,
    ghost counted: { keep_steps all.items ≡ scalars + 2 * vectors },
    ghost few: { scalars ≤ 8 },
    ghost few_vectors: { vectors ≤ 8 },
}

/// The constants that a body keeps.
pub(crate) fn constants(alloc: Global, body: &TypedBlock) -> Result<Vec<Constant>, AllocError>
    ensures { IfOk result (λ v. keep_steps v.items ≤ 24) }
{
    let mut found = Found {
        all: Vec::new(alloc),
        scalars: 0,
        vectors: 0,
    };
    found.block(body, false)?;
    Ok(found.all)
}

/// Whether a constant is among some.
fn has(all: &[Constant], x: Constant) -> bool {
    all.iter().any(|it| it.rate == x.rate && it.elem == x.elem && it.bits == x.bits)
}

impl Found {
    /// A constant that is taken at a rate.
    fn note(&mut self, rate: Rate, value: Value) -> Result<(), AllocError> {
        let x = Constant {
            rate,
            elem: value.elem,
            bits: value.bits,
        };
        if has(self.all.as_slice(), x) {
            return Ok(());
        }
        self.add(x)
    }

    /// One more, if there are not so many of its rate.
    fn add(&mut self, x: Constant) -> Result<(), AllocError> {
        match x.rate {
            Rate::Uniform if self.scalars < MOST => {
                self.all.push(x)?;
                self.scalars += 1;
            }
            Rate::Varying if self.vectors < MOST => {
                self.all.push(x)?;
                self.vectors += 1;
            }
            _ => {}
        }
        Ok(())
    }

    /// The number of a loop's step, or the 0 with which a variable begins.
    fn number(&mut self, ty: Ty, bits: u64) -> Result<(), AllocError> {
        self.note(
            ty.rate,
            Value {
                elem: ty.elem,
                bits,
            },
        )
    }

    /// An operand that is taken at a rate, if it is a constant.
    fn operand(&mut self, rate: Rate, x: &TypedExpr) -> Result<(), AllocError> {
        match known(x) {
            Some(value) => self.note(rate, value),
            None => Ok(()),
        }
    }

    fn two(&mut self, rate: Rate, left: &TypedExpr, right: &TypedExpr) -> Result<(), AllocError> {
        self.operand(rate, left)?;
        self.operand(rate, right)
    }

    fn each(&mut self, rate: Rate, all: &[TypedExpr]) -> Result<(), AllocError> {
        for x in all {
            self.operand(rate, x)?;
        }
        Ok(())
    }

    /// What a node takes.
    fn taken(&mut self, x: &TypedExpr) -> Result<(), AllocError> {
        match x {
            TypedExpr::Cast { operand, ty, .. } | TypedExpr::Unary { operand, ty, .. } => {
                self.operand(ty.rate, operand)
            }
            TypedExpr::Binary {
                left,
                right,
                ty,
                ..
            } => self.two(ty.rate, left, right),
            TypedExpr::Compare {
                left,
                right,
                rate,
                ..
            }
            | TypedExpr::Logic {
                left,
                right,
                rate,
                ..
            } => self.two(*rate, left, right),
            TypedExpr::Choose {
                then,
                otherwise,
                ty,
                ..
            } => self.two(ty.rate, then, otherwise),
            TypedExpr::Library { values, ty, .. } => self.each(ty.rate, values),
            TypedExpr::PackedStore { value, .. } => self.operand(Rate::Varying, value),
            _ => Ok(()),
        }
    }

    /// What an expression takes, and its parts.
    #[cycle(expr)]
    fn expr(&mut self, x: &TypedExpr) -> Result<(), AllocError> {
        self.taken(x)?;
        match x {
            TypedExpr::Constant { .. } | TypedExpr::ProgramIndex { .. } => Ok(()),
            TypedExpr::Place(place) => self.place(place),
            TypedExpr::Convert { operand, .. }
            | TypedExpr::Cast { operand, .. }
            | TypedExpr::Unary { operand, .. } => self.expr(operand),
            TypedExpr::Binary { left, right, .. }
            | TypedExpr::Compare { left, right, .. }
            | TypedExpr::Logic { left, right, .. } => {
                self.expr(left)?;
                self.expr(right)
            }
            TypedExpr::Choose {
                test,
                then,
                otherwise,
                ..
            } => {
                self.expr(test)?;
                self.expr(then)?;
                self.expr(otherwise)
            }
            TypedExpr::Call { call, .. } => self.call(call),
            TypedExpr::Library { values, .. } => self.values(values),
            TypedExpr::PackedStore { base, value, .. } => {
                self.base(base)?;
                self.expr(value)
            }
            TypedExpr::PackedLoad { base, .. } => self.base(base),
        }
    }

    /// The values of a call of the library.
    #[cycle(expr)]
    fn values(&mut self, all: &[TypedExpr]) -> Result<(), AllocError> {
        for x in all {
            self.expr(x)?;
        }
        Ok(())
    }

    /// The arguments of a call, which are handed over as they are.
    #[cycle(expr)]
    fn call(&mut self, call: &TypedCall) -> Result<(), AllocError> {
        for x in &call.arguments {
            if let TypedArgument::Value(value) = x {
                self.expr(value)?;
            }
        }
        Ok(())
    }

    /// A place, of which an index that is a constant is taken as int64.
    #[cycle(expr)]
    fn place(&mut self, place: &TypedPlace) -> Result<(), AllocError> {
        match place {
            TypedPlace::Variable { .. } => Ok(()),
            TypedPlace::Element { index, .. } => self.expr(index),
        }
    }

    #[cycle(expr)]
    fn base(&mut self, base: &TypedBase) -> Result<(), AllocError> {
        match base {
            TypedBase::Whole { .. } => Ok(()),
            TypedBase::From { index, .. } => self.expr(index),
        }
    }

    /// What stands before a semicolon in a loop.
    fn simple(&mut self, x: &TypedSimple) -> Result<(), AllocError> {
        match x {
            TypedSimple::Value(value) => self.expr(value),
            TypedSimple::Call(call) => self.call(call),
            TypedSimple::Assign { target, value, .. } => {
                self.place(target)?;
                self.assigned(target, value)
            }
            TypedSimple::Update { target, value, .. } => {
                self.place(target)?;
                self.operand(target.ty().rate, value)?;
                self.expr(value)
            }
            TypedSimple::Step { elem, target, .. } => {
                self.place(target)?;
                let rate = target.ty().rate;
                self.number(Ty { rate, elem: *elem }, 1)
            }
        }
    }

    /// A value that is assigned: an element's is taken from a register.
    fn assigned(&mut self, target: &TypedPlace, value: &TypedExpr) -> Result<(), AllocError> {
        match target {
            TypedPlace::Variable { ty, .. } => self.value(ty.rate, value),
            TypedPlace::Element { ty, .. } => {
                self.operand(ty.rate, value)?;
                self.expr(value)
            }
        }
    }

    /// A value that goes to a variable: a scalar gets a constant by one instruction, kept or not.
    fn value(&mut self, rate: Rate, x: &TypedExpr) -> Result<(), AllocError> {
        if rate == Rate::Varying {
            self.operand(rate, x)?;
        }
        self.expr(x)
    }

    /// Variables that are declared in a loop: a varying one without a value begins with 0.
    fn items(&mut self, all: &[TypedItem]) -> Result<(), AllocError> {
        for x in all {
            match x {
                TypedItem::Plain { ty, .. } if ty.rate == Rate::Varying => self.number(*ty, 0)?,
                TypedItem::Value { ty, value, .. } => self.value(ty.rate, value)?,
                _ => {}
            }
        }
        Ok(())
    }

    /// The values of a `print` in a loop.
    fn printed(&mut self, all: &[TypedExpr]) -> Result<(), AllocError> {
        for x in all {
            self.expr(x)?;
        }
        Ok(())
    }

    /// An expression, if it stands in a loop.
    fn inside(&mut self, x: &TypedExpr, looping: bool) -> Result<(), AllocError> {
        if looping { self.expr(x) } else { Ok(()) }
    }

    /// The parts of a `for` besides its body.
    fn heads(
        &mut self,
        first: &Option<TypedFirst>,
        test: &Option<TypedExpr>,
        step: &Option<TypedSimple>,
        looping: bool,
    ) -> Result<(), AllocError> {
        match first {
            Some(TypedFirst::Declare { items, .. }) if looping => self.items(items)?,
            Some(TypedFirst::Simple(x)) if looping => self.simple(x)?,
            _ => {}
        }
        if let Some(x) = test {
            self.expr(x)?;
        }
        if let Some(x) = step {
            self.simple(x)?;
        }
        Ok(())
    }

    #[cycle(stmt)]
    fn block(&mut self, body: &TypedBlock, looping: bool) -> Result<(), AllocError> {
        for x in &body.statements {
            self.stmt(x, looping)?;
        }
        Ok(())
    }

    #[cycle(stmt)]
    fn stmt(&mut self, x: &TypedStmt, looping: bool) -> Result<(), AllocError> {
        match x {
            TypedStmt::Block(inner) => self.block(inner, looping),
            TypedStmt::If { test, then, .. } => {
                self.inside(test, looping)?;
                self.stmt(then, looping)
            }
            TypedStmt::IfElse {
                test,
                then,
                otherwise,
                ..
            } => {
                self.inside(test, looping)?;
                self.stmt(then, looping)?;
                self.stmt(otherwise, looping)
            }
            TypedStmt::While { test, body, .. } | TypedStmt::Do { body, test, .. } => {
                self.expr(test)?;
                self.stmt(body, true)
            }
            TypedStmt::For {
                first,
                test,
                step,
                body,
                ..
            } => {
                self.heads(first, test, step, looping)?;
                self.stmt(body, true)
            }
            TypedStmt::Foreach { body, .. } | TypedStmt::ForeachActive { body, .. } => {
                self.stmt(body, true)
            }
            TypedStmt::ForeachUnique { value, body, .. } => {
                self.inside(value, looping)?;
                self.stmt(body, true)
            }
            TypedStmt::Unmasked { body, .. } => self.block(body, looping),
            TypedStmt::Return { .. } | TypedStmt::Jump { .. } => Ok(()),
            TypedStmt::Declare { .. }
            | TypedStmt::Simple { .. }
            | TypedStmt::Print { .. }
            | TypedStmt::Assert { .. } => self.leaf(x, looping),
        }
    }

    /// A statement without statements in it.
    fn leaf(&mut self, x: &TypedStmt, looping: bool) -> Result<(), AllocError> {
        if !looping {
            return Ok(());
        }
        match x {
            TypedStmt::Declare { items, .. } => self.items(items),
            TypedStmt::Simple { simple, .. } => self.simple(simple),
            TypedStmt::Print { values, .. } => self.printed(values),
            TypedStmt::Assert { test, .. } => self.expr(test),
            _ => Ok(()),
        }
    }
}
