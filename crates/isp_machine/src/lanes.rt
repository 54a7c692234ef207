//! Vector registers that are written where they stand, in the lanes of a mask.
ghost use Rattle.std.specs.Prelude.{◌≡◌};
ghost use Rattle.isp_base.specs.declared.types.Elem.TheVariants.{Bool as Truth, I32};
ghost use Rattle.isp_code.specs.Fine.{IsThere};
ghost use Rattle.isp_code.specs.Registers.{elem_of};
ghost use Rattle.isp_frames.specs.Moves.{InPlace};
ghost use Rattle.isp_frames.specs.Shapes.{Shaped};
ghost use Rattle.isp_store.specs.Held.{Held};

use crate::operands::Target;
use isp_base::{Compare, UnaryOp};
use isp_code::{Class, Plain, Register, VectorInstr};
use isp_frames::frame::Frame;
use isp_frames::here::Here;
use isp_frames::kernels::plain_operator;

/// The lanes of another register.
pub(crate) fn copy<const N: usize>(here: &Here, frame: &mut Frame<N>, target: Target, x: Register)
    requires shaped { Shaped here.now.routine frame.old }
    requires d { IsThere here.now.routine Class.Vector target.register }
    requires k { IsThere here.now.routine Class.Mask target.mask }
    requires x { IsThere here.now.routine Class.Vector x }
    requires like_x { elem_of here.now.routine x ≡ elem_of here.now.routine target.register }
    ensures pc { frame.new.pc ≡ frame.old.pc }
    ensures written { (s : Held) → InPlace here.now s frame.old target.register (VectorInstr.Copy x target.mask) frame.new }
{
    here.mask_told(frame, target.mask);
    here.vector_told(frame, target.register);
    here.vector_told(frame, x);
    frame.copy(target.register.number, x.number, target.mask.number);
}

/// What another register has, as values of this type.
pub(crate) fn convert<const N: usize>(
    here: &Here,
    frame: &mut Frame<N>,
    target: Target,
    x: Register,
)
    requires shaped { Shaped here.now.routine frame.old }
    requires d { IsThere here.now.routine Class.Vector target.register }
    requires k { IsThere here.now.routine Class.Mask target.mask }
    requires x { IsThere here.now.routine Class.Vector x }
    ensures pc { frame.new.pc ≡ frame.old.pc }
    ensures written { (s : Held) → InPlace here.now s frame.old target.register (VectorInstr.Convert x target.mask) frame.new }
{
    here.mask_told(frame, target.mask);
    here.vector_told(frame, target.register);
    here.vector_told(frame, x);
    frame.convert(target.register.number, x.number, target.mask.number);
}

/// An operator on one value.
pub(crate) fn apply<const N: usize>(
    here: &Here,
    frame: &mut Frame<N>,
    target: Target,
    op: UnaryOp,
    x: Register,
)
    requires shaped { Shaped here.now.routine frame.old }
    requires d { IsThere here.now.routine Class.Vector target.register }
    requires k { IsThere here.now.routine Class.Mask target.mask }
    requires x { IsThere here.now.routine Class.Vector x }
    requires like_x { elem_of here.now.routine x ≡ elem_of here.now.routine target.register }
    ensures pc { frame.new.pc ≡ frame.old.pc }
    ensures written { (s : Held) → InPlace here.now s frame.old target.register (VectorInstr.Unary op x target.mask) frame.new }
{
    here.mask_told(frame, target.mask);
    here.vector_told(frame, target.register);
    here.vector_told(frame, x);
    frame.unary(op, target.register.number, x.number, target.mask.number);
}

/// An operator on two values.
pub(crate) fn combine<const N: usize>(
    here: &Here,
    frame: &mut Frame<N>,
    target: Target,
    op: Plain,
    x: Register,
    y: Register,
)
    requires shaped { Shaped here.now.routine frame.old }
    requires d { IsThere here.now.routine Class.Vector target.register }
    requires k { IsThere here.now.routine Class.Mask target.mask }
    requires x { IsThere here.now.routine Class.Vector x }
    requires like_x { elem_of here.now.routine x ≡ elem_of here.now.routine target.register }
    requires y { IsThere here.now.routine Class.Vector y }
    requires like_y { elem_of here.now.routine y ≡ elem_of here.now.routine target.register }
    ensures pc { frame.new.pc ≡ frame.old.pc }
    ensures written { (s : Held) → InPlace here.now s frame.old target.register (VectorInstr.Binary op x y target.mask) frame.new }
{
    here.mask_told(frame, target.mask);
    here.vector_told(frame, target.register);
    here.vector_told(frame, x);
    here.vector_told(frame, y);
    match frame.binary(
        plain_operator(op),
        target.register.number,
        x.number,
        y.number,
        target.mask.number,
    ) {
        Ok(()) => {}
        Err(_lane) => unreachable!(),
    }
}

/// Whether two values compare so.
pub(crate) fn compare<const N: usize>(
    here: &Here,
    frame: &mut Frame<N>,
    target: Target,
    op: Compare,
    x: Register,
    y: Register,
)
    requires shaped { Shaped here.now.routine frame.old }
    requires d { IsThere here.now.routine Class.Vector target.register }
    requires k { IsThere here.now.routine Class.Mask target.mask }
    requires x { IsThere here.now.routine Class.Vector x }
    requires y { IsThere here.now.routine Class.Vector y }
    requires like_y { elem_of here.now.routine y ≡ elem_of here.now.routine x }
    requires truth { elem_of here.now.routine target.register ≡ Truth }
    ensures pc { frame.new.pc ≡ frame.old.pc }
    ensures written { (s : Held) → InPlace here.now s frame.old target.register (VectorInstr.Compare op x y target.mask) frame.new }
{
    here.mask_told(frame, target.mask);
    here.vector_told(frame, target.register);
    here.vector_told(frame, x);
    here.vector_told(frame, y);
    frame.compare(
        op,
        target.register.number,
        x.number,
        y.number,
        target.mask.number,
    );
}

/// One of two values, as a third says.
pub(crate) fn select<const N: usize>(
    here: &Here,
    frame: &mut Frame<N>,
    target: Target,
    test: Register,
    x: Register,
    y: Register,
)
    requires shaped { Shaped here.now.routine frame.old }
    requires d { IsThere here.now.routine Class.Vector target.register }
    requires k { IsThere here.now.routine Class.Mask target.mask }
    requires test { IsThere here.now.routine Class.Vector test }
    requires truth { elem_of here.now.routine test ≡ Truth }
    requires x { IsThere here.now.routine Class.Vector x }
    requires like_x { elem_of here.now.routine x ≡ elem_of here.now.routine target.register }
    requires y { IsThere here.now.routine Class.Vector y }
    requires like_y { elem_of here.now.routine y ≡ elem_of here.now.routine target.register }
    ensures pc { frame.new.pc ≡ frame.old.pc }
    ensures written { (s : Held) → InPlace here.now s frame.old target.register (VectorInstr.Select test x y target.mask) frame.new }
{
    here.mask_told(frame, target.mask);
    here.vector_told(frame, target.register);
    here.vector_told(frame, test);
    here.vector_told(frame, x);
    here.vector_told(frame, y);
    frame.select(
        target.register.number,
        test.number,
        x.number,
        y.number,
        target.mask.number,
    );
}

/// One value in each lane.
pub(crate) fn splat<const N: usize>(here: &Here, frame: &mut Frame<N>, target: Target, x: Register)
    requires shaped { Shaped here.now.routine frame.old }
    requires d { IsThere here.now.routine Class.Vector target.register }
    requires k { IsThere here.now.routine Class.Mask target.mask }
    requires x { IsThere here.now.routine Class.Scalar x }
    requires like_x { elem_of here.now.routine x ≡ elem_of here.now.routine target.register }
    ensures pc { frame.new.pc ≡ frame.old.pc }
    ensures written { (s : Held) → InPlace here.now s frame.old target.register (VectorInstr.Splat x target.mask) frame.new }
{
    here.mask_told(frame, target.mask);
    here.vector_told(frame, target.register);
    let bits = here.scalar(frame, x);
    frame.splat(target.register.number, bits, target.mask.number);
}

/// The lanes' numbers.
pub(crate) fn number<const N: usize>(here: &Here, frame: &mut Frame<N>, target: Target)
    requires shaped { Shaped here.now.routine frame.old }
    requires d { IsThere here.now.routine Class.Vector target.register }
    requires k { IsThere here.now.routine Class.Mask target.mask }
    requires int32 { elem_of here.now.routine target.register ≡ I32 }
    ensures pc { frame.new.pc ≡ frame.old.pc }
    ensures written { (s : Held) → InPlace here.now s frame.old target.register (VectorInstr.Index target.mask) frame.new }
{
    here.mask_told(frame, target.mask);
    here.vector_told(frame, target.register);
    frame.index(target.register.number, target.mask.number);
}
