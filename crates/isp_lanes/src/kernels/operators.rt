//! The operators that do not divide, each as a type, so that what is generic over one is compiled for each by itself.
ghost use Rattle.std.specs.Prelude.{◌≡◌, map};
ghost use Rattle.std.specs.Simd.Lanes.{zip2};
ghost use Rattle.isp_base.specs.declared.operators.BinOp.{BinOp};
ghost use Rattle.isp_base.specs.declared.operators.UnaryOp.{UnaryOp};
ghost use Rattle.isp_base.specs.Unary.{unary_bits};
ghost use Rattle.isp_base.specs.Values.{op_bits};
ghost use Rattle.isp_lanes.specs.Held.{IsRow};

pub(crate) use super::arithmetic::{Add, Mul, Sub};
pub(crate) use super::order::{Max, Min};
pub(crate) use super::shifts::{Shl, Shr};
use super::{arithmetic, signs};
use crate::lane_elem::LaneElem;
use crate::words::Words;

// An operator on two values.
pub(crate) trait Operator<const N: usize> {
    ghost op: { BinOp };

    // The operator on all lanes.
    fn on<T: LaneElem, V: Words<N>>(x: V, y: V) -> V
        requires x_row { IsRow N V.width T.elem (V.words x) }
        requires y_row { IsRow N V.width T.elem (V.words y) }
        ensures { V.words result ≡ zip2 (op_bits op T.elem) (V.words x) (V.words y) };
}

pub(crate) struct And;

impl<const N: usize> Operator<N> for And {
    ghost op = { BinOp.And };

    fn on<T: LaneElem, V: Words<N>>(x: V, y: V) -> V {
        x.and(y)
    }
}

pub(crate) struct Or;

impl<const N: usize> Operator<N> for Or {
    ghost op = { BinOp.Or };

    fn on<T: LaneElem, V: Words<N>>(x: V, y: V) -> V {
        x.or(y)
    }
}

pub(crate) struct Xor;

impl<const N: usize> Operator<N> for Xor {
    ghost op = { BinOp.Xor };

    fn on<T: LaneElem, V: Words<N>>(x: V, y: V) -> V {
        x.xor(y)
    }
}

// An operator on one value.
pub(crate) trait UnaryOperator<const N: usize> {
    ghost op: { UnaryOp };

    // The operator on all lanes.
    fn on<T: LaneElem, V: Words<N>>(x: V) -> V
        requires { IsRow N V.width T.elem (V.words x) }
        ensures { V.words result ≡ map (unary_bits op T.elem) (V.words x) };
}

pub(crate) struct Negate;

impl<const N: usize> UnaryOperator<N> for Negate {
    ghost op = { UnaryOp.Negate };

    fn on<T: LaneElem, V: Words<N>>(x: V) -> V {
        signs::negate::<N, T, V>(x)
    }
}

pub(crate) struct Invert;

impl<const N: usize> UnaryOperator<N> for Invert {
    ghost op = { UnaryOp.Invert };

    fn on<T: LaneElem, V: Words<N>>(x: V) -> V {
        arithmetic::low::<N, T, V>(x.inverse())
    }
}

pub(crate) struct Absolute;

impl<const N: usize> UnaryOperator<N> for Absolute {
    ghost op = { UnaryOp.Absolute };

    fn on<T: LaneElem, V: Words<N>>(x: V) -> V {
        signs::magnitudes::<N, T, V>(x)
    }
}

pub(crate) struct Not;

impl<const N: usize> UnaryOperator<N> for Not {
    ghost op = { UnaryOp.Not };

    fn on<T: LaneElem, V: Words<N>>(x: V) -> V {
        x.equal(V::all(0)).and(V::all(1))
    }
}
