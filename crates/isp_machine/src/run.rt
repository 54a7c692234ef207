//! A run.
use isp_frames::frame::FrameBox;
use isp_frames::zeros::ZerosBox;
use isp_store::Arrays;
use std::marker::Model;

/// The machine between two instructions: the call that runs, the calls that wait, the innermost
/// last, the arrays that all lanes share, and the output. `rooms` is the memory of calls that are
/// over, for later ones, and `zeros` what new registers are copied from: no part of what contracts see.
#[derive(Drop)]
pub(crate) struct Run<const N: usize> {
    pub(crate) frame: FrameBox<N>,
    pub(crate) waiting: Vec<FrameBox<N>>,
    pub(crate) stores: Arrays,
    pub(crate) out: Vec<u8>,
    pub(crate) rooms: Vec<FrameBox<N>>,
    pub(crate) zeros: ZerosBox<N>,
}

impl<const N: usize> Model for Run<N> {
    ghost use Rattle.isp_machine.specs.Rows.{RunRows};

    ghost Value = { RunRows };

    ghost view = { λ r. record { frame = r.frame; waiting = r.waiting.items; stores = r.stores; out = r.out.items } };
}
