//! How many parameters of each class there are: the numbers of the next registers.
ghost use Rattle.std.specs.Prelude.{◌≡◌, ◌<◌, ◌^◌, suc};
ghost use Rattle.isp_native.specs.Text as says;

use isp_code::ParamKind;

/// The parameters of each class so far.
#[derive(Clone, Copy)]
pub struct Counts {
    pub scalars: usize,
    pub vectors: usize,
    pub arrays: usize,
}

impl Counts {
    /// Before the first parameter.
    pub(crate) fn none() -> Counts
        ensures { result ≡ says.nobody }
    {
        Counts {
            scalars: 0,
            vectors: 0,
            arrays: 0,
        }
    }

    /// The number of the next register of a class.
    pub(crate) fn of(self, kind: ParamKind) -> usize
        ensures { result ≡ says.count kind self }
    {
        match kind {
            ParamKind::Scalar => self.scalars,
            ParamKind::Vector => self.vectors,
            ParamKind::Array => self.arrays,
        }
    }

    /// With one more parameter.
    pub(crate) fn with(self, kind: ParamKind) -> Counts
        requires scalars { suc self.scalars < 2 ^ 64 }
        requires vectors { suc self.vectors < 2 ^ 64 }
        requires arrays { suc self.arrays < 2 ^ 64 }
        ensures { result ≡ says.with kind self }
    {
        let Counts {
            scalars,
            vectors,
            arrays,
        } = self;
        match kind {
            ParamKind::Scalar => Counts {
                scalars: scalars + 1,
                vectors,
                arrays,
            },
            ParamKind::Vector => Counts {
                scalars,
                vectors: vectors + 1,
                arrays,
            },
            ParamKind::Array => Counts {
                scalars,
                vectors,
                arrays: arrays + 1,
            },
        }
    }
}
