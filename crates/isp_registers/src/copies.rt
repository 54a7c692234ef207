//! Registers once more, so that a walk that is refused leaves no trace.
ghost use Rattle.std.specs.Prelude.{◌≡◌, [], map, IfOk, OnOk};
ghost use Rattle.isp_registers.specs.Lookup.{AreNamedFrom, row_of};

use crate::register_rows::RegisterRows;
use crate::registers::{RegisterRow, Registers};
use crate::reserve::Reserve;
use std::alloc::{AllocError, Global};

/// Adds registers to none.
pub(crate) fn push_all(all: &mut RegisterRows, rows: &[RegisterRow]) -> Result<(), AllocError>
    requires none { all.old ≡ [] }
    requires named { AreNamedFrom 0 (map row_of rows.now) }
    ensures { OnOk result (all.new ≡ rows.now) }
{
    for row in rows.iter() {
        all.push(*row)?;
    }
    Ok(())
}

impl Registers {
    /// The same registers.
    pub fn copied(&self, alloc: Global) -> Result<Registers, AllocError>
        ensures { IfOk result (λ r. r ≡ self.now) }
    {
        Ok(Registers {
            scalars: self.scalars.copied(alloc)?,
            vectors: self.vectors.copied(alloc)?,
            arrays: self.arrays.copied(alloc)?,
            loaded: self.loaded.copied(alloc)?,
        })
    }
}

impl Reserve {
    /// The same registers and masks.
    pub fn copied(&self, alloc: Global) -> Result<Reserve, AllocError>
        ensures { IfOk result (λ r. r ≡ self.now) }
    {
        Ok(Reserve {
            registers: self.registers.copied(alloc)?,
            masks: self.masks,
        })
    }
}
