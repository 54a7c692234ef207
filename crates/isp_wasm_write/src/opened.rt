//! Arrays that a function opens: where they lie, and their bytes as zeros.
ghost use Rattle.std.specs.Prelude.{◌≡◌, ◌++◌, ◌∷◌, [], ◌-◌, slice_get, Some, IfSome, OnOk, IfOk};
ghost use Rattle.isp_code.specs.Lines.{local_size};
ghost use Rattle.isp_code.specs.Registers.{passed, is_per_instance, is_per_lane};
ghost use Rattle.isp_code.specs.declared.instr.Instr.TheVariants as instrs;
ghost use Rattle.isp_forms.specs.declared.form.Form.TheVariants.{Kept};
ghost use Rattle.isp_wasm_meaning.specs.Syntax as wasm;
ghost use Rattle.isp_wasm.specs.Places as places;
ghost use Rattle.isp_wasm.specs.Stack.{local_bytes, bytes_in};
ghost use Rattle.isp_wasm.specs.Templates as templates;
ghost use Rattle.isp_wasm.specs.Templates.{each};
ghost use Rattle.isp_wasm_binary.specs.Instructions.{code_bytes, expr_bytes};
ghost use Rattle.isp_wasm_write.specs.Opened as opened;
ghost use Rattle.isp_wasm_write.specs.Settings.{setting};

use crate::kernel::{Kernel, Place};
use crate::refusal::Refusal;
use crate::types::bytes_of;
use isp_code::{Local, Register, Sharing};
use isp_wasm_binary::{Binary, Bytes, Size, Whole};

// A number that has 32 bits, as those of covered code have.
fn small(number: Option<u32>) -> Result<u32, Refusal>
    ensures { IfOk result (λ n. number ≡ Some n) }
{
    number.ok_or(Refusal::NoLocal)
}

// Whether each lane has its own of an array.
fn is_per_instance(local: &Local) -> bool
    ensures { result ≡ is_per_instance local.now.sharing }
{
    matches!(local.sharing, Sharing::PerInstance)
}

// The bytes of an array; each lane may have its own.
fn local_bytes(lanes: u32, local: &Local) -> Option<u32>
    ensures { IfSome result (λ n. n ≡ local_bytes lanes local.now) }
{
    let bytes = local.size.checked_mul(bytes_of(local.elem))?;
    match local.sharing {
        Sharing::Shared => Some(bytes),
        Sharing::PerInstance => lanes.checked_mul(bytes),
    }
}

// The bytes of some arrays.
fn bytes_in(lanes: u32, locals: &[Local]) -> Option<u32>
    ensures { IfSome result (λ n. n ≡ bytes_in lanes locals.now) }
{
    let mut sum: u32 = 0;
    for local in locals {
        sum = sum.checked_add(local_bytes(lanes, local)?)?;
    }
    Some(sum)
}

impl<'a> Kernel<'a> {
    // Appends where the next array lies, so many bytes on.
    fn top_line(&self, out: &mut Bytes, bytes: u32) -> Result<(), Refusal>
        ensures { OnOk result (out.new ≡ out.old ++ code_bytes (wasm.Set ((setting self.now).local places.Top) (wasm.Two (wasm.Of wasm.I32 wasm.Add) (wasm.Local ((setting self.now).local places.Top)) (wasm.Const32 bytes)))) }
    {
        self.get(out, Place::Top)?;
        out.const32(bytes)?;
        out.binary(Binary::Of(Size::I32, Whole::Add))?;
        self.set(out, Place::Top)
    }

    // Appends where an array begins, its number of elements, and where the next one lies.
    fn array_line(&self, out: &mut Bytes, number: u32, local: &Local) -> Result<(), Refusal>
        ensures { OnOk result (out.new ≡ out.old ++ code_bytes (templates.arrays_code (setting self.now) (local.now ∷ []) number)) }
    {
        let bytes = small(local_bytes(self.width(), local))?;
        self.get(out, Place::Top)?;
        self.set(out, Place::Base(number))?;
        out.const64(u64::from(local.size))?;
        self.set(out, Place::Count(number))?;
        self.top_line(out, bytes)
    }

    // The same of some arrays, from a number on.
    #[tactic(auto, using(crate::proofs::ArrayLines::one_more))]
    fn array_lines(&self, out: &mut Bytes, first: u32, locals: &[Local]) -> Result<(), Refusal>
        ensures { OnOk result (out.new ≡ out.old ++ code_bytes (templates.arrays_code (setting self.now) locals.now first)) }
    {
        let mut number = first;
        for local in locals {
            self.array_line(out, number, local)?;
            number = small(number.checked_add(1))?;
        }
        Ok(())
    }

    /// Appends that the arrays that a function opens are zeros, and where they lie.
    pub fn arrays_line(&self, out: &mut Bytes) -> Result<(), Refusal>
        ensures { OnOk result (out.new ≡ out.old ++ code_bytes (templates.begin_code (setting self.now) (setting self.now).routine.locals)) }
    {
        let locals = self.function().locals.as_slice();
        if locals.is_empty() {
            return Ok(());
        }
        let first = small(u32::try_from(self.passed()).ok())?;
        let bytes = small(bytes_in(self.width(), locals))?;
        self.get(out, Place::Top)?;
        out.const32(0)?;
        out.const32(small(bytes.checked_add(1))?)?;
        out.fill()?;
        self.array_lines(out, first, locals)
    }

    // How many elements an array has that the function opens.
    fn opened_size(&self, array: Register) -> u32
        ensures { result ≡ local_size (slice_get self.now.routine.locals (array.number - passed self.now.routine)) }
    {
        let number = (array.number as usize).saturating_sub(self.passed());
        match self.function().locals.get(number) {
            Some(local) => local.size,
            None => 0,
        }
    }

    // How many bytes it has, in one lane where each has its own.
    fn opened_bytes(&self, array: Register) -> Option<u32>
        ensures { IfSome result (λ n. n ≡ templates.opened_bytes (setting self.now) array) }
    {
        self.opened_size(array)
            .checked_mul(bytes_of(self.elem(array)))
    }

    // Whether each lane has its own of an array.
    fn is_own(&self, array: Register) -> bool
        ensures { result ≡ is_per_lane self.now.routine array }
    {
        let first = self.passed();
        let number = (array.number as usize).saturating_sub(first);
        let own = match self.function().locals.get(number) {
            Some(local) => is_per_instance(local),
            None => false,
        };
        first <= array.number as usize && own
    }

    // Appends where an array begins, in a lane where each has its own.
    fn base_if(&self, out: &mut Bytes, own: bool, array: Register, lane: u8) -> Result<(), Refusal>
        ensures { OnOk result (out.new ≡ out.old ++ expr_bytes (templates.base_if (setting self.now) own array lane)) }
    {
        self.get(out, Place::Base(array.number))?;
        if !own {
            return Ok(());
        }
        let bytes = small(self.opened_bytes(array))?;
        out.const32(small(u32::from(lane).checked_mul(bytes))?)?;
        Ok(out.binary(Binary::Of(Size::I32, Whole::Add))?)
    }

    /// Appends where an array begins, as a lane finds it. Where each lane has its own, the copy of lane 1 is after that of lane 0.
    pub fn base_at(&self, out: &mut Bytes, array: Register, lane: u8) -> Result<(), Refusal>
        ensures { OnOk result (out.new ≡ out.old ++ expr_bytes (templates.base_at (setting self.now) array lane)) }
    {
        self.base_if(out, self.is_own(array), array, lane)
    }

    // Appends that all bytes of an array that lanes share are zeros.
    fn shared_zeroed(&self, out: &mut Bytes, array: Register) -> Result<(), Refusal>
        ensures { OnOk result (out.new ≡ out.old ++ code_bytes (wasm.Clear (wasm.Local ((setting self.now).local (places.Base array.number))) (wasm.Const32 (templates.opened_bytes (setting self.now) array)))) }
    {
        let bytes = small(self.opened_bytes(array))?;
        self.get(out, Place::Base(array.number))?;
        out.const32(0)?;
        out.const32(bytes)?;
        Ok(out.fill()?)
    }

    // The same of a lane's own.
    fn lane_zeroed(&self, out: &mut Bytes, array: Register, lane: u8) -> Result<(), Refusal>
        ensures { OnOk result (out.new ≡ out.old ++ code_bytes (wasm.Clear (templates.base_at (setting self.now) array lane) (wasm.Const32 (templates.opened_bytes (setting self.now) array)))) }
    {
        let bytes = small(self.opened_bytes(array))?;
        self.base_at(out, array, lane)?;
        out.const32(0)?;
        out.const32(bytes)?;
        Ok(out.fill()?)
    }

    // Where a mask has the lane.
    fn member_zeroed(
        &self,
        out: &mut Bytes,
        array: Register,
        mask: Register,
        lane: u8,
    ) -> Result<(), Refusal>
        ensures { OnOk result (out.new ≡ out.old ++ code_bytes (opened.member_zeroed (setting self.now) array mask lane)) }
    {
        self.is_member(out, mask, lane)?;
        out.begin_if()?;
        self.lane_zeroed(out, array, lane)?;
        Ok(out.end()?)
    }

    // Of so many lanes, one after the other.
    #[tactic(auto, using(crate::proofs::Each::one_more))]
    fn members_zeroed(
        &self,
        out: &mut Bytes,
        array: Register,
        mask: Register,
        lanes: u8,
    ) -> Result<(), Refusal>
        ensures { OnOk result (out.new ≡ out.old ++ code_bytes (each lanes (opened.member_zeroed (setting self.now) array mask))) }
    {
        for lane in 0..lanes {
            self.member_zeroed(out, array, mask, lane)?;
        }
        Ok(())
    }

    // Appends `clear` of an array that lanes share, or have each their own of.
    fn clear_if(
        &self,
        out: &mut Bytes,
        own: bool,
        array: Register,
        mask: Register,
    ) -> Result<(), Refusal>
        ensures { OnOk result (out.new ≡ out.old ++ code_bytes (templates.clear_if (setting self.now) own array mask)) }
    {
        if own {
            self.members_zeroed(out, array, mask, self.width() as u8)
        } else {
            self.shared_zeroed(out, array)
        }
    }

    /// Appends `clear`: an array that all lanes share is zeroed whole, one of which each lane has its own in the lanes of a mask.
    pub fn clear_line(
        &self,
        out: &mut Bytes,
        array: Register,
        mask: Register,
    ) -> Result<(), Refusal>
        ensures { OnOk result (out.new ≡ out.old ++ code_bytes (templates.code_of (setting self.now) 0 Kept (instrs.Clear array mask))) }
    {
        self.clear_if(out, self.is_own(array), array, mask)
    }
}
