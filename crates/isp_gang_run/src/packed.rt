//! Packed calls: the members of a set and consecutive elements.
ghost use Rattle.std.specs.Prelude.{◌≡◌, IfErr, OnOk};
ghost use Rattle.isp_base.specs.Cross.{rank};
ghost use Rattle.isp_base.specs.Sets.{flag_of};
ghost use Rattle.isp_base.specs.Types.{gang_width};
ghost use Rattle.isp_base.specs.Values.{number};
ghost use Rattle.isp_typed.specs.Views.{base_of};
ghost use Rattle.isp_meaning.specs.Payloads.{One};
ghost use Rattle.isp_gang_values.specs.Seen.{payload_of};
ghost use Rattle.isp_gang_run.specs.Due.{Leaves, LeavesOf, own, packs_due};
ghost use Rattle.isp_gang_run.specs.Passing.{packs, packs_from};
ghost use Rattle.isp_gang_run.specs.Tasks.{Comes, Does, Halts, does};
ghost use Rattle.isp_gang_run.specs.declared.state.Stop.TheVariants as Stop;
ghost use Rattle.isp_gang_run.specs.declared.tasks.Packing.TheVariants as Packing;
ghost use Rattle.isp_gang_run.specs.declared.tasks.Task.TheVariants as Task;

use crate::state::{Evaluator, Stop, checked};
use crate::tasks::{Elements, Packing, Task};
use isp_base::{Elem, Rate, Span, TrapKind};
use isp_gang_arrays::packing::{held, outside, places};
use isp_gang_arrays::stores::put_each;
use isp_gang_values::computed::Computed;
use isp_gang_values::sets::{Active, rank};
use isp_typed::{ArrayVariable, TypedBase};

impl<'a> Evaluator<'a> {
    /// The element with which a packed call begins.
    #[tactic(auto, using(crate::proofs::Leaves::memory_halts))]
    pub fn base(
        &mut self,
        packing: Packing<'a>,
        base: &'a TypedBase,
        span: Span,
        set: Active,
    ) -> Result<(), Stop>
        ensures ok { OnOk result (Comes self.old self.new (packs self.old packing.entry (base_of base.now) span (flag_of set))) }
        ensures fewer { OnOk result (Leaves self.old self.new (own self.old packs_due packing.entry (base_of base.now))) }
        ensures err { IfErr result (Halts self.old self.new (packs self.old packing.entry (base_of base.now) span (flag_of set))) }
    {
        self.work.tick();
        match base {
            TypedBase::Whole { array, .. } => {
                self.value = Computed::One(0);
                self.packed(packing, *array, Elem::I32, span, set)
            }
            TypedBase::From { array, index, .. } => {
                let after = Task::Packed {
                    packing,
                    array: *array,
                    elem: index.ty().elem,
                    span,
                    set,
                };
                self.both(Task::Value(index, set), after)?;
                Ok(())
            }
        }
    }

    /// The first index was found.
    #[tactic(auto, using(crate::proofs::Leaves::memory_halts))]
    pub fn packed(
        &mut self,
        packing: Packing<'a>,
        array: ArrayVariable,
        elem: Elem,
        span: Span,
        set: Active,
    ) -> Result<(), Stop>
        ensures ok { OnOk result (Does self.old self.new (Task.Packed packing.entry array elem span set)) }
        ensures fewer { OnOk result (LeavesOf self.old self.new (Task.Packed packing.entry array elem span set)) }
        ensures err { IfErr result (Halts self.old self.new (does self.old (Task.Packed packing.entry array elem span set))) }
    {
        let first = self.value.sole();
        let elements = Elements { array, elem, first };
        match packing {
            Packing::Store(value) => {
                let after = Task::PackedStore(elements, span, set);
                self.both(Task::Value(value, set), after)?;
                Ok(())
            }
            Packing::Load(variable) => self.packed_load(variable, elements, span, set),
        }
    }

    // The consecutive elements go into a variable.
    #[tactic(auto, using(crate::proofs::Leaves::memory_halts))]
    fn packed_load(
        &mut self,
        variable: usize,
        elements: Elements,
        span: Span,
        set: Active,
    ) -> Result<(), Stop>
        ensures ok { OnOk result (Comes self.old self.new (packs_from self.old (Packing.Load variable) elements.array
            (number elements.elem elements.first) span (flag_of set))) }
        ensures fewer { OnOk result (Leaves self.old self.new 0) }
        ensures err { IfErr result (Halts self.old self.new (packs_from self.old (Packing.Load variable) elements.array
            (number elements.elem elements.first) span (flag_of set))) }
    {
        self.work.tick();
        let Elements { array, elem, first } = elements;
        let count = self.here.extent(array);
        let offender = outside(self.gang(), elem, first, count, &set);
        checked(offender, TrapKind::Index, span)?;
        let store = self.here.store(array.number);
        let row = held(self.stores.as_slice(), store, elem, first, &set);
        self.write(variable, Rate::Varying, &set, &Computed::Each(row))?;
        self.value = self.count(&set);
        Ok(())
    }

    // How many members there are.
    fn count(&self, set: &Active) -> Computed
        ensures { payload_of result ≡ One (rank (flag_of set.now) (gang_width self.now.program.now.gang)) }
    {
        Computed::One(rank(set, self.gang().width()) as u64)
    }

    /// The value of a packed store was found.
    #[tactic(auto, using(crate::proofs::Leaves::memory_halts))]
    pub fn packed_store(&mut self, elements: Elements, span: Span, set: Active) -> Result<(), Stop>
        ensures ok { OnOk result (Does self.old self.new (Task.PackedStore elements span set)) }
        ensures fewer { OnOk result (LeavesOf self.old self.new (Task.PackedStore elements span set)) }
        ensures err { IfErr result (Halts self.old self.new (does self.old (Task.PackedStore elements span set))) }
    {
        let Elements { array, elem, first } = elements;
        let count = self.here.extent(array);
        let size = self.gang();
        let offender = outside(size, elem, first, count, &set);
        checked(offender, TrapKind::Index, span)?;
        let values = self.value.spread(&set);
        let at = places(elem, first, count, &set);
        let store = self.here.store(array.number);
        put_each(self.alloc, &mut self.stores, store, size, &at, &values)?;
        self.value = self.count(&set);
        Ok(())
    }
}
