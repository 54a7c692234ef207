//! Laws of what instances do alone. No code is run here: each function carries a law in its contract.
ghost use Rattle.isp_solo_meaning.specs.Laws.{AnyOrder, MoreTurnsAlone, ReadsDecide, TrapsNameTheInstance};
ghost use Rattle.isp_solo_meaning.specs.Samples.{InstancesOfSamples};

/// What one instance does alone, and what all leave one by one, on a small program.
pub fn instances_of_samples()
    ensures { InstancesOfSamples }
{}

/// A run over other arrays is the same run where it reads the same elements: what it reads decides what it does.
pub fn reads_decide()
    ensures { ReadsDecide }
{}

/// Instances of which no two clash leave the same arrays one by one, in whatever order: in each element what the one that
/// stores there stores alone.
pub fn any_order()
    ensures { AnyOrder }
{}

/// A run that ended or trapped does the same with more turns. One that was cut touches no element that a longer one does not touch.
pub fn more_turns_alone()
    ensures { MoreTurnsAlone }
{}

/// The trap of an instance that runs alone names that instance.
pub fn traps_name_the_instance()
    ensures { TrapsNameTheInstance }
{}
