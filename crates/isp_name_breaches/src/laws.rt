//! What holds of the lists that a walk over the tree is to push. No code is run here: the function carries a law in its contract.
ghost use Rattle.std.specs.Prelude.{◌↔◌, Contains, List};
ghost use Rattle.isp_base.specs.declared.types.Gang.{Gang};
ghost use Rattle.isp_lex.specs.declared.fault.Fault.{Fault};
ghost use Rattle.isp_tree.specs.Tree.{Function};
ghost use Rattle.isp_types.specs.Functions.{Breach};
ghost use Rattle.isp_name_breaches.specs.reader.Programs.{program_faults};

/// The faults in the list of a program are its breaches of names and types.
pub fn lists_of_names()
    ensures { (gang : Gang) → (fs : List Function) → (f : Fault) → Contains (program_faults gang fs) f ↔ Breach gang fs f }
{}
