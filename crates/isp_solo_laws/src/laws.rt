//! Laws of the gang and its instances. No code is run here: each function carries a law in its contract.
ghost use Rattle.isp_solo_laws.specs.Correct.{SoloRunsAgree};
ghost use Rattle.isp_solo_laws.specs.Laws.{ActsAgree, BodiesAgree, EveryCallAgrees, ExpressionsAgree, LoopsAgree, StatementsAgree, TouchedStays};
ghost use Rattle.isp_solo_laws.specs.Samples.{AgreementOfSamples};
ghost use Rattle.isp_solo_laws.specs.Turns.{EachWithItsTurns};

/// What an instance alone has read stays read, and where it has stored it has stored, whatever it does next: so a part of a run
/// touches no more than the whole.
pub fn touched_stays()
    ensures { TouchedStays }
{}

/// An expression over a set gives each member what its run alone answers, from every state that stands for what the instances
/// have, if each member's run alone ends. Where its type is uniform there is one value for the gang. What the members read in
/// shared arrays no other instance stores, and calls do in each member what they do there alone.
pub fn expressions_agree()
    ensures { ExpressionsAgree }
{}

/// An assignment, and declarations one after the other, keep for each member what its run alone keeps: in variables, in arrays of
/// its own, and in shared arrays, where no other instance stores. A uniform variable that is assigned is none that some of its
/// instances may miss, and an array that is declared is one of each instance's own.
pub fn acts_agree()
    ensures { ActsAgree }
{}

/// A loop over a set is ended by each member as it ends it alone, if its test, its body and its step are such. Where instances
/// do not part in the loop, those that go on after it have the gang's uniform variables.
pub fn loops_agree()
    ensures { LoopsAgree }
{}

/// The premises of `expressions_agree` are met by `a[programIndex]`, and the gang has there what each instance has alone.
pub fn agreement_of_samples()
    ensures { AgreementOfSamples }
{}

/// Statements one after the other, and the branches of an `if`, do in each member what they do there alone, if their parts do.
pub fn statements_agree()
    ensures { StatementsAgree }
{}

/// Every statement over a set, and every body, is left by each member as its run alone leaves it, where names, types, rates and
/// exits accept it and it breaks no rule of independent entries where it stands, if calls are such. Where an entry that nobody
/// leaves early is run by the whole gang, so is each `foreach` in it.
pub fn bodies_agree()
    ensures { BodiesAgree }
{}

/// Every call of a function that an independent entry reaches does in each member what it does there alone, if each member's call
/// alone ends and reads and stores nothing that another instance's run stores in, however deep calls go.
pub fn every_call_agrees()
    ensures { EveryCallAgrees }
{}

/// The gang leaves what its instances leave one by one. Where an entry of an accepted program is independent, and each instance
/// alone, from the bound arrays, ends and touches nothing that another stores in, the gang's run ends: its arrays are those of its
/// instances one by one, in any order, it has printed nothing, and its result is each instance's own.
pub fn solo_runs_agree()
    ensures { SoloRunsAgree }
{}

/// `solo_runs_agree` where each instance has a number of turns of its own, with which it ends: with as many turns as any of them the
/// gang ends with what the instances leave.
pub fn each_with_its_turns()
    ensures { EachWithItsTurns }
{}
