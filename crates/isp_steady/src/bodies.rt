//! What is known inside statements. No code is run here: each function carries a law in its contract.
ghost use Rattle.isp_steady.specs.Bodies.{KnownInBodies, KnownInForeach};

/// What is known before a statement is known wherever its body runs, however often, and after a statement what is known there: another
/// body may stand in its place that does the same over each set of some of the members from each state that is as known.
pub fn known_in_bodies()
    ensures { KnownInBodies }
{}

/// The body of a `foreach` runs where its indices are known, the last one linear and the outer ones steady, and somebody is there: another
/// body may stand in its place that does the same there.
pub fn known_in_foreach()
    ensures { KnownInForeach }
{}
