//! Laws of a run. Each is a function with nothing to do, whose contract says it.

ghost use Rattle.jop_cli.specs.Headline.{RunsHaveHeadline};

/// The promise of the whole, as the first page of the documents says it, is part of what is promised of each run.
#[tactic(auto, using(crate::proofs::Whole::headline))]
pub fn headline()
    ensures { RunsHaveHeadline }
{}
