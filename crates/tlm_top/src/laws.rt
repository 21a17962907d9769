//! Laws over the definitions of the answers.
ghost use Rattle.tlm_top.specs.Complete.{IsComplete, IsGeneratedWhole};

/// Words that ask for a valid platform, files that the library tells and that aren't too long, and no
/// failure of the library or of the sink that is counted: then the answer is Done, or memory was
/// refused. For `gen` nothing is asked of the library.
#[tactic(auto, using(crate::proofs::Completeness::is_complete))]
pub fn valid_plans_are_reported()
    ensures { IsComplete }
{}

/// `gen` is never answered with a fault of a load: its files are held whole, and none of them is too long.
#[tactic(auto, using(crate::proofs::Completeness::is_generated_whole))]
pub fn generated_files_are_loaded()
    ensures { IsGeneratedWhole }
{}
