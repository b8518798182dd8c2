//! The laws of the rules: facts about the definitions that say what a leveller does, for every sound leveller and
//! every victim order that keeps just its laws.
ghost use Rattle.rules.specs.Laws.{NewSound, StartKeeps, WriteKeeps, ReadKeeps, DiscardKeeps, WriteObeyed, WriteOnce, CleaningGains, SearchEnds, LevellingEnds};

/// Promises that a leveller that is not started is sound.
#[tactic(auto, using(crate::proofs::Kept::new_sound))]
pub fn new_sound()
    ensures { NewSound }
{}

/// Promises that start leaves a sound leveller.
#[tactic(auto, using(crate::proofs::Kept::start_keeps))]
pub fn start_keeps()
    ensures { StartKeeps }
{}

/// Promises that a write leaves a sound leveller.
#[tactic(auto, using(crate::proofs::Kept::write_keeps))]
pub fn write_keeps()
    ensures { WriteKeeps }
{}

/// Promises that a read leaves a sound leveller.
#[tactic(auto, using(crate::proofs::Kept::read_keeps))]
pub fn read_keeps()
    ensures { ReadKeeps }
{}

/// Promises that a discard leaves a sound leveller.
#[tactic(auto, using(crate::proofs::Kept::discard_keeps))]
pub fn discard_keeps()
    ensures { DiscardKeeps }
{}

/// Promises that a chip accepts every program and erase of a write.
#[tactic(auto, using(crate::proofs::Kept::write_obeyed))]
pub fn write_obeyed()
    ensures { WriteObeyed }
{}

/// Promises that a write erases no block twice.
#[tactic(auto, using(crate::proofs::Kept::write_once))]
pub fn write_once()
    ensures { WriteOnce }
{}

/// Promises that a cleaning finds a victim with a page that is not live.
pub fn cleaning_gains()
    ensures { CleaningGains }
{}

/// Promises that the search for a clear flag finds one.
#[tactic(auto, using(crate::proofs::Kept::search_ends))]
pub fn search_ends()
    ensures { SearchEnds }
{}

/// Promises that levelling ends by itself.
pub fn levelling_ends()
    ensures { LevellingEnds }
{}
