//! What the link rules survive: flips, cuts, fans, and the removal of dead records. Each function's contract is a theorem.
#![tactic(auto)]

ghost use Rattle.surgery.specs.Cleaned.{Cleans, CarriesOver};
ghost use Rattle.surgery.specs.Sound.{InnerSpoked, LineLeaf, LineMiddle};
ghost use Rattle.surgery.specs.Theorems.{Carries, Flips, Cuts, FanSteps, Straightens, Renumbers, MovesEdge, MovesFace, MovesEntry, AllLive, AllLiveBack, LiveLinked};

/// Cycles are carried over to new steps.
pub fn carries_stands()
    ensures { Carries }
{}

/// A flip keeps the link rules.
pub fn flips_stands()
    ensures { Flips }
{}

/// So does cutting out an entry, inside, on the hull or at the end of a line.
pub fn cuts_stands()
    ensures { Cuts }
{}

/// So does cutting a triangle off a face.
pub fn fan_steps_stands()
    ensures { FanSteps }
{}

/// So does taking the middle entry out of a line.
pub fn straightens_stands()
    ensures { Straightens }
{}

/// So do new numbers.
pub fn renumbers_stands()
    ensures { Renumbers }
{}

/// So does moving the last edge to the number of a dead one.
pub fn moves_edge_stands()
    ensures { MovesEdge }
{}

/// So does moving the last face.
pub fn moves_face_stands()
    ensures { MovesFace }
{}

/// So does moving the last entry.
pub fn moves_entry_stands()
    ensures { MovesEntry }
{}

/// The link rules where all below the counts lives are rules 3 and 4.
pub fn all_live_stands()
    ensures { AllLive }
{}

/// And back.
pub fn all_live_back_stands()
    ensures { AllLiveBack }
{}

/// The link rules over live records are those that new numbers carry over.
pub fn live_linked_stands()
    ensures { LiveLinked }
{}

/// What an inner entry of a sound map offers to be cut out by.
pub fn inner_spoked_stands()
    ensures { InnerSpoked }
{}

/// So at the end of a line.
pub fn line_leaf_stands()
    ensures { LineLeaf }
{}

/// And in the midst of it.
pub fn line_middle_stands()
    ensures { LineMiddle }
{}

/// Removal of dead records, the highest first, only gives other numbers to what stays.
pub fn cleans_stands()
    ensures { Cleans }
{}

/// Other numbers carry over the link rules, and what is said of faces and places.
pub fn carries_over_stands()
    ensures { CarriesOver }
{}
