// The theory of fewest cuttings, over every family: what parts accepted readings into runs, and why a tape that lets each
// reading join the open run where it can has as few runs as any permitted cutting. It knows no words and no store.
#![tactic(auto)]

ghost use Rattle.cuttings.specs.Cutting.{BestCut, Served};

use family::Family;

// What holds of a tape's runs, whatever the family.
pub fn cutting_law<F: Family>()
    ensures { BestCut (Served F.Family.meaning.serves) }
{}
