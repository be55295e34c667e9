ghost use Rattle.hull.specs.Laws.{LosesNoLine, TightestBound, OneReadingMore, FirstHighest, PairsSuffice, LowestLine};

// What the definitions that the contracts cite mean. The function does nothing: that it is proved says that the laws hold.
pub fn laws()
    ensures loses { LosesNoLine }
    ensures bound { TightestBound }
    ensures more { OneReadingMore }
    ensures highest { FirstHighest }
    ensures pairs { PairsSuffice }
    ensures lowest { LowestLine }
{}
