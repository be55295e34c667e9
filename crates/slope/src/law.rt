ghost use Rattle.slope.specs.Laws.{Divisors, Steeper, Meetings, Nearer, LeastTerms, Meets};

// What the definitions that the contracts cite mean. The function does nothing: that it is proved says that the laws hold.
pub fn laws()
    ensures divisors { Divisors }
    ensures steeper { Steeper }
    ensures meetings { Meetings }
    ensures nearer { Nearer }
    ensures terms { LeastTerms }
    ensures meets { Meets }
{}
