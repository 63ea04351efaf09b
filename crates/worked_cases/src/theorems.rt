// That the rules give what the worked cases say.
ghost use Rattle.std.specs.List.{AllByRecursion};
ghost use Rattle.worked_cases.specs.Cases.{Gives};
ghost use Rattle.worked_cases.specs.Table.{cases};

pub fn every_worked_case_holds()
    ensures { AllByRecursion Gives cases }
{}
