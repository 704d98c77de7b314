//! The headline guarantee about the history, as one definition and one law.

ghost use Rattle.desk_types.specs.declared.rules.Rules.{Rules};
ghost use Rattle.desk_types.specs.History.{History};
ghost use Rattle.desk_types.specs.Judged.{IsJudged};
ghost use Rattle.desk_laws.specs.Consistent.{IsConsistent};

/// Every history that either set of rules accepts is consistent.
pub fn judged_lists_are_consistent()
    ensures { (rules : Rules) (H : History) → IsJudged rules H → IsConsistent H }
{}
