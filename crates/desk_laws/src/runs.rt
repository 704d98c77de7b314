//! Laws of runs.

ghost use Rattle.std.specs.Prelude.{◌≡◌, ◌≢◌, ℕ, None, List, ◌++◌};
ghost use Rattle.desk_types.specs.declared.command.Command.TheVariants.{CountsTaken};
ghost use Rattle.desk_types.specs.declared.command.Stamped.{Stamped};
ghost use Rattle.desk_types.specs.declared.count.CountRow.{CountRow};
ghost use Rattle.desk_types.specs.declared.rules.Rules.{Rules};
ghost use Rattle.desk_types.specs.declared.rules.Rules.TheVariants.{One, Two};
ghost use Rattle.desk_types.specs.History.{History};
ghost use Rattle.desk_types.specs.Refusals.{refusal_of};
ghost use Rattle.desk_types.specs.Outcome.{reply_to, replies_to, after_commands};
ghost use Rattle.desk_types.specs.Judged.{IsLawful};

/// A run can be split in two: the second part gives the same replies and history when it starts
/// from the history of the first. Holds for any history and either set of rules.
pub fn run_in_parts()
    // It doesn't matter to the answers where a program stopped and went on.
    ensures replies { (rules : Rules) (H : History) (first second : List Stamped)
        → replies_to rules H (first ++ second) ≡ replies_to rules H first
        ++ replies_to rules (after_commands rules H first) second }
    // Nor does it matter to the history.
    ensures entries { (rules : Rules) (H : History) (first second : List Stamped)
        → after_commands rules H (first ++ second)
        ≡ after_commands rules (after_commands rules H first) second }
{}

/// Rules Two accept every command that rules One accept, with the same reply. So every lawful
/// history under rules One is lawful under rules Two.
pub fn accepted_under_both()
    ensures answers { (H : History) (s : Stamped)
        → refusal_of One H s ≡ None → reply_to Two H s ≡ reply_to One H s }
    // So a file of version 1 can be migrated without a change of its history.
    ensures lawful { (greatest : ℕ) (H : History) → IsLawful One greatest H
        → IsLawful Two greatest H }
{}

/// The two sets of rules refuse all commands except counts for the same reasons. Holds for any
/// history.
pub fn rules_differ_in_counts_alone()
    ensures { (H : History) (s : Stamped)
        → ((counts : List CountRow) → s.command ≢ CountsTaken counts)
        → refusal_of One H s ≡ refusal_of Two H s }
{}
