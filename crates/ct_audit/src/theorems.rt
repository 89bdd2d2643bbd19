//! Theorems about audits. Each is the contract of a function that does nothing.
ghost use Rattle.std.specs.Prelude.{◌⊎◌, ℕ, List, Some};
ghost use Rattle.ct_sexpr.specs.Text.{Located, Ending};
ghost use Rattle.ct_step.specs.Evidence.{Evidence};
ghost use Rattle.ct_step.specs.State.{State, first_state};
ghost use Rattle.ct_script.specs.Answers.{Answers};
ghost use Rattle.ct_script.specs.Replay.{EndsUndecided};
ghost use Rattle.ct_script.specs.Session.{first_course};
ghost use Rattle.ct_replay.specs.Found.{Finds};
ghost use Rattle.ct_audit.specs.AtCheck.{IsAtCheck};

use ct_script::replayed_scripts;

/// What an audit finds at a check of a script is what the script's answers have there. It does
/// nothing: a proof that needs this theorem calls it.
pub fn found_checks()
    // Whatever answers a script has, the state that is found at a check has the stack and the
    // options of the state in which these answers come to that check. Or they end before it, at a
    // command that is refused under immediate exit as a verdict has it.
    ensures found { (script : List Located) (wanted : ℕ) (found : State) (ending : Ending)
        (kept : Evidence) (errors : List (ℕ × ℕ)) (lines : List (List ℕ))
        → Finds first_course script wanted (Some found)
        → Answers first_state 0 script ending kept errors lines
        → IsAtCheck script wanted found ending kept errors lines
        ⊎ EndsUndecided first_state 0 script kept errors lines }
{
    replayed_scripts();
}
