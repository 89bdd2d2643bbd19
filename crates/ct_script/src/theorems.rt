//! Theorems about replayed scripts. Each is the contract of a function that does nothing.
ghost use Rattle.std.specs.Prelude.{◌≡◌, ◌⊎◌, ℕ, true, false, List, ◌++◌};
ghost use Rattle.ct_sexpr.specs.Text.{Located, Ending};
ghost use Rattle.ct_sexpr.specs.Expression.{Expression};
ghost use Rattle.ct_command.specs.Reading.{Read, command};
ghost use Rattle.ct_step.specs.Evidence.{Evidence};
ghost use Rattle.ct_script.specs.declared.replay.Replayed.{Replayed};
ghost use Rattle.ct_script.specs.declared.replay.Standing.{Standing};
ghost use Rattle.ct_step.specs.State.{State};
ghost use Rattle.ct_step.specs.Step.{CommandEffect, Steps, Step, counted};
ghost use Rattle.ct_script.specs.Answers.{Answers, Leads};
ghost use Rattle.ct_script.specs.Session.{Course};
ghost use Rattle.ct_script.specs.Replay.{is_check, is_undecided, Replays, GoesThrough, HaveOneStack, AnswersThrough, EndsUndecided};

use ct_generics::additions;

/// A replay changes declarations, assertions, levels and options as the commands do, whatever was
/// answered. It does nothing: a proof that needs these theorems calls it.
pub fn replayed_scripts()
    // What was read on a line makes of one stack and the same options one stack and the same
    // options, whatever was kept and however many checks there were.
    ensures step { (s t : State) (number count line : ℕ) (read : Read) (e f : CommandEffect)
        → HaveOneStack s t
        → Steps s number line read e
        → Steps t count line read f
        → HaveOneStack e.state f.state }

    // Where it is no check and awaits no verdict it ends the script, or does not, whatever was kept.
    ensures stop { (s t : State) (number count line : ℕ) (read : Read) (e f : CommandEffect)
        → HaveOneStack s t
        → is_undecided read ≡ false
        → Steps s number line read e
        → Steps t count line read f
        → f.stop ≡ e.stop }

    // A check leaves them.
    ensures check { (s : State) (number line : ℕ) (read : Read) (e : CommandEffect)
        → is_check read ≡ true
        → Steps s number line read e
        → HaveOneStack s e.state }

    // So an expression that is replayed makes of them what its step makes of them, ends the script
    // with it where that is no matter of a verdict, and counts as its step does.
    ensures replayed { (s : State) (number line : ℕ) (x : Expression) (e : CommandEffect) (old new : Course)
        (standing : Standing) (r : Replayed)
        → HaveOneStack s old.state
        → Step s number line x e
        → Replays old standing line (command x) new r
        → HaveOneStack e.state new.state × (is_undecided (command x) ≡ false → r.stop ≡ e.stop) }
    ensures counted { (line : ℕ) (x : Expression) (old new : Course) (standing : Standing) (r : Replayed)
        → Replays old standing line (command x) new r
        → new.number ≡ counted old.number x }

    // It tells of each check, and of nothing else, that it is one.
    ensures told { (line : ℕ) (x : Expression) (old new : Course) (standing : Standing) (r : Replayed)
        → Replays old standing line (command x) new r
        → r.check ≡ is_check (command x) }

    // And a replay of commands comes to the stack, the options and the number of checks to which
    // the commands lead.
    ensures replay { (s last : State) (number count : ℕ) (cs : List Located)
        (kept : Evidence) (errors : List (ℕ × ℕ)) (lines : List (List ℕ))
        (old new : Course) (standing : Standing)
        → Leads s number cs last count kept errors lines
        → GoesThrough old standing cs new
        → HaveOneStack s old.state
        → HaveOneStack last new.state }
    ensures count { (s last : State) (number count : ℕ) (cs : List Located)
        (kept : Evidence) (errors : List (ℕ × ℕ)) (lines : List (List ℕ))
        (old new : Course) (standing : Standing)
        → Leads s number cs last count kept errors lines
        → GoesThrough old standing cs new
        → old.number ≡ number
        → new.number ≡ count }

    // Where it goes through the first commands of a script, the answers to the script go through
    // them too: they lead to a state in which the other commands are answered. Or the script ends at
    // one of these commands, which is refused under immediate exit as a verdict has it.
    ensures through { (s : State) (number : ℕ) (first others : List Located) (ending : Ending)
        (kept : Evidence) (errors : List (ℕ × ℕ)) (lines : List (List ℕ))
        (old new : Course) (standing : Standing)
        → Answers s number (first ++ others) ending kept errors lines
        → GoesThrough old standing first new
        → HaveOneStack s old.state
        → ((last : State) × (count : ℕ)
        × AnswersThrough s number first others ending kept errors lines last count)
        ⊎ EndsUndecided s number first kept errors lines }
{
    additions();
}
