//! What holds of every board to which lists of steps lead.

ghost use Rattle.std.specs.Prelude.{◌≡◌, ◌<◌, ◌⊎◌, ℕ, List};
ghost use Rattle.board_steps.specs.Board.{Board, IsCommitted, IsLine, row_at};
ghost use Rattle.board_steps.specs.Choice.{Choice, IsChoice};
ghost use Rattle.board_steps.specs.Reached.{Reached};
ghost use Rattle.board_steps.specs.Steps.{Call, Reply, Step};
ghost use Rattle.read_set.specs.Plans.{Planned};
ghost use Rattle.speculate.specs.ComingOn.{ComesOn, IsSpent, Names, NoneInHand};
ghost use Rattle.speculate.specs.Playing.{Halts, Plays};
ghost use Rattle.speculate.specs.declared.steps.BoardFault.TheVariants as faults;
ghost use Rattle.speculate.specs.declared.steps.Halt.{Halt};
ghost use Rattle.speculate.specs.declared.steps.Step.{Step as WorkerStep};

/// From a board with `Reached`, each list of steps leads to a board with `Reached`, even if the
/// list stops early. So what holds of these boards holds after `play`.
pub fn plays_are_reached()
    ensures all { (plan : Planned) (old new : Board) (steps : List WorkerStep) → Reached plan old
        → Plays plan old steps new → Reached plan new }
    ensures halt { (plan : Planned) (old new : Board) (steps : List WorkerStep) (halt : Halt)
        → Reached plan old → Halts plan old steps halt new → Reached plan new }
{}

/// A list of steps leads from a board with `Reached` to one board only: each look is at the one key
/// for which the line's rule asks, and each publication is of the one version that the rule results
/// in. If a list can be played to its end, only lack of memory stops it.
pub fn plays_lead_to_one_board()
    ensures one { (plan : Planned) (old new other : Board) (steps : List WorkerStep)
        → Reached plan old → Plays plan old steps new → Plays plan old steps other → new ≡ other }
    ensures memory { (plan : Planned) (old new stopped : Board) (steps : List WorkerStep)
        (halt : Halt) → Reached plan old → Plays plan old steps new
        → Halts plan old steps halt stopped → halt.fault ≡ faults.Memory }
{}

/// No idle board. If no worker has a line in hand and some line isn't committed, the choice of a
/// free worker names a call: to wait or to end is not chosen. That call, made by any worker, makes
/// progress: the worker then has the line in hand, or the line is committed, or checked, or waits
/// again because of a change that the reply names; else its attempts or the clock are used up.
pub fn nobody_waits_for_nobody()
    ensures names { (plan : Planned) (b : Board) (m : ℕ) (choice : Choice) (w : ℕ) → Reached plan b
        → NoneInHand b → IsLine b m → (IsCommitted (row_at b m).state → ⊥) → IsChoice b choice
        → (n : ℕ) × (call : Call) × Names choice w n call }
    ensures comes_on { (plan : Planned) (b new : Board) (choice : Choice) (w n : ℕ) (call : Call)
        (reply : Reply) → Reached plan b → NoneInHand b → w < b.workers → IsChoice b choice
        → Names choice w n call → Step plan b call reply new
        → ComesOn b w n call reply new ⊎ IsSpent n reply }
{}
