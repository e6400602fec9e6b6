//! The steps of workers: what a step is, which boards steps lead to, and what holds of them. No
//! code here runs: there are definitions, and laws about them, which say that every list of steps
//! gives the replay by one thread.
//!
//! A board is a value: each line's state, what it has read, and its entries. It uses the meaning of
//! a line (`read_set`) and the visible entry (`version_store`).
#![tactic(auto)]

ghost use Rattle.std.specs.Prelude.{◌≡◌, ◌≢◌, ℕ, suc, ◌+◌, ◌<◌, ◌≤◌, length, List, Option, Some};
ghost use Rattle.circ_records.specs.declared.key.Key.{Key};
ghost use Rattle.sip_answer.specs.declared.answer.Answer.{Answer};
ghost use Rattle.read_set.specs.Plans.{Planned};
ghost use Rattle.read_set.specs.Replay.{answer_of, before, last};
ghost use Rattle.read_set.specs.Settling.{Contents};
ghost use Rattle.read_set.specs.declared.notes.Note.{Note};
ghost use Rattle.board_steps.specs.Board.{Board, IsCommitted, IsLine, Row, entry, entry_over, row_at, value_at};
ghost use Rattle.board_steps.specs.Board.State.{Waiting, Done, Checking, Committed};
ghost use Rattle.board_steps.specs.Choice.{NeedsCheck, StampCounts};
ghost use Rattle.board_steps.specs.Reached.{Counted, EachHeld, Held, Reached};
ghost use Rattle.board_steps.specs.Steps.{ByVersion, Call, CheckStep, CommitStep, IsVersion, LookStep, PublishStep, Reply, Run, SendsBack, Step, TakeStep, changing, opening};

/// The most workers of a run.
pub const WORKERS_MAX: u32 = 64;

/// An opening board is reached, whatever its plan and its numbers.
pub fn opening_is_reached()
    ensures { (plan : Planned) (workers attempt clock : ℕ)
        → Reached plan (opening plan workers attempt clock) }
{}

/// After each of the five calls on a reached board, whatever it answers, the board is reached.
pub fn calls_keep()
    ensures take { (plan : Planned) (old : Board) (w n : ℕ) (reply : Reply) (new : Board)
        → Reached plan old → TakeStep old w n reply new → Reached plan new }
    ensures look { (plan : Planned) (old : Board) (w : ℕ) (k : Key) (reply : Reply) (new : Board)
        → Reached plan old → LookStep plan old w k reply new → Reached plan new }
    ensures publish { (plan : Planned) (old : Board) (w : ℕ) (v : Contents) (reply : Reply)
        (new : Board) → Reached plan old → IsVersion plan v → PublishStep old w v reply new
        → Reached plan new }
    ensures check { (plan : Planned) (old : Board) (w n : ℕ) (reply : Reply) (new : Board)
        → Reached plan old → CheckStep old w n reply new → Reached plan new }
    ensures commit { (plan : Planned) (old : Board) (n : ℕ) (reply : Reply) (new : Board)
        → Reached plan old → CommitStep old n reply new → Reached plan new }
{}

/// After each of the five calls on a reached board, whatever it answers, what was held since a
/// stamp is held.
pub fn calls_hold()
    ensures take { (plan : Planned) (old : Board) (w n : ℕ) (reply : Reply) (new : Board)
        → Reached plan old → TakeStep old w n reply new → EachHeld new }
    ensures look { (plan : Planned) (old : Board) (w : ℕ) (k : Key) (reply : Reply) (new : Board)
        → Reached plan old → LookStep plan old w k reply new → EachHeld new }
    ensures publish { (plan : Planned) (old : Board) (w : ℕ) (v : Contents) (reply : Reply)
        (new : Board) → Reached plan old → IsVersion plan v → PublishStep old w v reply new
        → EachHeld new }
    ensures check { (plan : Planned) (old : Board) (w n : ℕ) (reply : Reply) (new : Board)
        → Reached plan old → CheckStep old w n reply new → EachHeld new }
    ensures commit { (plan : Planned) (old : Board) (n : ℕ) (reply : Reply) (new : Board)
        → Reached plan old → CommitStep old n reply new → EachHeld new }
{}

/// After each step on a reached board, the board is reached.
pub fn steps_keep()
    ensures { (plan : Planned) (old new : Board) (call : Call) (reply : Reply) → Reached plan old
        → ByVersion plan call → Step plan old call reply new → Reached plan new }
{}

/// Whatever the steps, what they lead to is reached.
pub fn runs_are_reached()
    ensures { (plan : Planned) (workers attempt clock : ℕ) (steps : List (Call × Reply))
        (new : Board) → Run plan (opening plan workers attempt clock) steps new → Reached plan new }
{}

/// A line that is done with a stamp, or is being checked: some line below has changed since, or the
/// names that were compared are those of the visible entries. And the counts balance.
pub fn held_since_a_stamp()
    ensures done { (plan : Planned) (b : Board) → Reached plan b
        → (n : ℕ) (notes : List Note) (answer : Option Answer) (t : ℕ)
        → (row_at b n).state ≡ Done notes answer (Some t)
        → Held (row_at b) n notes t (length notes) }
    ensures checking { (plan : Planned) (b : Board) → Reached plan b
        → (w n : ℕ) (notes : List Note) (answer : Option Answer) (t i : ℕ)
        → (row_at b n).state ≡ Checking w notes answer t i → Held (row_at b) n notes t i }
    ensures counted { (plan : Planned) (b : Board) → Reached plan b → Counted b }
{}

/// A committed line's answer is that of the replay by one thread, and its entries, put over the
/// records before it, are the records after it. If all lines are committed, what is visible past
/// the last is what that replay leaves.
pub fn committed_lines()
    ensures answer { (plan : Planned) (b : Board) → Reached plan b
        → (n : ℕ) (answer : Option Answer) → (row_at b n).state ≡ Committed answer
        → answer ≡ answer_of plan n }
    ensures entries { (plan : Planned) (b : Board) → Reached plan b
        → (n : ℕ) (answer : Option Answer) → (row_at b n).state ≡ Committed answer → (k : Key)
        → entry_over (entry (row_at b n) k) k (before plan n k) ≡ before plan (suc n) k }
    ensures last { (plan : Planned) (b : Board) → Reached plan b
        → ((m : ℕ) → IsLine b m → IsCommitted (row_at b m).state) → (k : Key)
        → value_at plan (row_at b) (b.first + length b.rows) k ≡ last plan k }
{}

/// No step changes a committed line; and a line waits again only after a check of it that failed,
/// whose reply says the key, the name that was noted there and the other that is found there, or
/// after a look at a key where the entry of the line that the reply names is suspect.
pub fn steps_spare()
    ensures committed { (plan : Planned) (old new : Board) (call : Call) (reply : Reply) (m : ℕ)
        → IsCommitted (row_at old m).state → Step plan old call reply new
        → row_at new m ≡ row_at old m }
    ensures sent_back { (plan : Planned) (old new : Board) (call : Call) (reply : Reply) (m : ℕ)
        → (row_at old m).state ≢ Waiting → Step plan old call reply new
        → (row_at new m).state ≡ Waiting → SendsBack old m call reply }
{}

/// A reached board and a call fix the reply and the board after it.
pub fn steps_are_determined()
    ensures { (plan : Planned) (old : Board) → Reached plan old
        → (call : Call) (reply : Reply) (new : Board) (other_reply : Reply) (other : Board)
        → Step plan old call reply new → Step plan old call other_reply other
        → (reply ≡ other_reply) × (new ≡ other) }
{}

/// A change of line m: the stamps of the lines above it are no longer valid, those of the lines
/// below it are valid as before, and each other line that needs a check still needs it.
pub fn stamps_after_a_change()
    ensures above { (plan : Planned) (b : Board) → Reached plan b → (m : ℕ) (r : Row) → IsLine b m
        → (n : ℕ) → m < n → StampCounts (row_at b) n → NeedsCheck (row_at (changing b m r)) n }
    ensures below { (plan : Planned) (b : Board) → Reached plan b → (m : ℕ) (r : Row) → IsLine b m
        → (n : ℕ) → n < m → StampCounts (row_at b) n → StampCounts (row_at (changing b m r)) n }
    ensures still { (plan : Planned) (b : Board) → Reached plan b → (m : ℕ) (r : Row) → IsLine b m
        → (n : ℕ) → n ≢ m → NeedsCheck (row_at b) n → NeedsCheck (row_at (changing b m r)) n }
{}
