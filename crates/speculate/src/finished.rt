//! A board on which all lines are committed.

ghost use Rattle.std.specs.Prelude.{◌≡◌, ◌<◌, IfErr, IfOk, OnErr, length};
ghost use Rattle.board_steps.specs.Reached.{Reached};
ghost use Rattle.speculate.specs.Finishing.{IsWhole};

use crate::board::{Board, lines_of};
use read_set::{Plan, PlanName};
use std::marker::Model;

/// A board on which all lines are committed: the outcome of a replay.
pub struct Finished<'p, 't, J: PlanName> {
    pub(crate) board: Board<'p, 't, J>,
}

impl<J: PlanName> Drop for Finished<'_, '_, J> {
    fn drop(self) {
        let Finished { board: _ } = self;
    }
}

impl<'p, 't, J: PlanName> Model for Finished<'p, 't, J> {
    ghost use Rattle.std.specs.Coded.{codes};
    ghost use Rattle.std.specs.FinMap as fin;
    ghost use Rattle.board_steps.specs.Board as steps;

    ghost Value = { steps.Board };

    ghost coded = { Prim.hlevel (codes, fin.code) };

    ghost use Rattle.speculate.specs.Finishing.{IsWhole};

    ghost view = { λ f. f.board };

    ghost invariant = { λ f. IsWhole f.board };
}

/// A board on which some line isn't committed, and how many lines are.
pub struct Open<'p, 't, J: PlanName> {
    pub board: Board<'p, 't, J>,
    pub committed: u64,
}

impl<J: PlanName> Drop for Open<'_, '_, J> {
    fn drop(self) {
        let Open {
            board: _,
            committed: _,
        } = self;
    }
}

impl<'p, 't, J: PlanName> Open<'p, 't, J> {
    /// Gives the board, as it was left.
    pub fn into_board(self) -> Board<'p, 't, J>
        ensures { result ≡ self.entry.board }
    {
        let Open {
            board,
            committed: _,
        } = self;
        board
    }
}

impl<'p, 't, J: PlanName> Board<'p, 't, J> {
    /// Gives the outcome of the replay exactly if all lines are committed; else the board as it
    /// was, with the number of committed lines.
    pub fn finish(self) -> Result<Finished<'p, 't, J>, Open<'p, 't, J>>
        ensures finished { IfOk result (λ finished. (finished ≡ self.entry) × IsWhole self.entry) }
        ensures all { IsWhole self.entry → OnErr result ⊥ }
        ensures still { IfErr result
            (λ rest. (rest.board ≡ self.entry) × (rest.committed ≡ self.entry.committed)
            × (rest.committed < length J.plan.readings)) }
    {
        let committed = self.committed();
        let plan = self.plan();
        if committed < lines_of(plan) as u64 {
            return Err(Open {
                board: self,
                committed,
            });
        }
        Ok(Finished { board: self })
    }
}

impl<'p, 't, J: PlanName> Finished<'p, 't, J> {
    /// Gives the plan of which the board was made. The contract also says that all lines are
    /// committed, and gives `Reached`, which holds of every board that steps lead to.
    pub fn plan(&self) -> &'p Plan
        ensures plan { result.now ≡ J.plan }
        ensures reached { Reached J.plan self.now }
        ensures whole { IsWhole self.now }
    {
        self.board.plan()
    }
}
