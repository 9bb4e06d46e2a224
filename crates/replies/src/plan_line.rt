//! The words of plans.

ghost use Rattle.std.specs.Prelude.{◌≡◌, Some};
ghost use Rattle.replies.specs.Lines.{owners_text, slice_text, slices_text, owner_change_text, move_text, moves_text};

use assignment::{Slice, TaskId};
use std::fmt;
use weighted_move::Move;

/// The numbers of tasks, joined by commas.
#[derive(Clone, Copy)]
struct NumbersText<'a>(&'a [u64]);

impl fmt::Display for NumbersText<'_> {
    ghost output = { λ n. Some (owners_text n.0.now) };

    fn fmt<W: fmt::Write>(&self, f: &mut fmt::Formatter<W>) -> fmt::Result {
        let [first, others @ ..] = self.0 else {
            return Ok(());
        };
        write!(f, "{first}")?;
        for number in others {
            write!(f, ",{number}")?;
        }
        Ok(())
    }
}

/// A slice: its start and its owners.
#[derive(Clone, Copy)]
struct SliceText<'a>(&'a Slice);

impl fmt::Display for SliceText<'_> {
    ghost output = { λ s. Some (slice_text s.0.now) };

    fn fmt<W: fmt::Write>(&self, f: &mut fmt::Formatter<W>) -> fmt::Result {
        let owners = NumbersText(self.0.owners.as_slice());
        write!(f, "{}:{owners}", self.0.start)
    }
}

/// Slices, written one after another and joined by spaces.
#[derive(Clone, Copy)]
pub struct SlicesText<'a>(pub &'a [Slice]);

impl fmt::Display for SlicesText<'_> {
    ghost output = { λ s. Some (slices_text s.0.now) };

    #[tactic(auto, unfolding(crate::specs::Lines::slices_text))]
    fn fmt<W: fmt::Write>(&self, f: &mut fmt::Formatter<W>) -> fmt::Result {
        let [first, others @ ..] = self.0 else {
            return Ok(());
        };
        write!(f, "{}", SliceText(first))?;
        for slice in others {
            write!(f, " {}", SliceText(slice))?;
        }
        Ok(())
    }
}

/// The owner that a slice loses, if any, and the owner that it gets, if any.
#[derive(Clone, Copy)]
struct OwnerChangeText(Option<TaskId>, Option<TaskId>);

impl fmt::Display for OwnerChangeText {
    ghost output = { λ c. Some (owner_change_text c.0 c.1) };

    fn fmt<W: fmt::Write>(&self, f: &mut fmt::Formatter<W>) -> fmt::Result {
        match (self.0, self.1) {
            (Some(giver), Some(taker)) => write!(f, "{giver}>{taker}"),
            (None, Some(taker)) => write!(f, "+{taker}"),
            (Some(giver), None) => write!(f, "-{giver}"),
            (None, None) => Ok(()),
        }
    }
}

/// A move: its slice, the change of its owners, its gain and its churn.
#[derive(Clone, Copy)]
struct MoveText(Move);

impl fmt::Display for MoveText {
    ghost output = { λ m. Some (move_text m.0) };

    #[tactic(auto, unfolding(crate::specs::Lines::move_text))]
    fn fmt<W: fmt::Write>(&self, f: &mut fmt::Formatter<W>) -> fmt::Result {
        let Move {
            start,
            giver,
            taker,
            gain,
            churn,
        } = self.0;
        write!(f, "{start}:{}", OwnerChangeText(giver, taker))?;
        write!(f, " gain {gain} churn {churn}")
    }
}

/// Moves, written one after another and joined by commas and spaces.
#[derive(Clone, Copy)]
pub struct MovesText<'a>(pub &'a [Move]);

impl fmt::Display for MovesText<'_> {
    ghost output = { λ m. Some (moves_text m.0.now) };

    #[tactic(auto, unfolding(crate::specs::Lines::moves_text))]
    fn fmt<W: fmt::Write>(&self, f: &mut fmt::Formatter<W>) -> fmt::Result {
        let [first, others @ ..] = self.0 else {
            return Ok(());
        };
        write!(f, "{}", MoveText(*first))?;
        for one in others {
            write!(f, ", {}", MoveText(*one))?;
        }
        Ok(())
    }
}
