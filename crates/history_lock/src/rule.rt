//! The rule of a lock over lanes, and what each step tells.
//!
//! A lane is a word and a slot with its state. The word is 0 while the state is in its slot, 1 while a
//! pass reads, and `n + 2` while the pass of lane n writes. `specs/Rule.antt` has the rule. Every
//! lane state has the machine, and that of the last lane has the history. The words of two lanes are a
//! cache line apart, so that readers do not share a cache line; the words between them stay 0.

use crate::view::{LaneState, Opened, SeatView};
use atomic_table::{Join, Play, Seat, Shared, Split, Table, TableRule};
use machines::Machine;
use std::alloc::Global;
use std::snapshot::Snapshot;

/// The number of table words per lane, as many as a cache line has; only the first one is used.
pub(crate) const WORDS_A_LANE: usize = 8;

pub type LaneTable<M, E> = Table<
    Option<LaneState<M, E>>,
    SeatView<M, E>,
    Snapshot<Opened<M>>,
    Lanes,
    Global,
>;

pub type Common<M, E> = Shared<Option<LaneState<M, E>>, SeatView<M, E>, Snapshot<Opened<M>>, Lanes>;

pub type LaneSeat<M, E> = Seat<Option<LaneState<M, E>>, SeatView<M, E>>;

/// The rule of the table: what holds of the words, the lane states and all seats between two steps.
pub struct Lanes;

impl<M: Machine> TableRule<
    Option<LaneState<M, M::Event>>,
    SeatView<M, M::Event>,
    Snapshot<Opened<M>>,
> for Lanes {
    ghost use Rattle.history_lock.specs.Rule.{HasOneHistory};
    ghost use Rattle.history_lock.specs.internals.Views.{first_view};

    ghost holds = { λ key. HasOneHistory M.step key.value };

    ghost first = { λ key. first_view key.value };
}

/// A reader claims its own lane: its lane state comes out, or its word shows which writer holds it.
pub struct Claim;

impl<M: Machine> Play<Option<LaneState<M, M::Event>>, SeatView<M, M::Event>> for Claim {
    ghost use Rattle.history_lock.specs.Rule.{ClaimsOwn};

    ghost then = { ClaimsOwn M.step };
}

/// A writer claims the next lane: its lane state comes out, or its word shows who holds it.
pub struct ClaimNext;

impl<M: Machine> Play<Option<LaneState<M, M::Event>>, SeatView<M, M::Event>> for ClaimNext {
    ghost use Rattle.history_lock.specs.Rule.{ClaimsNext};

    ghost then = { ClaimsNext M.step };
}

/// A writer gives back a lane with a new lane state, which is when its event happens.
pub struct Publish;

impl<M: Machine> Play<Option<LaneState<M, M::Event>>, SeatView<M, M::Event>> for Publish {
    ghost use Rattle.history_lock.specs.Rule.{Publishes};

    ghost then = { Publishes };
}

/// A pass gives back a lane with an unchanged lane state.
pub struct GiveBack;

impl<M: Machine> Play<Option<LaneState<M, M::Event>>, SeatView<M, M::Event>> for GiveBack {
    ghost use Rattle.history_lock.specs.Rule.{GivesBack};

    ghost then = { GivesBack };
}

/// The dealer deals a lane.
pub struct Deal;

impl<M: Machine> Split<SeatView<M, M::Event>> for Deal {
    ghost use Rattle.history_lock.specs.internals.Views.{dealer_after, dealt_view};

    ghost left = { dealer_after };

    ghost right = { dealt_view };
}

/// A pass tells what it has seen.
pub struct Tell;

impl<M: Machine> Split<SeatView<M, M::Event>> for Tell {
    ghost use Rattle.history_lock.specs.internals.Views.{news_view};

    ghost left = { λ v. v };

    ghost right = { news_view };
}

/// A pass learns what another one has seen.
pub struct Meet;

impl<M: Machine> Join<SeatView<M, M::Event>> for Meet {
    ghost use Rattle.history_lock.specs.internals.Views.{view_after_meeting, spent_view};

    ghost both = { view_after_meeting };

    ghost spent = { spent_view };
}

/// The closing lock takes in a pass.
pub struct Gather;

impl<M: Machine> Join<SeatView<M, M::Event>> for Gather {
    ghost use Rattle.history_lock.specs.internals.Views.{view_after_gathering, spent_view};

    ghost both = { view_after_gathering };

    ghost spent = { spent_view };
}
