//! The bounds of a plan, besides the numbers of owners.

ghost use Rattle.std.specs.Prelude.{◌≡◌, IfSome, is_some};
ghost use Rattle.weighted_move.specs.Bounds.{bounds, is_bounds};

use assignment::MOST_SLICES;
use slice_ranges::KEYS;
use std::marker::Model;

/// The bounds of a plan, besides how many tasks may own a slice.
#[derive(Clone, Copy, Debug, PartialEq, Eq)]
pub struct PlanBounds {
    pub(crate) churn: u64,
    pub(crate) cold: u64,
    pub(crate) hot: u64,
    pub(crate) most: u64,
}

impl Model for PlanBounds {
    ghost use Rattle.std.specs.Prelude.{◌≡◌, true};
    ghost use Rattle.weighted_move.specs.Bounds.{Bounds, bounds, is_bounds};

    ghost Value = { Bounds };

    ghost view = { λ b. bounds b.churn b.cold b.hot b.most };

    ghost invariant = { λ b. is_bounds (bounds b.churn b.cold b.hot b.most) ≡ true };

    ghost inverse = { λ v. record { churn = v.churn; cold = v.cold; hot = v.hot; most = v.most } };
}

impl PlanBounds {
    /// Creates bounds, or returns `None` if an argument is outside its limits.
    ///
    /// - `churn`: how many keys the moves of a plan may move in all, up to 2^63;
    /// - `cold`: the load up to which neighbours merge;
    /// - `hot`: the load above which a slice is halved;
    /// - `most`: slices are halved while there are fewer than this many, 1 to 1024.
    pub fn new(churn: u64, cold: u64, hot: u64, most: u64) -> Option<Self>
        ensures valid { is_some result ≡ is_bounds (bounds churn cold hot most) }
        ensures value { IfSome result (λ b. b ≡ bounds churn cold hot most) }
    {
        if churn <= KEYS && 1 <= most && most <= MOST_SLICES as u64 {
            Some(PlanBounds {
                churn,
                cold,
                hot,
                most,
            })
        } else {
            None
        }
    }
}
