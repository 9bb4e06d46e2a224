//! The policy of a plan.

ghost use Rattle.std.specs.Prelude.{◌≡◌, ◌≤◌, IfSome, is_some, true};
ghost use Rattle.weighted_move.specs.Policies.{PlanTerms, is_policy, plan_terms, plan_terms_of};

use crate::plan_bounds::PlanBounds;
use assignment::MOST_OWNERS;
use std::marker::Model;

/// The policy of a plan: its numbers of owners, keys that may move, and loads that merge or halve.
///
/// Contracts see the [`PlanTerms`] of the policy.
#[derive(Clone, Copy, Debug, PartialEq, Eq)]
pub struct PlanPolicy {
    low: u64,
    high: u64,
    bounds: PlanBounds,
}

impl Model for PlanPolicy {
    ghost use Rattle.std.specs.Prelude.{◌≡◌, true};
    ghost use Rattle.weighted_move.specs.Policies.{PlanTerms, is_policy, plan_terms_of};

    ghost Value = { PlanTerms };

    ghost view = { λ p. plan_terms_of p.low p.high p.bounds };

    ghost invariant = { λ p. is_policy (plan_terms_of p.low p.high p.bounds) ≡ true };

    ghost inverse = { λ l. record { low = l.low; high = l.high; bounds = record { churn = l.churn; cold = l.cold; hot = l.hot; most = l.most } } };
}

impl PlanPolicy {
    /// Creates a policy, or returns `None` if an argument is outside its limits.
    ///
    /// - `low`: the fewest tasks that own a slice, 1 or more;
    /// - `high`: the most tasks that own a slice, `low` to 5;
    /// - `churn`: how many keys the moves of a plan may move in all, up to 2^63;
    /// - `cold`: the load up to which neighbours merge;
    /// - `hot`: the load above which a slice is halved;
    /// - `most`: slices are halved while there are fewer than this many, 1 to 1024.
    pub fn new(low: u64, high: u64, churn: u64, cold: u64, hot: u64, most: u64) -> Option<Self>
        ensures valid { is_some result ≡ is_policy (plan_terms low high churn cold hot most) }
        ensures value { IfSome result (λ p. p ≡ plan_terms low high churn cold hot most) }
    {
        PlanPolicy::with_bounds(low, high, PlanBounds::new(churn, cold, hot, most)?)
    }

    /// Creates the policy with these bounds, or returns `None` if `low` or `high` is outside its
    /// limits.
    pub fn with_bounds(low: u64, high: u64, bounds: PlanBounds) -> Option<Self>
        ensures valid { is_some result ≡ is_policy (plan_terms_of low high bounds) }
        ensures value { IfSome result (λ p. p ≡ plan_terms_of low high bounds) }
    {
        if 1 <= low && low <= high && high <= MOST_OWNERS as u64 {
            Some(PlanPolicy { low, high, bounds })
        } else {
            None
        }
    }

    /// Returns the fewest tasks that own a slice.
    pub fn low(&self) -> u64
        ensures value { result ≡ self.now.low }
        ensures policy { is_policy self.now ≡ true }
        ensures within { (1 ≤ result) × (result ≤ self.now.high) }
    {
        self.low
    }

    /// Returns the most tasks that own a slice.
    pub fn high(&self) -> u64
        ensures value { result ≡ self.now.high }
        ensures within { (1 ≤ result) × (result ≤ 5) }
    {
        self.high
    }

    /// Returns how many keys the moves of a plan may move in all.
    pub fn churn(&self) -> u64
        ensures { result ≡ self.now.churn }
    {
        self.bounds.churn
    }

    /// Returns the load up to which neighbours merge.
    pub fn cold(&self) -> u64
        ensures { result ≡ self.now.cold }
    {
        self.bounds.cold
    }

    /// Returns the load above which a slice is halved.
    pub fn hot(&self) -> u64
        ensures { result ≡ self.now.hot }
    {
        self.bounds.hot
    }

    /// Returns the number of slices, in all, up to which slices are halved.
    pub fn most(&self) -> u64
        ensures value { result ≡ self.now.most }
        ensures within { (1 ≤ result) × (result ≤ 1024) }
    {
        self.bounds.most
    }
}
