//! The policies of tables and plans, as numbers.

ghost use Rattle.std.specs.Prelude.{◌≡◌, IfSome, is_some};
ghost use Rattle.grants.specs.Policies.{is_policy};
ghost use Rattle.weighted_move.specs.Policies as planning;
ghost use Rattle.c_calls.specs.PolicyNumbers.{terms_of, plan_terms_of};

use grants::Policy;
use weighted_move::PlanPolicy;

/// The policy of a table.
#[repr(C)]
#[derive(Clone, Copy, Debug, PartialEq, Eq)]
pub struct PolicyNumbers {
    /// The least number of tasks that own a slice.
    pub low: u64,
    /// The greatest number of tasks that own a slice.
    pub high: u64,
    /// How far clocks may be apart, in ticks.
    pub skew: u64,
    /// How long a guard lease lasts, in ticks.
    pub guard: u64,
    /// How long a bridge lease lasts, in ticks.
    pub bridge: u64,
    /// How long the job lease lasts, in ticks.
    pub job: u64,
    /// How many grants the table may make.
    pub numbers: u64,
}

impl PolicyNumbers {
    /// Returns the policy, or `None` if a number is outside its limits.
    pub fn policy(&self) -> Option<Policy>
        ensures valid { is_some result ≡ is_policy (terms_of self.now) }
        ensures value { IfSome result (λ p. p ≡ terms_of self.now) }
    {
        Policy::new(
            self.low,
            self.high,
            self.skew,
            self.guard,
            self.bridge,
            self.job,
            self.numbers,
        )
    }
}

/// The policy of a plan.
#[repr(C)]
#[derive(Clone, Copy, Debug, PartialEq, Eq)]
pub struct PlanPolicyNumbers {
    /// The least number of tasks that own a slice.
    pub low: u64,
    /// The greatest number of tasks that own a slice.
    pub high: u64,
    /// How many keys may move.
    pub churn: u64,
    /// The load up to which neighbouring slices merge.
    pub cold: u64,
    /// The load above which a slice is halved.
    pub hot: u64,
    /// How many slices there may be after slices are halved.
    pub most: u64,
}

impl PlanPolicyNumbers {
    /// Returns the policy, or `None` if a number is outside its limits.
    pub fn policy(&self) -> Option<PlanPolicy>
        ensures valid { is_some result ≡ planning.is_policy (plan_terms_of self.now) }
        ensures value { IfSome result (λ p. p ≡ plan_terms_of self.now) }
    {
        PlanPolicy::new(
            self.low, self.high, self.churn, self.cold, self.hot, self.most,
        )
    }
}
