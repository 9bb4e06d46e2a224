//! The limits and terms of a job.

ghost use Rattle.std.specs.Prelude.{◌≡◌, ◌≤◌, ◌<◌, true, IfSome, is_some};
ghost use Rattle.grants.specs.Policies.{Terms, is_policy, terms};

use assignment::MOST_OWNERS;
use std::marker::Model;

/// The bound of readings, 2^62 ticks: every reading that a table accepts is below it.
pub const READINGS: u64 = 1 << 62;

/// The longest term of a lease, in ticks.
pub const LONGEST_TERM: u64 = 1 << 32;

/// The greatest number of grants that a table makes.
pub const MOST_GRANTS: u64 = 1 << 32;

/// The policy of a job: its limits on owners and grants, its lease terms and the clock skew.
///
/// Contracts see the [`Terms`] of the policy.
#[derive(Clone, Copy, Debug, PartialEq, Eq)]
pub struct Policy {
    low: u64,
    high: u64,
    skew: u64,
    guard: u64,
    bridge: u64,
    job: u64,
    numbers: u64,
}

impl Model for Policy {
    ghost use Rattle.std.specs.Prelude.{◌≡◌, true};
    ghost use Rattle.grants.specs.Policies.{Terms, is_policy, terms};

    ghost Value = { Terms };

    ghost view = { λ p. terms p.low p.high p.skew p.guard p.bridge p.job p.numbers };

    ghost invariant = { λ p. is_policy (terms p.low p.high p.skew p.guard p.bridge p.job p.numbers) ≡ true };

    ghost inverse = { λ t. record { low = t.low; high = t.high; skew = t.skew; guard = t.guard; bridge = t.bridge; job = t.job; numbers = t.numbers } };
}

impl Policy {
    /// Creates a policy, or returns `None` if an argument is outside its limits.
    ///
    /// - `low`: the fewest owners that a plan gives a slice, 1 to `high`;
    /// - `high`: the most owners of a slice, up to [`MOST_OWNERS`];
    /// - `skew`: how many ticks clocks may be apart, below `guard` and below `bridge`;
    /// - `guard`, `bridge`, `job`: the terms of guard, bridge and job leases in ticks, 1 to
    ///   [`LONGEST_TERM`];
    /// - `numbers`: the most grants that the table makes, 1 to [`MOST_GRANTS`].
    pub fn new(
        low: u64,
        high: u64,
        skew: u64,
        guard: u64,
        bridge: u64,
        job: u64,
        numbers: u64,
    ) -> Option<Self>
        ensures valid { is_some result ≡ is_policy (terms low high skew guard bridge job numbers) }
        ensures value { IfSome result (λ p. p ≡ terms low high skew guard bridge job numbers) }
    {
        let within = |number: u64, most: u64| 1 <= number && number <= most;
        if within(low, high)
            && high <= MOST_OWNERS as u64
            && within(guard, LONGEST_TERM)
            && within(bridge, LONGEST_TERM)
            && within(job, LONGEST_TERM)
            && within(numbers, MOST_GRANTS)
            && skew < guard
            && skew < bridge
        {
            Some(Policy {
                low,
                high,
                skew,
                guard,
                bridge,
                job,
                numbers,
            })
        } else {
            None
        }
    }

    /// Returns the fewest owners that a plan gives a slice, if the job has that many tasks.
    ///
    /// A proposal may give a slice fewer.
    pub fn low(self) -> u64
        ensures { result ≡ self.low }
    {
        self.low
    }

    /// Returns the most owners that a slice may have.
    pub fn high(self) -> u64
        ensures { result ≡ self.high }
    {
        self.high
    }

    /// Returns how many ticks clocks may be apart.
    pub fn skew(self) -> u64
        ensures { result ≡ self.skew }
    {
        self.skew
    }

    /// Returns how many ticks a guard lease lasts.
    pub fn guard(self) -> u64
        ensures value { result ≡ self.guard }
        ensures within { (1 ≤ result) × (result ≤ LONGEST_TERM) × (self.skew < result) }
    {
        self.guard
    }

    /// Returns how many ticks a bridge lease lasts.
    pub fn bridge(self) -> u64
        ensures value { result ≡ self.bridge }
        ensures within { (1 ≤ result) × (result ≤ LONGEST_TERM) × (self.skew < result) }
    {
        self.bridge
    }

    /// Returns how many ticks a job lease lasts.
    pub fn job(self) -> u64
        ensures value { result ≡ self.job }
        ensures within { (1 ≤ result) × (result ≤ LONGEST_TERM) }
    {
        self.job
    }

    /// Returns how many grants the table may make.
    pub fn numbers(self) -> u64
        ensures value { result ≡ self.numbers }
        ensures within { (1 ≤ result) × (result ≤ MOST_GRANTS) }
    {
        self.numbers
    }
}

/// States that every policy is within its limits.
pub fn policy_law(policy: Policy)
    ensures { is_policy policy ≡ true }
{}
