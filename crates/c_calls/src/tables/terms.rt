//! Terms of the job lease and phases of a table, as numbers.

ghost use Rattle.std.specs.Prelude.{◌≡◌};
ghost use Rattle.c_calls.specs.tables.Terms.{phase_numbers, phase_of, term_numbers, term_of};

use grants::{JobTerm, Phase};

/// A term of the job lease.
#[repr(C)]
#[derive(Clone, Copy, Debug, PartialEq, Eq)]
pub struct TermNumbers {
    /// The number of the term.
    pub number: u64,
    /// The assigner that holds it.
    pub assigner: u64,
    /// The first reading, in ticks, at which the term has ended.
    pub until: u64,
}

impl TermNumbers {
    /// Returns the numbers of a term.
    pub fn of(term: JobTerm) -> Self
        ensures { result ≡ term_numbers term }
    {
        TermNumbers {
            number: term.number,
            assigner: term.assigner,
            until: term.until,
        }
    }

    /// Returns the term with these numbers.
    pub fn term(&self) -> JobTerm
        ensures { result ≡ term_of self.now }
    {
        JobTerm {
            number: self.number,
            assigner: self.assigner,
            until: self.until,
        }
    }
}

/// The phase of a table: its committed and its proposed generation.
#[repr(C)]
#[derive(Clone, Copy, Debug, PartialEq, Eq)]
pub struct PhaseNumbers {
    /// The committed generation, 0 before the first commit.
    pub committed: u64,
    /// The proposed generation: 0 if none is proposed, otherwise `committed` + 1.
    pub proposed: u64,
}

impl PhaseNumbers {
    /// Returns the numbers of a phase.
    pub fn of(phase: Phase) -> Self
        ensures { result ≡ phase_numbers phase }
    {
        match phase {
            Phase::Steady(committed) => PhaseNumbers {
                committed,
                proposed: 0,
            },
            Phase::Bridging(committed, proposed) => PhaseNumbers {
                committed,
                proposed,
            },
        }
    }

    /// Returns the phase, or `None` if `proposed` is neither 0 nor `committed` + 1.
    pub fn phase(&self) -> Option<Phase>
        ensures { result ≡ phase_of self.now }
    {
        if self.proposed == 0 {
            Some(Phase::Steady(self.committed))
        } else if self.proposed - 1 == self.committed {
            Some(Phase::Bridging(self.committed, self.proposed))
        } else {
            None
        }
    }
}
