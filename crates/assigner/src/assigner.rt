//! Assigners.

ghost use Rattle.std.specs.Prelude.{◌≡◌, None};
ghost use Rattle.grants.specs.JobTerms.{last_number};
ghost use Rattle.assigner.specs.Actions.{next_action};
ghost use Rattle.assigner.specs.Terms.{opening, is_above_kept, is_adopted, adopted_term};

use crate::action::{Action, View};
use grants::{JobTerm, Phase};
use std::marker::Model;

/// An assigner: it keeps its term of the job lease, and decides what to do next.
#[derive(Clone, Copy, Debug, PartialEq, Eq)]
pub struct Assigner {
    id: u64,
    job_term: u64,
    term: Option<JobTerm>,
}

impl Model for Assigner {
    ghost use Rattle.assigner.specs.Terms.{Keeping};

    ghost Value = { Keeping };

    ghost view = { λ a. record { id = a.id; job_term = a.job_term; term = a.term } };

    ghost inverse = { λ k. record { id = k.id; job_term = k.job_term; term = k.term } };
}

impl Assigner {
    /// Creates the assigner with this number, which keeps no term.
    ///
    /// A job lease lasts `job_term` ticks.
    pub fn new(id: u64, job_term: u64) -> Self
        ensures { result ≡ opening id job_term }
    {
        Assigner {
            id,
            job_term,
            term: None,
        }
    }

    /// Keeps `term` if it is the assigner's own and newer than the kept one, and returns whether it
    /// did.
    ///
    /// A term is newer if its number is greater, or if its number is the same and its `until` is
    /// later. Any term is newer than none.
    pub fn adopt(&mut self, term: JobTerm) -> bool
        ensures adopts { result ≡ is_adopted self.old.id term self.old.term }
        ensures kept { self.new ≡ record self.old { term = adopted_term self.old.id term self.old.term } }
    {
        let is_adopted = term.assigner == self.id && self.is_above_kept(term);
        if is_adopted {
            self.term = Some(term);
        }
        is_adopted
    }

    /// Drops the term that the assigner keeps.
    pub fn drop_term(&mut self)
        ensures { self.new ≡ record self.old { term = None } }
    {
        self.term = None;
    }

    /// Returns the term that the assigner keeps, if any; it may have ended.
    pub fn term(&self) -> Option<JobTerm>
        ensures { result ≡ self.now.term }
    {
        self.term
    }

    /// Returns the number of the term that the assigner keeps, or 0 if it keeps none.
    pub fn number(&self) -> u64
        ensures { result ≡ last_number self.now.term }
    {
        match self.term {
            Some(term) => term.number,
            None => 0,
        }
    }

    /// Returns what the assigner does next.
    ///
    /// The first case that holds decides:
    ///
    /// - no term is kept, or the kept one has ended at the reading: `Take`;
    /// - at most half of `job_term`, rounded down, is left of the term: `Renew`;
    /// - an assignment is proposed: `Commit`;
    /// - another assignment is wanted: `Propose`;
    /// - otherwise: `Rest`.
    pub fn next(&self, view: &View) -> Action
        ensures { result ≡ next_action self.now view.now }
    {
        let Some(term) = self.term else {
            return Action::Take;
        };
        if view.reading >= term.until {
            Action::Take
        } else if term.until - view.reading <= self.job_term / 2 {
            Action::Renew
        } else if matches!(view.phase, Phase::Bridging(..)) {
            Action::Commit
        } else if view.wanted {
            Action::Propose
        } else {
            Action::Rest
        }
    }

    fn is_above_kept(&self, term: JobTerm) -> bool
        ensures { result ≡ is_above_kept term self.now.term }
    {
        match self.term {
            None => true,
            Some(kept) => {
                kept.number < term.number || kept.number == term.number && kept.until < term.until
            }
        }
    }
}
