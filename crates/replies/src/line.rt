//! The lines that are written for replies.

ghost use Rattle.std.specs.Prelude.{◌≡◌, Some};
ghost use Rattle.std.specs.List.{flat_map};
ghost use Rattle.replies.specs.Lines.{hex_16, verdict_words, phase_words, owners_text, row_text, rows_text, next_number, reply_text};

use crate::plan_line::{MovesText, SlicesText};
use crate::reply::Reply;
use crate::words::{RefusalWords, action_word};
use assignment::TaskId;
use grants::{Phase, Row};
use lease_rule::{Ground, Verdict};
use std::fmt;
use wire::kind_word;

/// A number, written as 16 hexadecimal digits.
#[derive(Clone, Copy)]
pub struct Hex(pub u64);

impl fmt::Display for Hex {
    ghost output = { λ h. Some (hex_16 h.0) };

    #[tactic(auto, using(crate::proofs::HexDigits::padded_hex))]
    fn fmt<W: fmt::Write>(&self, f: &mut fmt::Formatter<W>) -> fmt::Result {
        let number = self.0;
        write!(f, "{number:016x}")
    }
}

/// Tasks, joined by commas.
#[derive(Clone, Copy)]
struct OwnersText<'a>(&'a [TaskId]);

impl fmt::Display for OwnersText<'_> {
    ghost output = { λ o. Some (owners_text o.0.now) };

    fn fmt<W: fmt::Write>(&self, f: &mut fmt::Formatter<W>) -> fmt::Result {
        let [first, others @ ..] = self.0 else {
            return Ok(());
        };
        write!(f, "{first}")?;
        for task in others {
            write!(f, ",{task}")?;
        }
        Ok(())
    }
}

/// A row of the table, its parts joined by colons.
#[derive(Clone, Copy)]
struct RowText(Row);

impl fmt::Display for RowText {
    ghost output = { λ r. Some (row_text r.0) };

    #[tactic(auto, unfolding(crate::specs::Lines::row_text))]
    fn fmt<W: fmt::Write>(&self, f: &mut fmt::Formatter<W>) -> fmt::Result {
        let Row {
            number,
            task,
            life,
            kind,
            generation,
            table_ends,
        } = self.0;
        write!(f, "{number}:{task}:{life}")?;
        write!(f, ":{}:{generation}:{table_ends}", kind_word(kind))
    }
}

/// Rows of the table, joined by spaces.
#[derive(Clone, Copy)]
struct RowsText<'a>(&'a [Row]);

impl fmt::Display for RowsText<'_> {
    ghost output = { λ r. Some (rows_text r.0.now) };

    #[tactic(auto, unfolding(crate::specs::Lines::rows_text))]
    fn fmt<W: fmt::Write>(&self, f: &mut fmt::Formatter<W>) -> fmt::Result {
        let [first, others @ ..] = self.0 else {
            return Ok(());
        };
        write!(f, "{}", RowText(*first))?;
        for row in others {
            write!(f, " {}", RowText(*row))?;
        }
        Ok(())
    }
}

/// The words for a verdict.
#[derive(Clone, Copy)]
struct VerdictWords(Verdict);

impl fmt::Display for VerdictWords {
    ghost output = { λ v. Some (verdict_words v.0) };

    fn fmt<W: fmt::Write>(&self, f: &mut fmt::Formatter<W>) -> fmt::Result {
        match self.0 {
            Verdict::Allow { kind, generation } => {
                write!(f, "served {} {generation}", kind_word(kind))
            }
            Verdict::Deny(Ground::Down) => f.write_str("denied down"),
            Verdict::Deny(Ground::ClockBack) => f.write_str("denied clock-back"),
            Verdict::Deny(Ground::Ended) => f.write_str("denied ended"),
            Verdict::Deny(Ground::NotOwned { generation }) => {
                write!(f, "denied not-owned {generation}")
            }
            Verdict::Deny(Ground::NoLease) => f.write_str("denied no-lease"),
        }
    }
}

/// The words for the table's phase.
#[derive(Clone, Copy)]
struct PhaseWords(Phase);

impl fmt::Display for PhaseWords {
    ghost output = { λ p. Some (phase_words p.0) };

    fn fmt<W: fmt::Write>(&self, f: &mut fmt::Formatter<W>) -> fmt::Result {
        match self.0 {
            Phase::Steady(generation) => write!(f, "steady {generation}"),
            Phase::Bridging(from, to) => write!(f, "bridging {from} {to}"),
        }
    }
}

/// Numbers, each after a space.
#[derive(Clone, Copy)]
struct Spaced<'a>(&'a [u64]);

impl fmt::Display for Spaced<'_> {
    ghost output = { λ n. Some (flat_map next_number n.0.now) };

    fn fmt<W: fmt::Write>(&self, f: &mut fmt::Formatter<W>) -> fmt::Result {
        for number in self.0 {
            write!(f, " {number}")?;
        }
        Ok(())
    }
}

/// The line that is written for a reply, without its line feed. `NoMemory` has no line.
#[derive(Clone, Copy)]
pub struct Line<'a>(pub &'a Reply);

impl fmt::Display for Line<'_> {
    ghost output = { λ l. Some (reply_text l.0.now) };

    fn fmt<W: fmt::Write>(&self, f: &mut fmt::Formatter<W>) -> fmt::Result {
        match self.0 {
            Reply::Key(key) => write!(f, "key {}", Hex(key.value())),
            Reply::Assigned { generation, slices } => {
                write!(f, "assigned {generation} slices {slices}")
            }
            Reply::Owners(owners) => write!(f, "owners {}", OwnersText(owners.as_slice())),
            Reply::Verdict(verdict) => write!(f, "{}", VerdictWords(*verdict)),
            Reply::Term(term) => write!(f, "term {} until {}", term.number, term.until),
            Reply::Renewed(term) => write!(f, "renewed {} until {}", term.number, term.until),
            Reply::Proposed(generation) => write!(f, "proposed {generation}"),
            Reply::Committed(generation) => write!(f, "committed {generation}"),
            Reply::Phase(phase) => write!(f, "phase {}", PhaseWords(*phase)),
            Reply::Rows(rows) => write!(f, "rows [{}]", RowsText(rows.as_slice())),
            Reply::Granted(grant) => write!(
                f,
                "grant {} {} {} until {} {}",
                grant.number,
                kind_word(grant.lease.kind),
                grant.lease.generation,
                grant.table_ends,
                grant.lease.ends
            ),
            Reply::Freed(rows) => write!(f, "freed {rows}"),
            Reply::Started(life) => write!(f, "started {life}"),
            Reply::Heard(number) => write!(f, "heard {number}"),
            Reply::Released { number, note } => {
                write!(f, "released note {number} number {}", note.number)
            }
            Reply::Holding { number, handle: _ } => write!(f, "handle {number}"),
            Reply::Continuous => f.write_str("continuous"),
            Reply::Broken => f.write_str("broken"),
            Reply::Learnt(generation) => write!(f, "learnt {generation}"),
            Reply::Found(found) => {
                let owners = OwnersText(found.owners.as_slice());
                write!(f, "found generation {} owners {owners}", found.generation)
            }
            Reply::Forgotten => f.write_str("forgotten"),
            Reply::Recorded(total) => write!(f, "recorded {total}"),
            Reply::Gathered { loads, totals } => {
                let loads = Spaced(loads.as_slice());
                write!(f, "loads{loads} totals{}", Spaced(totals.as_slice()))
            }
            Reply::Planned(plan) => {
                let slices = SlicesText(plan.slices.as_slice());
                write!(
                    f,
                    "plan [{slices}] moves [{}]",
                    MovesText(plan.moves.as_slice())
                )
            }
            Reply::Next(action) => write!(f, "next {}", action_word(*action)),
            Reply::TermDropped => f.write_str("restarted"),
            Reply::Lost(rows) => write!(f, "lost {rows}"),
            Reply::Refused(refusal) => write!(f, "refused {}", RefusalWords(*refusal)),
            Reply::NoMemory => f.write_str("no-memory"),
        }
    }
}
