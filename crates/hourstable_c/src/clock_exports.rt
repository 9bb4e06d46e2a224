//! The exports for clocks.

ghost use Rattle.std.specs.Prelude.{◌≡◌, ⊤};
ghost use Rattle.clocks.specs.TableClocks.{opened, table_answer, after_table_read};
ghost use Rattle.clocks.specs.TaskClocks.{sample_answer, read_answer};
ghost use Rattle.c_calls.specs.declared.answer.Answer.TheVariants.{Done};
ghost use Rattle.c_calls.specs.Jobs.{job_of};
ghost use Rattle.c_calls.specs.AnswerNumbers.{answer_number};
ghost use Rattle.c_calls.specs.ClockEvidence.{IsWeighedFor};
ghost use Rattle.c_calls.specs.TableClocks.{read_code, read_out};
ghost use Rattle.c_calls.specs.TaskClocks.{IsNew, OnTaskClock, IsSampled, IsRead};
ghost use Rattle.hourstable_c.specs.Returned.{Returns};

use c_calls::{
    PolicyNumbers, evidence, new_task_clock, open_table_clock, read_table_clock, read_task_clock,
    sample_task_clock,
};
use clocks::{TableClock, TaskClockNumbers};
use std::alloc::Global;

/// Writes a task's clock with no sample.
#[unsafe(no_mangle)]
#[tactic(auto, using(crate::proofs::Returning::returns))]
pub extern "C" fn hs_task_clock_new(
    clock: &mut TaskClockNumbers,
    extra: u64,
    per: u64,
    grain: u64,
    oldest: u64,
) -> i32
    ensures { Returns (IsNew extra per grain oldest clock.old clock.new) result }
{
    new_task_clock(clock, extra, per, grain, oldest).number()
}

/// Takes an answer of the table.
#[unsafe(no_mangle)]
#[tactic(auto, using(crate::proofs::Returning::returns))]
pub extern "C" fn hs_task_clock_sample(
    clock: &mut TaskClockNumbers,
    sent: u64,
    reading: u64,
    now: u64,
) -> i32
    ensures { Returns (λ answer. OnTaskClock clock.old clock.new answer ⊤
        (λ known. IsSampled known sent reading now clock.old clock.new answer (sample_answer known sent now))) result }
{
    sample_task_clock(clock, sent, reading, now).number()
}

/// Writes the value of a task's clock to `out`.
#[unsafe(no_mangle)]
#[tactic(auto, using(crate::proofs::Returning::returns))]
pub extern "C" fn hs_task_clock_read(clock: &mut TaskClockNumbers, now: u64, out: &mut u64) -> i32
    ensures { Returns (λ answer. OnTaskClock clock.old clock.new answer (out.new ≡ out.old)
        (λ known. IsRead known now clock.old clock.new out.old out.new answer (read_answer known now))) result }
{
    read_task_clock(clock, now, out).number()
}

/// Writes the table's clock of a new process.
#[unsafe(no_mangle)]
pub extern "C" fn hs_table_clock_open(
    clock: &mut TableClock,
    kept: u64,
    ahead: u64,
    now: u64,
) -> i32
    ensures number { result ≡ answer_number Done }
    ensures clock { clock.new ≡ opened kept ahead now }
{
    open_table_clock(clock, kept, ahead, now).number()
}

/// Writes the reading of the table's clock to `out`.
#[unsafe(no_mangle)]
pub extern "C" fn hs_table_clock_read(clock: &mut TableClock, now: u64, out: &mut u64) -> i32
    ensures number { result ≡ answer_number (read_code (table_answer clock.old now)) }
    ensures clock { clock.new ≡ after_table_read clock.old now (table_answer clock.old now) }
    ensures out { out.new ≡ read_out (table_answer clock.old now) out.old }
{
    read_table_clock(clock, now, out).number()
}

/// Writes to `out` whether a grant shows that clocks are not timely.
#[unsafe(no_mangle)]
#[tactic(auto, using(crate::proofs::Returning::returns))]
pub extern "C" fn hs_clock_evidence(
    alloc: Global,
    job: &[u8],
    grant: &[u8],
    at: u64,
    policy: &PolicyNumbers,
    out: &mut u32,
) -> i32
    ensures { Returns (IsWeighedFor (job_of job.now) grant.now at policy.now out.old out.new) result }
{
    evidence(alloc, job, grant, at, policy, out).number()
}
