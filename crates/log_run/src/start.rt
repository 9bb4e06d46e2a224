//! What the machines of an audit begin at.

ghost use Rattle.std.specs.Prelude.{◌≡◌};
ghost use Rattle.cluster.specs.continued.Jobs.{Continued};
ghost use Rattle.cluster.specs.Pasts.{readings};
ghost use Rattle.cluster.specs.Timing.{greatest_reading};
ghost use Rattle.log_run.specs.Starts.{Begins};

use job_calls::{ClusterSnapshot, Job};

/// What the machines of an audit begin at.
#[derive(Drop)]
pub struct Start {
    /// The job.
    pub job: Job,
    /// A snapshot of the machines after the calls of earlier logs, one that
    /// [`Cluster::resume`](cluster::Cluster::resume) takes; `None` if the log begins with the job.
    pub earlier: Option<ClusterSnapshot>,
}

impl Start {
    /// Returns the greatest reading of the table's clock in earlier logs, 0 if there is none.
    pub fn table_reading(&self) -> u64
        ensures { (job : Continued) → Begins job self.now → result ≡ greatest_reading (readings job.earlier) }
    {
        match &self.earlier {
            Some(snapshot) => snapshot.table_reading,
            None => 0,
        }
    }
}
