//! Changes of the owners of a slice, apart from the task that joins them.

ghost use Rattle.std.specs.Prelude.{◌≡◌, ◌+◌, ◌-◌, ◌<◌, ◌^◌};
ghost use Rattle.weighted_move.specs.Kinds.{gain_at};

use assignment::TaskId;

/// The effect of giving a slice to a task, apart from that task's load.
#[derive(Clone, Copy)]
pub struct Exchange {
    /// The owner that leaves the slice, if one does.
    pub giver: Option<TaskId>,
    /// The greatest load of the owners that the exchange touches.
    pub from: u64,
    /// The greatest load of these owners afterwards.
    pub kept: u64,
    /// The load that the task gets.
    pub share: u64,
}

impl Exchange {
    /// Returns the gain of the exchange if the task has this load.
    pub fn gain_at(&self, load: u64) -> u64
        requires { load + self.now.share < 2 ^ 64 }
        ensures { result ≡ gain_at self.now load }
    {
        self.from
            .max(load)
            .saturating_sub(self.kept.max(load + self.share))
    }

    /// Returns the load up to which a task has no greater load than `kept` afterwards.
    pub fn room(&self) -> u64
        ensures { result ≡ self.now.kept - self.now.share }
    {
        self.kept.saturating_sub(self.share)
    }
}
