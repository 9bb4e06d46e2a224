//! The loads of tasks.

ghost use Rattle.std.specs.Prelude.{◌≡◌, ℕ, ◌+◌, ◌<◌, ◌≤◌, ◌^◌};
ghost use Rattle.weighted_move.specs.Loads.{added_to, load_of, load_in, total_load};
ghost use Rattle.weighted_move.specs.Owning.{without_task};
ghost use Rattle.weighted_move.specs.Moves.{greatest};
ghost use Rattle.weighted_move.specs.Fitting.{heavier, lighter, most_loaded, least_loaded, strangers};

use crate::loaded_slice::LoadedSlice;
use crate::owners::Owners;
use assignment::TaskId;
use std::marker::Model;

/// The load of each task.
#[derive(Drop)]
pub struct TaskLoads {
    // By the number of the task; no task has number 0.
    by_number: [u64; 65],
}

impl Model for TaskLoads {
    ghost use Rattle.std.specs.Prelude.{◌≡◌, ℕ, List, length};

    ghost Value = { List ℕ };

    ghost view = { λ l. l.by_number };

    ghost invariant = { λ l. length l.by_number ≡ 65 };
}

impl TaskLoads {
    // All loads 0.
    fn none() -> Self
        ensures { (task : ℕ) → load_in result task ≡ 0 }
    {
        let by_number = [0; 65];
        TaskLoads { by_number }
    }

    /// Computes the loads of the tasks that own slices of a list.
    pub fn of(slices: &[LoadedSlice]) -> Self
        requires { total_load slices.now < 2 ^ 62 }
        ensures { (task : ℕ) → load_in result task ≡ load_of slices.now task }
    {
        let mut loads = TaskLoads::none();
        for slice in slices {
            loads.add(slice);
        }
        loads
    }

    /// Returns the load of a task.
    pub fn of_task(&self, task: TaskId) -> u64
        ensures { result ≡ load_in self.now task }
    {
        self.by_number[task.number() as usize]
    }

    /// Returns the first of the tasks with the least load, if there are tasks.
    pub fn lowest(&self, tasks: &[TaskId]) -> Option<TaskId>
        ensures { result ≡ least_loaded (load_in self.now) tasks.now }
    {
        let mut least = None;
        for task in tasks {
            least = Some(self.lighter(least, *task));
        }
        least
    }

    /// Returns the greatest load of the tasks, or 0 if there are none.
    pub fn greatest(&self, tasks: &[TaskId]) -> u64
        ensures { result ≡ greatest (load_in self.now) tasks.now }
    {
        let mut most: u64 = 0;
        for task in tasks {
            most = most.max(self.of_task(*task));
        }
        most
    }

    /// Returns the greatest load of the tasks other than `left_out`, or 0 if there are none.
    pub fn greatest_without(&self, left_out: TaskId, tasks: &[TaskId]) -> u64
        ensures { result ≡ greatest (load_in self.now) (without_task left_out tasks.now) }
    {
        let mut most: u64 = 0;
        for task in tasks {
            if *task != left_out {
                most = most.max(self.of_task(*task));
            }
        }
        most
    }

    /// Returns the first of the tasks with the greatest load, if there are tasks.
    pub fn most_loaded(&self, tasks: &[TaskId]) -> Option<TaskId>
        ensures { result ≡ most_loaded (load_in self.now) tasks.now }
    {
        let mut most = None;
        for task in tasks {
            most = Some(self.heavier(most, *task));
        }
        most
    }

    /// Returns the first task with the least load that is not among the owners, if there is one.
    pub fn least_loaded(&self, tasks: &[TaskId], owners: &Owners) -> Option<TaskId>
        ensures { result ≡ least_loaded (load_in self.now) (strangers tasks.now owners.now) }
    {
        let mut least = None;
        for task in tasks {
            if !owners.contains(*task) {
                least = Some(self.lighter(least, *task));
            }
        }
        least
    }

    fn heavier(&self, known: Option<TaskId>, task: TaskId) -> TaskId
        ensures { result ≡ heavier (load_in self.now) known task }
    {
        match known {
            Some(known) if self.of_task(task) <= self.of_task(known) => known,
            _ => task,
        }
    }

    fn lighter(&self, known: Option<TaskId>, task: TaskId) -> TaskId
        ensures { result ≡ lighter (load_in self.now) known task }
    {
        match known {
            Some(known) if self.of_task(known) <= self.of_task(task) => known,
            _ => task,
        }
    }

    /// Subtracts the share of a slice from the load of each of its owners.
    pub fn remove(&mut self, slice: &LoadedSlice)
        requires { (task : ℕ) → added_to task slice.now ≤ load_in self.old task }
        ensures { (task : ℕ) → load_in self.new task + added_to task slice.now ≡ load_in self.old task }
    {
        if slice.owners.as_slice().is_empty() {
            return;
        }
        let share = slice.share();
        for owner in slice.owners.as_slice() {
            let number = owner.number() as usize;
            self.by_number[number] -= share;
        }
    }

    /// Adds the share of a slice to the load of each of its owners.
    pub fn add(&mut self, slice: &LoadedSlice)
        requires { (task : ℕ) → load_in self.old task + slice.now.load < 2 ^ 62 }
        ensures { (task : ℕ) → load_in self.new task ≡ load_in self.old task + added_to task slice.now }
    {
        if slice.owners.as_slice().is_empty() {
            return;
        }
        let share = slice.share();
        for owner in slice.owners.as_slice() {
            let number = owner.number() as usize;
            self.by_number[number] += share;
        }
    }
}
