//! Laws that hold of loads and totals.

ghost use Rattle.std.specs.Prelude.{◌≡◌, ◌≤◌, ◌+◌, ℕ, List, [], ◌∷◌, None, sum, sum_by};
ghost use Rattle.assignment.specs.declared.slice.Slice.{Slice};
ghost use Rattle.assignment.specs.declared.task.TheConstants.{TASKS};
ghost use Rattle.assignment.specs.Slices.{refusal_of};
ghost use Rattle.load_ledger.specs.Shares.{Share};
ghost use Rattle.load_ledger.specs.Loads.{slice_loads};
ghost use Rattle.load_ledger.specs.Books.{book_of, book_with, records_of, shares_total, task_total, weight_of};

/// States that the loads of a gather add up to the weights of its shares.
///
/// Each record therefore counts for exactly one slice.
pub fn loads_law()
    ensures { (slices : List Slice) (shares : List Share) → refusal_of slices ≡ None
        → sum (slice_loads slices (records_of shares)) ≡ shares_total shares }
{}

/// States that the total of a task is the sum of all weights in its shares.
///
/// This holds after every list of gathers.
pub fn totals_law()
    ensures next { (shares : List Share) (gathers : List (List Share))
        → book_with shares (book_of gathers) ≡ book_of (shares ∷ gathers) }
    ensures total { (gathers : List (List Share)) (task : ℕ) → 1 ≤ task → task ≤ TASKS
        → task_total (book_of gathers) task ≡ sum_by (weight_of task) gathers }
{}
