// The running task, or none.
ghost use Rattle.std.specs.Prelude.{◌≡◌};
ghost use Rattle.machine.specs.Running.{someone, same_running};
ghost use Rattle.machine.specs.Sorts.{runner_at};

use machine::Running;

// Whether a task runs.
pub fn is_someone(r: Running) -> bool
    ensures { result ≡ someone r }
{
    r.is_some()
}

// Whether two say the same: the same task, or none.
pub fn is_same(a: Running, b: Running) -> bool
    ensures { result ≡ same_running a b }
{
    a == b
}

// The running task, or task 0 where nobody runs.
pub fn runner_at(r: Running) -> usize
    ensures { result ≡ runner_at r }
{
    r.unwrap_or(0) as usize
}
