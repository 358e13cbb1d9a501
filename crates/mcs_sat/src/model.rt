//! Assignments that satisfy the clauses.

ghost use Rattle.std.specs.Prelude.{◌≡◌, ◌<◌, ◌+◌, ◌↔◌, ℕ, pos, length, vec_len, IfOk};
ghost use Rattle.std.specs.Prelude.{IsTrue};
ghost use Rattle.mcs_sat.specs.Answers.{assignment_of};
ghost use Rattle.mcs_engine.specs.Trails.{IsOn};

use mcs_base::Memory;
use mcs_engine::Trail;
use std::alloc::Global;

/// The values of the variables 1 to `vars`. A variable without a value is false.
pub(crate) fn model_of(alloc: Global, trail: &Trail, vars: u64) -> Result<Vec<bool>, Memory>
    requires { vars < length trail.now.positions.items }
    ensures len { IfOk result (λ m. vec_len m ≡ vars) }
    ensures values { IfOk result (λ m. (v : ℕ) → 0 < v → v < vars + 1
        → (IsTrue (assignment_of m.items v) ↔ IsOn trail.now.entries.items (pos v))) }
{
    let mut model = Vec::new(alloc);
    for variable in 1..vars + 1 {
        model.push(trail.is_true(variable as i64))?;
    }
    Ok(model)
}
