ghost use Rattle.std.specs.Prelude.{◌≡◌, ◌≤◌, ◌++◌, ◌∷◌, [], ℕ, All, IfSome, IfNone};
ghost use Rattle.step_runner.specs.Entries.{without};
ghost use Rattle.workload.specs.Children.{FallBelow, other_children, numbers, code_drawn};

/// A child that lives, and the code with which it will end.
#[derive(Clone, Copy, Debug)]
pub(crate) struct LivingChild {
    pub(crate) number: u64,
    pub(crate) code: i32,
}

/// One start in eight fails.
pub(crate) fn code_of(draw: u64) -> i32
    ensures { result ≡ code_drawn draw }
{
    if draw.is_multiple_of(8) { 1 } else { 0 }
}

/// Takes the child with the least number, which is the last one.
pub(crate) fn take_least(children: &mut Vec<LivingChild>) -> Option<LivingChild>
    requires { (bound : ℕ) × FallBelow bound children.old.items }
    ensures least { IfSome result (λ c. All (λ n. c.number ≤ n) (numbers children.old.items)) }
    ensures rest { IfSome result (λ c. children.old.items ≡ children.new.items ++ c ∷ []) }
    ensures left { IfSome result (λ c. numbers children.new.items ≡ without c.number (numbers children.old.items)) }
    ensures none { IfNone result ((children.old.items ≡ []) × (children.new.items ≡ [])) }
    ensures fall { (bound : ℕ) → FallBelow bound children.old.items → FallBelow bound children.new.items }
{
    children.pop()
}

/// Takes a child out of those that live. The others stay in their order.
pub(crate) fn remove_child(children: &mut Vec<LivingChild>, child: u64)
    ensures left { children.new.items ≡ other_children child children.old.items }
    ensures numbers { numbers children.new.items ≡ without child (numbers children.old.items) }
    ensures fall { (bound : ℕ) → FallBelow bound children.old.items → FallBelow bound children.new.items }
{
    children.retain(|c| c.number != child);
}
