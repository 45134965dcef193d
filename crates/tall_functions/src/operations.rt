//! What a call of a function of values gives, once it is known what it applies to which operands.
ghost use Rattle.tall_local.specs.MemoryFunctions.{memory_application, memory_operation};
ghost use Rattle.tall_memory.specs.Shapes.{application_seen, operation_seen};
ghost use Rattle.tall_memory.specs.Values.{Gives, ref_seen};

use crate::distinct::memory_distinct;
use crate::groups::memory_groups;
use crate::reductions::{memory_height, memory_reduce};
use crate::scans::memory_scan;
use std::alloc::Global;
use tall_memory::{
    Application, MemoryFault, MemoryRef, MemoryValue, Operation, memory_binary, memory_end,
    memory_unary,
};

/// What an operation gives of its operand.
pub fn memory_operation(
    alloc: Global,
    op: &Operation<'_>,
    v: &MemoryRef<'_>,
) -> Result<MemoryValue, MemoryFault>
    ensures { Gives (memory_operation (operation_seen op.now) (ref_seen v.now)) result }
{
    match op {
        Operation::Reduce(r) => memory_reduce(alloc, *r, v),
        Operation::Height => memory_height(alloc, v),
        Operation::Scan(s) => memory_scan(alloc, *s, v),
        Operation::Head(k) => memory_end(alloc, v, false, *k),
        Operation::Tail(k) => memory_end(alloc, v, true, *k),
        Operation::Distinct => memory_distinct(alloc, v),
        Operation::Groups { key, method, value } => memory_groups(alloc, v, key, *method, value),
        Operation::Unary(op) => memory_unary(alloc, *op, v),
    }
}

#[tactic(auto, unfolding(tall_local::specs::MemoryFunctions::memory_application))]
/// What an application gives: its cell, or its operation on its operands.
pub fn memory_application(
    alloc: Global,
    application: &Application<'_, '_>,
) -> Result<MemoryValue, MemoryFault>
    ensures { Gives (memory_application (application_seen application.now)) result }
{
    match application {
        Application::Constant(c) => MemoryValue::scalar(alloc, c),
        Application::ToOne(op, v) => memory_operation(alloc, op, v),
        Application::ToTwo(op, v, w) => memory_binary(alloc, *op, v, w),
    }
}
