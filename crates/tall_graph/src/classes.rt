//! The columns of `groupsummary`, the classes of its columns and of what a mask indexes, and refused classes.
ghost use Rattle.std.specs.Prelude.{◌≡◌, [], ◌∷◌, get_or};
ghost use Rattle.tall_value.specs.Classes.{class_of, kind_of};
ghost use Rattle.tall_value.specs.FunctionClasses.{logical_kind};
ghost use Rattle.tall_semantics.specs.Equality.{part_place};
ghost use Rattle.tall_semantics.specs.Shapes.{allowed, group_class, masked_class};
ghost use Rattle.tall_graph.specs.Vertices.{class_seen, part_of, part_seen};

use crate::operations::GraphFault;
use tall_value::{Class, ClassFault, Method, logical_kind, method_kind};

/// The columns that `groupsummary` makes.
#[derive(Clone, Copy, PartialEq, Eq)]
pub(crate) enum Part {
    Keys,
    Counts,
    Values,
}

impl Part {
    pub(crate) fn of(number: u8) -> Part
        ensures { part_seen result ≡ part_of number }
    {
        if number == 0 {
            Part::Keys
        } else if number == 1 {
            Part::Counts
        } else {
            Part::Values
        }
    }
}

pub(crate) fn allowed(class: Result<Class, ClassFault>) -> Result<Class, GraphFault>
    ensures { class_seen result ≡ allowed class }
{
    match class {
        Ok(c) => Ok(c),
        Err(ClassFault::MixedClass) => Err(GraphFault::MixedClass),
        Err(ClassFault::BadClass) => Err(GraphFault::BadClass),
    }
}

/// The class of a column that a mask indexes, or that the mask is no logical.
pub(crate) fn masked_class(a: Class, mask: Class) -> Result<Class, ClassFault>
    ensures { result ≡ masked_class a (logical_kind (kind_of mask)) }
{
    match logical_kind(mask.kind()) {
        Ok(_) => Ok(a),
        Err(e) => Err(e),
    }
}

fn column_class(part: Part, key: Class, value: Class) -> Class
    ensures { result ≡ get_or (class_of (kind_of key) ∷ Class.Double ∷ value ∷ []) (part_place (part_seen part)) Class.Double }
{
    match part {
        Part::Keys => key.kind().class(),
        Part::Counts => Class::Double,
        Part::Values => value,
    }
}

/// The class of a column of `groupsummary`, or why the class of the data is refused. The method's class is looked at for
/// each of the columns.
pub(crate) fn group_class(
    m: Method,
    part: Part,
    key: Class,
    column: Class,
) -> Result<Class, GraphFault>
    ensures { class_seen result ≡ group_class m (part_seen part) key column }
{
    match method_kind(m, column.kind()) {
        Ok(k) => Ok(column_class(part, key, k.class())),
        Err(ClassFault::MixedClass) => Err(GraphFault::MixedClass),
        Err(ClassFault::BadClass) => Err(GraphFault::BadClass),
    }
}
