//! The class tables of functions of whole columns (docs/LANGUAGE.md, functions).
ghost use Rattle.std.specs.Prelude.{◌≡◌};
ghost use Rattle.tall_value.specs.FunctionClasses.{logical_kind, method_kind, ordered_kind, reduction_class, reduction_kind, scan_class, scan_kind, sum_kind};

use crate::class::{Class, Kind};
use crate::class_tables::{of_number, sign_kind};
use crate::faults::ClassFault;
use crate::functions::{Method, Reduction, Scan};

fn ordered_kind(a: Kind) -> Result<Kind, ClassFault>
    ensures { result ≡ ordered_kind a }
{
    match a {
        Kind::Integer(k) => Ok(Kind::Integer(k)),
        Kind::Double => Ok(Kind::Double),
        Kind::Logical | Kind::Text => Err(ClassFault::BadClass),
    }
}

/// The kind of a logical column, which a mask has to be.
pub fn logical_kind(a: Kind) -> Result<Kind, ClassFault>
    ensures { result ≡ logical_kind a }
{
    match a {
        Kind::Logical => Ok(Kind::Logical),
        Kind::Integer(_) | Kind::Double | Kind::Text => Err(ClassFault::BadClass),
    }
}

fn sum_kind(native: bool, a: Kind) -> Result<Kind, ClassFault>
    ensures { result ≡ sum_kind native a }
{
    match native {
        false => of_number(a, Kind::Double),
        true => ordered_kind(a),
    }
}

fn reduction_kind(r: Reduction, a: Kind) -> Result<Kind, ClassFault>
    ensures { result ≡ reduction_kind r a }
{
    match r {
        Reduction::Sum { native, .. } => sum_kind(native, a),
        Reduction::Min | Reduction::Max => ordered_kind(a),
        Reduction::Any | Reduction::All => logical_kind(a),
        Reduction::Nnz => of_number(a, Kind::Double),
        Reduction::Numel | Reduction::Height => Ok(Kind::Double),
    }
}

/// The class of a reduction of a column, or why the column's class is refused.
pub fn reduction_class(r: Reduction, a: Class) -> Result<Class, ClassFault>
    ensures { result ≡ reduction_class r a }
{
    Ok(reduction_kind(r, a.kind())?.class())
}

fn scan_kind(s: Scan, a: Kind) -> Result<Kind, ClassFault>
    ensures { result ≡ scan_kind s a }
{
    match s {
        Scan::CumSum => sign_kind(a),
        Scan::CumMin | Scan::CumMax => ordered_kind(a),
    }
}

/// The class of a scan of a column, or why the column's class is refused.
pub fn scan_class(s: Scan, a: Class) -> Result<Class, ClassFault>
    ensures { result ≡ scan_class s a }
{
    Ok(scan_kind(s, a.kind())?.class())
}

/// The kind of what a method of `groupsummary` makes of data of a kind, or why the kind is refused.
pub fn method_kind(m: Method, a: Kind) -> Result<Kind, ClassFault>
    ensures { result ≡ method_kind m a }
{
    match m {
        Method::Count | Method::Nummissing => Ok(Kind::Double),
        Method::Sum | Method::Nnz => of_number(a, Kind::Double),
        Method::SumNative | Method::Min | Method::Max => ordered_kind(a),
    }
}
