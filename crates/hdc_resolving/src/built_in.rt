//! The functions that are built in.

ghost use Rattle.std.specs.Prelude.{◌≡◌, ◌++◌, OnOk};
ghost use Rattle.hdc_resolving.specs.Standing as spec;

use hdc_base::SkelKind;
use hdc_resolved::{Degree, Name, Primitive};
use hdc_written::Scope;
use std::alloc::AllocError;

const BUILT_IN: [(&[u8], Name); 23] = [
    (b"+", Name::Primitive(Primitive::Add)),
    (b"-", Name::Primitive(Primitive::Sub)),
    (b"*", Name::Primitive(Primitive::Mul)),
    (b"div", Name::Primitive(Primitive::Div)),
    (b"mod", Name::Primitive(Primitive::Mod)),
    (b"quot", Name::Primitive(Primitive::Quot)),
    (b"rem", Name::Primitive(Primitive::Rem)),
    (b"negate", Name::Primitive(Primitive::Negate)),
    (b"==", Name::Primitive(Primitive::Equal)),
    (b"/=", Name::Primitive(Primitive::Unequal)),
    (b"<", Name::Primitive(Primitive::Less)),
    (b"<=", Name::Primitive(Primitive::AtMost)),
    (b">", Name::Primitive(Primitive::Greater)),
    (b">=", Name::Primitive(Primitive::AtLeast)),
    (b"&&", Name::Primitive(Primitive::And)),
    (b"||", Name::Primitive(Primitive::Or)),
    (b"ord", Name::Primitive(Primitive::Ord)),
    (b"chr", Name::Primitive(Primitive::Chr)),
    (b"error", Name::Primitive(Primitive::Error)),
    (b"dcGen", Name::Skeleton(SkelKind::Gen, Degree::Unneeded)),
    (b"dcDeg", Name::Skeleton(SkelKind::Deg, Degree::Missing)),
    (b"dcDepth", Name::Skeleton(SkelKind::Depth, Degree::Missing)),
    (b"dcElem", Name::Skeleton(SkelKind::Elem, Degree::Missing)),
];

/// The functions that are built in come into scope. Memory may be wanting.
pub fn bind_built_in(scope: &mut Scope<Name>) -> Result<(), AllocError>
    ensures { OnOk result (scope.new ≡ spec.built_in ++ scope.old) }
{
    bind_rows(scope, &BUILT_IN)
}

fn bind_rows(
    scope: &mut Scope<Name>,
    rows: &'static [(&'static [u8], Name)],
) -> Result<(), AllocError>
    ensures { OnOk result (scope.new ≡ spec.each_row rows.now ++ scope.old) }
{
    let mut count = rows.len();
    while count > 0 {
        count -= 1;
        let (name, what) = rows[count];
        scope.bind(name, what)?;
    }
    Ok(())
}
