//! Sides of comparisons that are literals.
ghost use Rattle.std.specs.Prelude.{◌≡◌};
ghost use Rattle.eddy_meaning.specs.Literal as spec;

use sq_expr::Side;

/// Whether a side is a literal: it is plain and no column.
pub fn is_literal(side: &Side) -> bool
    ensures { result ≡ spec.is_literal side.now }
{
    match side {
        Side::Column(_) => false,
        _ => side.plain(),
    }
}
