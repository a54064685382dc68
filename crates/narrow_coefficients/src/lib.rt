// The 27 Bézier coefficients (control values) of the Jacobian determinant, from an element's eight points.
//
// An inner crate: the inspector's other crates use it, callers of the inspector do not. It refuses nothing, so whoever calls it has tested
// the coordinates. It offers `coefficients`.
#![tactic(auto)]

ghost use Rattle.std.specs.Prelude.{◌≡◌};
ghost use Rattle.definitions.specs.Coefficients.{coefficients};
ghost use Rattle.element_vectors.specs.Range.{InRange};
ghost use Rattle.narrow_volumes.specs.Range.{narrow_range};

// The 27 coefficients, times 8, in the order of their numbers. The eight points p are in place order, x, y, z of each. All of out is written.
pub fn coefficients(p: &[i32; 24], out: &mut [i64; 27])
    requires { InRange narrow_range p.now }
    ensures { out.new ≡ coefficients p.now }
{
    let volumes = narrow_volumes::volumes(p);
    *out = coefficient_rows::rows(&volumes);
}
