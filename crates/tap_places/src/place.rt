// Where the sample of a plane lies in the list that is lent.
ghost use Rattle.std.specs.Prelude.{◌≡◌, ◌≤◌};
ghost use Rattle.window.specs.Window.{place};

use window::WindowShape;

// No conversion, which would take one value: a place is made of two coordinates by a shape.
pub(crate) fn place_of(g: WindowShape, x: usize, y: usize) -> usize
    requires { (g.top ≤ y) × (y ≤ 131072) × (x ≤ 131072) × (g.stride ≤ 131072) }
    ensures { result ≡ place g x y }
{
    (y - g.top) * g.stride + x
}
