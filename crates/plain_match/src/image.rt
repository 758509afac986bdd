//! Whether the facts of an image were all met.

ghost use Rattle.std.specs.Prelude.{◌↔◌, IsTrue, All, Contains};

/// Whether each number of the image was met.
pub(crate) fn are_all_met(image: &[u32], path: &[u32]) -> bool
    ensures exact { IsTrue result ↔ All (Contains path.now) image.now }
{
    for number in image {
        if !path.contains(number) {
            return false;
        }
    }
    true
}
