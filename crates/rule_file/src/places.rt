// Writing into places that are known to suffice.
ghost use Rattle.std.specs.Prelude.{length};
ghost use Rattle.filling.specs.Adding.{Added, HasRoom};

use filling::Filling;

// Writes the items. There is room for them, so they are not turned away;
// by `?` each caller would hand on a fault that can not come.
pub(crate) fn put<T: Copy>(places: &mut Filling<'_, T>, items: &[T])
    requires { HasRoom places.old (length items.now) }
    ensures { Added places.old places.new items.now }
{
    let _ = places.extend_from_slice(items);
}
