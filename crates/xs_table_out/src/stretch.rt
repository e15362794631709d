ghost use Rattle.std.specs.Prelude.{◌≡◌, slice_range, IfSome};

/// The stretch of a list from one place up to another, where there are such places.
#[inline(always)]
pub fn stretch<T>(list: &[T], at: usize, to: usize) -> Option<&[T]>
    ensures { IfSome result (λ part. part.now ≡ slice_range list.now at to) }
{
    if to < at || list.len() < to {
        return None;
    }
    Some(&list[at..to])
}
