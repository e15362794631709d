ghost use Rattle.std.specs.Prelude.{◌≡◌, ◌+◌, ◌≤◌, ◌++◌, length, vec_len, vec_capacity, OnOk};

use xs_class::Memory;

/// Up to that many elements are appended one by one: a copy of memory costs more to begin.
const SHORT: usize = 8;

/// Appends elements one by one, for which there is room.
#[inline(always)]
fn append_each<T: Copy>(list: &mut Vec<T>, part: &[T])
    requires { vec_len list.old + length part.now ≤ vec_capacity list.old }
    ensures { list.new.items ≡ list.old.items ++ part.now }
{
    'elements: for element in part {
        list.push_reserved(*element);
    }
}

/// Appends elements.
#[inline(always)]
pub fn append<T: Copy>(list: &mut Vec<T>, part: &[T]) -> Result<(), Memory>
    ensures { OnOk result (list.new.items ≡ list.old.items ++ part.now) }
{
    if part.len() > SHORT {
        list.extend_from_slice(part)?;
        return Ok(());
    }
    list.reserve(part.len())?;
    append_each(list, part);
    Ok(())
}
