//! Lists with two ends, where a want of memory is a refusal of the language.
ghost use Rattle.std.specs.Prelude.{◌≡◌, ◌+◌, ◌<◌, ◌≤◌, length, IsOkUnless, OnErr, OnOk};
ghost use Rattle.trac_gap.specs.Ends.{item_count};

use std::alloc::Allocator;
use trac_gap::TwoEnds;
use trac_rules::refusal::Refusal;

// Makes room for n more items. What the lists hold stays. Refused with `Memory` if the allocator refuses, and then
// nothing changed.
#[inline]
pub(crate) fn reserve<T: Copy, A: Allocator + Copy, E: TwoEnds<T, A>>(
    list: &mut E,
    n: usize,
) -> Result<(), Refusal>
    ensures left { (E.ends list.new).left ≡ (E.ends list.old).left }
    ensures right { (E.ends list.new).right ≡ (E.ends list.old).right }
    ensures grows { (E.ends list.old).capacity ≤ (E.ends list.new).capacity }
    ensures ok { OnOk result (item_count (E.ends list.new) + n ≤ (E.ends list.new).capacity) }
    ensures unchanged { OnErr result (E.ends list.new ≡ E.ends list.old) }

    // Memory is refused only if there is no room.
    ensures full { OnErr result ((E.ends list.old).capacity < item_count (E.ends list.old) + n) }
    ensures err { IsOkUnless result Refusal.Memory }
{
    list.reserve(n).map_err(|_| Refusal::Memory)
}

// Puts these items in the place of all that the lists hold. There has to be room for them. It takes no memory.
pub(crate) fn refill<T: Copy, A: Allocator + Copy, E: TwoEnds<T, A>>(
    list: &mut E,
    left: &[T],
    right: &[T],
)
    requires { length left.now + length right.now ≤ (E.ends list.old).capacity }
    ensures { E.ends list.new ≡ record (E.ends list.old) { left = left.now; right = right.now } }
{
    list.cut_left(list.left().len());
    list.cut_right(list.right().len());
    list.put_left(left);
    list.put_right(right);
}
