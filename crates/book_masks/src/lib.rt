// The masks of a book in a lent slice, and masks with no value.
#![tactic(auto)]

ghost use Rattle.std.specs.Prelude.{◌≡◌, ◌+◌, ◌*◌, ◌≤◌, length, replicate};
ghost use Rattle.book.specs.Layout.{list_of, mask_at};

use book::mask_at;
use filling::fill;

// Fills masks with those of the first slots of book.
pub fn load_masks(book: &[u8], masks: &mut [u32])
    requires { 12 + 4 * length masks.old ≤ length book.now }
    ensures { masks.new ≡ list_of (length masks.old) (mask_at book.now) }
{
    for (slot, mask) in masks.iter_mut().enumerate() {
        *mask = mask_at(book, slot);
    }
}

// Takes every value out of masks.
pub fn clear_masks(masks: &mut [u32])
    ensures { masks.new ≡ replicate (length masks.old) 0 }
{
    fill(masks, 0);
}
