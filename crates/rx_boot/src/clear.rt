//! Words of zero.
ghost use Rattle.std.specs.Prelude.{◌≡◌, EachIndex, slice_index};

/// Writes 0 into each place.
pub(crate) fn clear(words: &mut [u64])
    ensures { EachIndex words.new (λ i. slice_index words.new i ≡ 0) }
{
    for word in words.iter_mut() {
        *word = 0;
    }
}
