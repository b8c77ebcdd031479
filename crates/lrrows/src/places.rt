//! Lists of places that are filled while nothing stands there.

ghost use Rattle.std.specs.Prelude.{◌≡◌, ◌≢◌, ℕ, ◌<◌, length, slice_index_or};
ghost use Rattle.std.specs.Option.{option_or};

/// Puts the value at the place, if the list has that place and nothing stands there.
pub(crate) fn fill<X: Copy>(places: &mut [Option<X>], place: usize, value: X)
    ensures here { place < length places.old → slice_index_or places.new place None
        ≡ option_or (slice_index_or places.old place None) (Some value) }
    ensures others { (k : ℕ) → k ≢ place
        → slice_index_or places.new k None ≡ slice_index_or places.old k None }
{
    if place < places.len() && places[place].is_none() {
        places[place] = Some(value);
    }
}
