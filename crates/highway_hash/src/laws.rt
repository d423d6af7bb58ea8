//! Laws of the definitions that contracts cite. Nothing runs here.

ghost use Rattle.std.specs.Prelude.{◌≡◌};
ghost use Rattle.highway_hash.specs.Riegeli.{riegeli_key};
ghost use Rattle.highway_hash.specs.declared.key.TheConstants.{RIEGELI};

/// `RIEGELI` has the words of the format's key.
///
/// Riegeli/records file format specification, "Block header" and "Chunk header".
pub fn riegeli_is_the_key()
    ensures { RIEGELI.0 ≡ riegeli_key }
{}
