//! A grid text and a request determine the text of the map.
//! [`maps_are_one`] has no code; its contract is the theorem.
ghost use Rattle.std.specs.Prelude.{◌≡◌, ℕ, List};
ghost use Rattle.terrain.specs.declared.place.Place.{Place};
ghost use Rattle.request.specs.Laws.{AreSame};
ghost use Rattle.request.specs.declared.map.Map.{Map};
ghost use Rattle.relief.specs.MapText.{IsMapOfText};

/// Proves that grid text, scale, map and sinks determine the text written.
/// Tile side, number of workers and schedule therefore do not change a map that is written whole.
pub fn maps_are_one()
    ensures { (scale : ℕ) (map same : Map) (sinks : List Place) (input text other : List ℕ) →
        AreSame map same →
        IsMapOfText scale map sinks input text → IsMapOfText scale same sinks input other →
        text ≡ other }
{}
