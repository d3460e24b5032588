ghost use Rattle.std.specs.Prelude.{◌≡◌, ◌+◌, ◌*◌, ◌<◌, ◌^◌};

/// The number of the cell of a state and a place, if each state has so many places.
pub(crate) fn cell(state: u32, place: u32, places: u32) -> u32
    requires { state * places + place < 2 ^ 32 }
    ensures { result ≡ state * places + place }
{
    state * places + place
}
