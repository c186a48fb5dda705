//! Laws of the definitions. Each function's contract is the law; its body does nothing.
ghost use Rattle.occ_net_tables.specs.Places.{PlacesForNumbers};

/// A replay by choices and one by the places that they select come to the same state.
pub fn places_for_numbers()
    ensures { PlacesForNumbers }
{}
