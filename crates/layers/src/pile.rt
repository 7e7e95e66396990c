// Asking any pile of layers, as a host does.
ghost use Rattle.timebase.specs.Meaning.{Least, Agree};
ghost use Rattle.layers.specs.Piles.{PlaceAndLocateAgree};

use timebase::base::Timebase;

// The least position of the pile whose sample is at least s, or its length. The law says that place and locate agree
// on every pile, whatever its layers and their order.
pub fn locate_on<T: Timebase>(pile: &T, s: u64) -> u64
    ensures least { Least (T.meaning pile.now) s result }
    ensures agrees { Agree (T.meaning pile.now) s result }
    ensures law { PlaceAndLocateAgree }
{
    pile.locate(s)
}
