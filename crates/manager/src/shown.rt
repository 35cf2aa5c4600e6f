// Claims that need no fabric at hand.
ghost use Rattle.std.specs.Prelude.{◌≡◌, true};
ghost use Rattle.manager.specs.Guarantee.{Joins};
ghost use Rattle.manager.specs.Witness.{Witness};
ghost use Rattle.manager.specs.Bookings.{Bookings};

// The premises of the guarantee can be met, by a history that meets them all; a packet may join any lane at any time, and the history goes on with
// it; and the worked bookings come out by the definitions of the calls.
pub fn claims_stand() -> bool
    ensures value { result ≡ true }
    ensures premises { Witness }
    ensures joins { Joins }
    ensures bookings { Bookings }
{
    true
}
