// The laws of entries and walks, and examples of the definitions.
ghost use Rattle.std.specs.Prelude.{◌≡◌};
ghost use Rattle.sv39.specs.Examples.{OneEnd, Encoded, Examples};

// How many ends a walk has.
pub fn ends_at_most() -> u8
    ensures value { result ≡ 1 }
    ensures one { OneEnd }
    ensures encoded { Encoded }
    ensures examples { Examples }
{
    1u8
}
