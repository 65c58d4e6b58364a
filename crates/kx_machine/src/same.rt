//! Whether two of what clients put are the same. The standard library promises of `==` that it is
//! an equivalence; these promise that it is equality.
ghost use Rattle.std.specs.Prelude.{◌≡◌};
ghost use Rattle.std.specs.Bool.{Decides};

use kx_client::{ValueList, Values};

fn same_value_list(a: &ValueList, b: &ValueList) -> bool
    ensures { Decides result (a.now ≡ b.now) }
{
    a == b
}

pub(crate) fn same_values(a: &Values, b: &Values) -> bool
    ensures { Decides result (a.now ≡ b.now) }
{
    a.first == b.first && same_value_list(&a.more, &b.more)
}
