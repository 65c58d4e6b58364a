//! Names of groups.
ghost use Rattle.std.specs.Prelude.{◌≡◌};
ghost use Rattle.kx_message.specs.Values.{name_with};

use kx_message::GroupId;

/// The group of this name: 1 to 64 bytes, each from 0x21 to 0x7E.
pub fn group_of(name: &[u8]) -> Option<GroupId>
    ensures { result ≡ name_with name.now }
{
    GroupId::try_from(name).ok()
}
