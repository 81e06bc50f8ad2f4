ghost use Rattle.std.specs.Prelude.{◌≡◌, ◌<◌, length, slice_index_or};

use device::Groups;
use records::Group;

pub(crate) fn group_at(groups: &Groups, at: usize) -> &Group
    requires { at < length groups.now.list }
    ensures { result.now ≡ slice_index_or groups.now.list at result.now }
{
    groups.nth(at).unwrap()
}
