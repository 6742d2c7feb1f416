//! Reads a root from a part of a line.

ghost use Rattle.std.specs.Prelude.{◌≡◌};
ghost use Rattle.rh_text.specs.Root.{root_of};

use crate::number::read_number;
use crate::parts::cut;
use rh_layout::RootId;

/// The root `OWNER.SLOT`, each from 0 to 4,294,967,295.
#[tactic(auto, unfolding(crate::specs::Root::root_of))]
pub fn read_root(part: &[u8]) -> Option<RootId>
    ensures { result ≡ root_of part.now }
{
    let (owner, slot) = cut(part, b'.')?;
    Some(RootId {
        owner: read_number(owner)?,
        slot: read_number(slot)?,
    })
}
