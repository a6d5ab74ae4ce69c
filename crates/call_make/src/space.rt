// "13 64 objects or 512 capabilities live, or too few free blocks."
ghost use Rattle.std.specs.Prelude.{◌≡◌};
ghost use Rattle.call_blocks.specs.Taking.{FreeChain};
ghost use Rattle.call_make.specs.Runs.{no_space};

use call_blocks::chain::too_few;
use layout::{FREE_CAPS, FREE_OBJECTS};

// No free record, or fewer than n free blocks.
#[tactic(auto, unfolding(crate::specs::Runs::no_space))]
pub(crate) fn no_space(links: &[u16], n: usize) -> bool
    requires { FreeChain links.now }
    ensures { result ≡ no_space links.now n }
{
    links[FREE_OBJECTS] == 0 || links[FREE_CAPS] == 0 || too_few(links, n)
}
