// A record joins the free ones of its kind.
ghost use Rattle.std.specs.Prelude.{◌≡◌, ◌+◌, ◌<◌, ◌^◌, length};
ghost use Rattle.call_prune.specs.Links.{freed, freed_cap, CapAsks};

use layout::{FREE_CAPS, NEXT_CAP, OWNER};

// The one in slot j: it has 0 in the row OF, which says whose a record is, and in the row NEXT the slot that was the first
// of the free ones, which the cell HEAD names.
pub fn free_record<const OF: usize, const NEXT: usize, const HEAD: usize>(
    links: &mut [u16],
    j: usize,
)
    requires slot { j < 2 ^ 16 }
    requires of_cell { OF + j < length links.old }
    requires next_cell { NEXT + j < length links.old }
    requires head_cell { HEAD < length links.old }
    ensures { links.new ≡ freed OF NEXT HEAD links.old j }
{
    let free = links[HEAD];
    links[OF + j] = 0;
    links[NEXT + j] = free;
    // kept: `as` in free_record, where TryFrom would be a failure that the clause `slot` rules out
    links[HEAD] = j as u16;
}

// The capability's in slot j, which is of no object then.
pub fn free_cap(links: &mut [u16], j: usize)
    requires { CapAsks links.old j }
    ensures { links.new ≡ freed_cap links.old j }
{
    free_record::<OWNER, NEXT_CAP, FREE_CAPS>(links, j);
}
