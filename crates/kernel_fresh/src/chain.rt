// Chains of free records.
ghost use Rattle.std.specs.Prelude.{◌≡◌};
ghost use Rattle.kernel_fresh.specs.Stores.{free_chain, ChainFits};

// The cell head names the record last; in the row that starts at off each record from last down names the one before it,
// and record 1 ends the chain.
pub(crate) fn free_chain(links: &mut [u16], head: usize, off: usize, last: u16)
    requires { ChainFits head off last links.old }
    ensures { links.new ≡ free_chain head off last links.old }
{
    links[head] = last;
    for i in (0..last).rev() {
        links[off + usize::from(i) + 1] = i;
    }
}
