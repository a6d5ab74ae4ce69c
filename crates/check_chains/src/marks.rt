// What the marks say once all chains of a kind are visited. The loops leave only at their end, so that the compiler can
// take many marks at once.
ghost use Rattle.std.specs.Prelude.{◌+◌, ◌≡◌, length};
ghost use Rattle.layout.specs.Rows.{field};
ghost use Rattle.layout.specs.Decides.{Decides};
ghost use Rattle.check_chains.specs.Marking.{Full, FreeMarked, RowFits};

// All records 1 to n are marked.
pub fn full(seen: &[u8], n: usize) -> bool
    requires { length seen.now ≡ n + 1 }
    ensures { Decides (Full n seen.now) result }
{
    let mut ok = true;
    for k in (1..=n).rev() {
        ok &= seen[k] != 0;
    }
    ok
}

// Of the records 1 to n just those are marked that are free: the cell in the row from off on is 0.
pub(crate) fn free_marked(links: &[u16], off: usize, n: usize, seen: &[u8]) -> bool
    requires { RowFits n off links.now seen.now }
    ensures { Decides (FreeMarked n (field n off links.now) seen.now) result }
{
    let mut ok = true;
    for i in (1..=n).rev() {
        ok &= (seen[i] == 0) != (links[off + i] == 0);
    }
    ok
}
