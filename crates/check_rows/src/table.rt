// A hash table of slots, by chaining: a slot is compared with those at its place, and then entered there. What makes two
// slots the same is the caller's test.
ghost use Rattle.std.specs.Prelude.{◌≡◌, ◌-◌, ◌<◌, get_or, length, slice_set};
ghost use Rattle.check_rows.specs.Buckets.{Chained, Searched};

// No slot in the chain from slot `head` on passes the test.
fn none_from<F: Fn(usize) -> bool>(next: &[u16], head: usize, same: F) -> bool
    requires callable { F.IsAlwaysCallable same }
    requires chain { Chained (length next.now - 1) next.now 0 head }
    ensures { Searched (F.post same) next.now head result }
{
    let mut j = head;
    while 0 < j {
        if same(j) {
            return false;
        }
        j = usize::from(next[j]);
    }
    true
}

// No slot that stands at the place `at` passes the test. Slot i is entered there.
pub fn enter<F: Fn(usize) -> bool>(
    heads: &mut [u16],
    next: &mut [u16],
    at: usize,
    i: usize,
    same: F,
) -> bool
    requires callable { F.IsAlwaysCallable same }
    requires place { at < length heads.old }
    requires chain { Chained (length next.old - 1) next.old i (get_or heads.old at 0) }
    requires slot { (i < length next.old) × (i < 65536) }
    ensures entered { heads.new ≡ slice_set heads.old at i }
    ensures linked { next.new ≡ slice_set next.old i (get_or heads.old at 0) }
    ensures answer { Searched (F.post same) next.old (get_or heads.old at 0) result }
{
    let head = heads[at];
    let new = none_from(next, usize::from(head), same);
    // kept: a slot is below 65536; `try_from` would give `enter` a refusal that it cannot have.
    heads[at] = i as u16;
    next[i] = head;
    new
}
