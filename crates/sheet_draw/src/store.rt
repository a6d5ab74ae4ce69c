// A store that is drawn: the cell of a slot in a row of one of its slices, and 0 where the slice has none.
ghost use Rattle.std.specs.Prelude.{◌≡◌, ◌+◌, ◌≤◌, IfNone, IfSome, slice_index};

#[derive(Clone, Copy)]
pub struct Store<'a> {
    pub bytes: &'a [u8],
    pub links: &'a [u16],
    pub words: &'a [u32],
}

impl Store<'_> {
    pub fn byte(&self, row: usize, slot: usize) -> u8
        ensures { result ≡ slice_index self.now.bytes.now (row + slot) }
    {
        self.bytes
            .get(row.saturating_add(slot))
            .copied()
            .unwrap_or(0)
    }

    pub fn link(&self, row: usize, slot: usize) -> u16
        ensures { result ≡ slice_index self.now.links.now (row + slot) }
    {
        self.links
            .get(row.saturating_add(slot))
            .copied()
            .unwrap_or(0)
    }

    pub fn word(&self, row: usize, slot: usize) -> u32
        ensures { result ≡ slice_index self.now.words.now (row + slot) }
    {
        self.words
            .get(row.saturating_add(slot))
            .copied()
            .unwrap_or(0)
    }

    // The slot that a link names; in the store, 0 is none.
    pub fn linked(&self, row: usize, slot: usize) -> Option<usize>
        ensures some { IfSome result (λ linked. linked ≡ slice_index self.now.links.now (row + slot)) }
        ensures one { IfSome result (λ linked. 1 ≤ linked) }
        ensures none { IfNone result (slice_index self.now.links.now (row + slot) ≡ 0) }
    {
        match self.link(row, slot) {
            0 => None,
            linked => Some(usize::from(linked)),
        }
    }
}
