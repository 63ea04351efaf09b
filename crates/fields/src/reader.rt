// A place in a line: before a field, that is at the tab in front of it, or at the line feed.
ghost use Rattle.std.specs.Prelude.{◌≡◌, ℕ, ◌+◌, ◌-◌, ◌<◌, length, ◌≢◌, slice_index};
ghost use Rattle.fields.specs.Cuts.{Mark};

// The ghost fields say that the line ends with its only line feed, so a reader never runs past it. A place
// and not the rest of the line: a fault is told by its offset.
#[derive(Clone, Copy)]
pub struct Reader<'a> {
    pub line: &'a [u8],
    pub at: usize,
    ghost within: { at < length line.now },
    ghost mark: { Mark (slice_index line.now at) },
    ghost last: { slice_index line.now (length line.now - 1) ≡ 10 },
    ghost only: { ((i : ℕ) → i + 1 < length line.now → slice_index line.now i ≢ 10) },
}
