// The chains: a part is compared with those of its slot, and becomes the newest of them. There is no heap, so links are
// indices into tables of a fixed size.
ghost use Rattle.std.specs.Prelude.{◌≡◌, ◌+◌, ◌-◌, ◌*◌, ◌<◌, ◌≤◌, SomeIff, length, take, drop};
ghost use Rattle.chains.specs.Chains.{stands_among, Falling, Tables, Seen};

// Where the part of a link starts: a link of a table is 0 for none, or the offset and 1 more.
fn start_of(link: u16) -> Option<usize>
    ensures { SomeIff result (0 < link) (link - 1) }
{
    usize::from(link).checked_sub(1)
}

// The tables: the newest link of each slot, and behind each link, at a twelfth of its offset, the link before it.
#[derive(Drop)]
pub struct Chains<'a> {
    pub head: &'a mut [u16],
    pub next: &'a mut [u16],
}

impl<'a> Chains<'a> {
    // Whether the n bytes at `at` stand at a link of the chain.
    fn stand_among(&self, bytes: &[u8], at: usize, n: usize, first: u16) -> bool
        requires first_le_at { first ≤ at }
        requires n_in_bounds { at + n ≤ length bytes.now }
        requires bytes_len_bound { length bytes.now ≤ 12 * length self.now.next.now }
        requires falling { Falling self.now.next.now }
        ensures { result ≡ stands_among bytes.now self.now.next.now (take n (drop at bytes.now)) first }
    {
        let mut link = first;
        while let Some(start) = start_of(link) {
            if bytes[start..start + n] == bytes[at..at + n] {
                return true;
            }
            link = self.next[start / 12];
        }
        false
    }

    // Whether the part from `at` to `end` stands in its slot already. It becomes the newest there. The type of a place, start and end,
    // lies above, in `archive`; no archive is longer than the bound, so that a link fits 16 bits.
    pub fn seen_before(&mut self, bytes: &[u8], at: usize, end: usize, slot: usize) -> bool
        requires at_bound { at + 12 ≤ end }
        requires end_in_bounds { end ≤ length bytes.now }
        requires bytes_len_bound { length bytes.now ≤ 65536 }
        requires slot_in_bounds { slot < length self.old.head.now }
        requires tables { Tables bytes.now at self.old.head.now self.old.next.now }
        ensures seen { Seen bytes.now at end slot self.old.head.now self.old.next.now self.new.head.now self.new.next.now result }
        ensures same_head { self.new.head.ghost_name ≡ self.old.head.ghost_name }
        ensures same_next { self.new.next.ghost_name ≡ self.old.next.ghost_name }
    {
        let first = self.head[slot];
        let seen = self.stand_among(bytes, at, end - at, first);
        let link = (at + 1) as u16;
        self.next[at / 12] = first;
        self.head[slot] = link;
        seen
    }
}
