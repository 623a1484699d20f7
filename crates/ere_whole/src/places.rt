//! Sets of places.
ghost use Rattle.std.specs.Prelude.{◌≡◌, ℕ, ◌||◌, ◌&&◌, ◌==◌, ◌/◌, false, IsTrue};
ghost use Rattle.ere_whole.specs.Places.{is_held};

/// How many places a block has.
pub(crate) const WIDTH: usize = 256;

/// Places of one block of a text: block n has the places from 256 * n on, 256 of them.
#[derive(Clone, Copy, PartialEq, Eq)]
pub(crate) struct Places {
    pub(crate) block: usize,
    bits: [u64; 4],
}

/// The block that a place lies in.
pub(crate) fn block_of(place: usize) -> usize
    ensures { result ≡ place / 256 }
{
    place / WIDTH
}

impl Places {
    /// No place of this block.
    pub(crate) fn none(block: usize) -> Places
        ensures block { result.block ≡ block }
        ensures held { (q : ℕ) → is_held result q ≡ false }
    {
        Places {
            block,
            bits: [0; 4],
        }
    }

    /// Whether a place is in the set.
    pub(crate) fn has(&self, place: usize) -> bool
        ensures { result ≡ is_held self.now place }
    {
        let at = place % WIDTH;
        self.block == block_of(place) && (self.bits[at / 64] >> (at % 64)) & 1 == 1
    }

    /// Adds a place, if it lies in the block.
    #[tactic(auto, using(crate::proofs::PlacesLemmas::held_put))]
    pub(crate) fn put(&mut self, place: usize)
        ensures block { self.new.block ≡ self.old.block }
        ensures held { (q : ℕ) → is_held self.new q
            ≡ (is_held self.old q || (q == place && place / 256 == self.old.block)) }
    {
        if block_of(place) == self.block {
            let at = place % WIDTH;
            self.bits[at / 64] |= 1 << (at % 64);
        }
    }

    /// Adds the places of another set of the same block.
    #[tactic(auto, using(crate::proofs::PlacesLemmas::held_add))]
    pub(crate) fn add(&mut self, other: &Places)
        requires { other.now.block ≡ self.old.block }
        ensures block { self.new.block ≡ self.old.block }
        ensures held { (q : ℕ) → is_held self.new q ≡ (is_held self.old q || is_held other.now q) }
    {
        let [first, second, third, fourth] = self.bits;
        let [one, two, three, four] = other.bits;
        self.bits = [first | one, second | two, third | three, fourth | four];
    }

    /// Those of its places that lie in a block.
    pub(crate) fn only_in(&self, block: usize) -> Places
        ensures block { result.block ≡ block }
        ensures held { (q : ℕ) → is_held result q ≡ (is_held self.now q && q / 256 == block) }
    {
        if self.block == block {
            *self
        } else {
            Places::none(block)
        }
    }

    /// Whether there is no place in the set.
    pub(crate) fn is_empty(&self) -> bool
        ensures { IsTrue result → (q : ℕ) → is_held self.now q ≡ false }
    {
        self.bits == [0; 4]
    }

    /// Whether two sets are one.
    pub(crate) fn is_same(&self, other: &Places) -> bool
        ensures { IsTrue result → self.now ≡ other.now }
    {
        self == other
    }
}
