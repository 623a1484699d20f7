//! Sets of bytes.
ghost use Rattle.std.specs.Prelude.{◌≡◌, ◌↔◌, ◌≤◌, ◌<◌, [], ◌∷◌, ◌||◌, ◌&&◌, ◌==◌, not, false, IsTrue};
ghost use Rattle.std.specs.Int.{is_in_range};
ghost use Rattle.std.specs.List.{Contains};
ghost use Rattle.ere_tree.specs.Bytes.{HasBytes};
ghost use Rattle.ere_tree.specs.Case.{other_case, both_cases, all_others};
ghost use Rattle.ere_tree.specs.View.{has_bit, members_of};

/// A set of bytes: bit `b % 64` of word `b / 64` says whether the byte `b` is in it.
#[derive(Clone, Copy, Debug, PartialEq, Eq)]
pub struct ByteSet {
    pub(crate) bits: [u64; 4],
}

impl ByteSet {
    /// The set of no byte.
    pub fn empty() -> ByteSet
        ensures { HasBytes result.bits (λ _. false) }
    {
        ByteSet { bits: [0; 4] }
    }

    /// Whether the byte is in the set.
    #[tactic(auto, using(crate::proofs::SetLemmas::has_member))]
    pub fn has(&self, byte: u8) -> bool
        ensures exact { result ≡ has_bit self.now.bits byte }
        ensures member { IsTrue result ↔ Contains (members_of self.now.bits) byte }
    {
        (self.bits[(byte / 64) as usize] >> (byte % 64)) & 1 == 1
    }

    /// Adds one byte.
    #[tactic(auto, using(crate::proofs::SetLemmas::insert_has))]
    pub fn insert(&mut self, byte: u8)
        ensures { HasBytes self.new.bits (λ b. has_bit self.old.bits b || b == byte) }
    {
        self.bits[(byte / 64) as usize] |= 1 << (byte % 64);
    }

    /// Adds the bytes from `low` to `high`.
    pub fn insert_range(&mut self, low: u8, high: u8)
        requires { low ≤ high }
        ensures { HasBytes self.new.bits (λ b. has_bit self.old.bits b || is_in_range low high b) }
    {
        for byte in low..=high {
            self.insert(byte);
        }
    }

    /// Adds the bytes of the other set.
    #[tactic(auto, using(crate::proofs::SetLemmas::union_has))]
    pub(crate) fn union(&mut self, other: &ByteSet)
        ensures { HasBytes self.new.bits (λ b. has_bit self.old.bits b || has_bit other.now.bits b) }
    {
        let [first, second, third, fourth] = self.bits;
        let [one, two, three, four] = other.bits;
        self.bits = [first | one, second | two, third | three, fourth | four];
    }

    /// The bytes that aren't in the set, but for the newline.
    #[tactic(auto, using(crate::proofs::SetLemmas::complement_has))]
    fn complement_without_newline(&self) -> ByteSet
        ensures { HasBytes result.bits (λ b. not (has_bit self.now.bits b) && not (b == 10)) }
    {
        let [first, second, third, fourth] = self.bits;
        ByteSet {
            bits: [!first & !(1 << 10), !second, !third, !fourth],
        }
    }

    /// The bytes that aren't in the set, but for the newline.
    #[tactic(auto, using(crate::proofs::CaseLemmas::others_of_bits))]
    pub(crate) fn others(&self) -> ByteSet
        ensures { members_of result.bits ≡ all_others (members_of self.now.bits) }
    {
        self.complement_without_newline()
    }

    /// The bytes of the set, and those whose other case is in it.
    fn closed(&self) -> ByteSet
        ensures { HasBytes result.bits (λ b. has_bit self.now.bits b || has_bit self.now.bits (other_case b)) }
    {
        let mut made = *self;
        for byte in b'A'..=b'z' {
            if self.has(other_case(byte)) {
                made.insert(byte);
            }
        }
        made
    }

    /// The bytes of the set, and the letters of it in their other case.
    #[tactic(auto, using(crate::proofs::CaseLemmas::cases_of_bits))]
    pub(crate) fn both_cases(&self) -> ByteSet
        ensures { members_of result.bits ≡ both_cases (members_of self.now.bits) }
    {
        self.closed()
    }

    /// The set of one byte.
    pub(crate) fn of_byte(byte: u8) -> ByteSet
        ensures { members_of result.bits ≡ byte ∷ [] }
    {
        let mut set = ByteSet::empty();
        set.insert(byte);
        set
    }
}

/// A letter in its other case, and any other byte as it is.
fn other_case(byte: u8) -> u8
    ensures value { result ≡ other_case byte }
    ensures byte { result < 256 }
{
    match byte {
        b'A'..=b'Z' => byte + 32,
        b'a'..=b'z' => byte - 32,
        _ => byte,
    }
}
