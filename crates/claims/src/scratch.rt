// The scratch: a mark for each resource that a claim may have, a byte each or a bit each.
ghost use Rattle.std.specs.Prelude.{◌≡◌, ℕ, ◌+◌, ◌≤◌, Bool, List, length};
ghost use Rattle.claims.specs.Form.{FormLaws, byte_room, byte_is_marked, byte_with_mark, bytes_laid, bit_room, bit_is_marked, bit_with_mark, bits_laid};
ghost use Rattle.claims.specs.Laws.{byte_laws, bit_laws};

// A form of the scratch: how its marks stand in its bytes. A mark goes by its offset t from the first one.
pub(crate) trait Form {
    // How many bytes `count` marks take.
    ghost room: { ℕ → ℕ };

    // Mark t is set.
    ghost is_marked: { List ℕ → ℕ → Bool };

    // The scratch with mark t set.
    ghost with_mark: { List ℕ → ℕ → List ℕ };

    // The bytes of `count` marks of which those are set at which a test passes.
    ghost laid: { (ℕ → Bool) → ℕ → List ℕ };

    fn room(count: usize) -> usize
        ensures { result ≡ room count };

    fn is_marked(scratch: &[u8], t: usize) -> bool
        requires { room (t + 1) ≤ length scratch.now }
        ensures { result ≡ is_marked scratch.now t };

    fn mark(scratch: &mut [u8], t: usize)
        requires { room (t + 1) ≤ length scratch.old }
        ensures { scratch.new ≡ with_mark scratch.old t };

    ghost laws: { FormLaws room is_marked with_mark laid };
}

// A byte for each mark, 1 where it is set.
pub(crate) struct Bytes;

impl Form for Bytes {
    ghost room = { byte_room };

    ghost is_marked = { byte_is_marked };

    ghost with_mark = { byte_with_mark };

    ghost laid = { bytes_laid };

    ghost laws = { byte_laws };

    fn room(count: usize) -> usize {
        count
    }

    fn is_marked(scratch: &[u8], t: usize) -> bool {
        scratch[t] != 0
    }

    fn mark(scratch: &mut [u8], t: usize) {
        scratch[t] = 1;
    }
}

// A bit for each mark: mark t is bit t % 8 of byte t / 8.
pub(crate) struct Bits;

impl Form for Bits {
    ghost room = { bit_room };

    ghost is_marked = { bit_is_marked };

    ghost with_mark = { bit_with_mark };

    ghost laid = { bits_laid };

    ghost laws = { bit_laws };

    fn room(count: usize) -> usize {
        count.div_ceil(8)
    }

    fn is_marked(scratch: &[u8], t: usize) -> bool {
        (scratch[t / 8] >> (t % 8)) & 1 != 0
    }

    fn mark(scratch: &mut [u8], t: usize) {
        scratch[t / 8] |= 1 << (t % 8);
    }
}
